// The tags of the sheet's and the plan's fields (01, "The sheet" and "The plan"; 02). specs/Tags.antt states the same for the definitions.

pub const MOSAIC_HEAD: u8 = 0x10;

pub const MOSAIC_STRIP: u8 = 0x11;

pub const SORTING_HEAD: u8 = 0x20;

pub const SORTING_STRIP: u8 = 0x21;

pub const FLIGHT_HEAD: u8 = 0x30;

pub const FLIGHT_BLOCK: u8 = 0x31;

pub const FLIGHT_ORDER: u8 = 0x32;

// A block with a window for its delay (02, Req 07).
pub const FLIGHT_WINDOW_BLOCK: u8 = 0x33;

pub const PLAN_MOSAIC: u8 = 0x90;

pub const PLAN_BATCH: u8 = 0x91;

pub const PLAN_SORTING: u8 = 0xa0;

pub const PLAN_STRIP: u8 = 0xa1;

pub const PLAN_FLIGHT: u8 = 0xb0;

pub const PLAN_BLOCK: u8 = 0xb1;

pub const PLAN_REFUSAL: u8 = 0xe0;
