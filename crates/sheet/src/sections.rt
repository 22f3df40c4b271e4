// The section that is being read: none yet, one of the three, or flight behind its order field. specs/Sections.antt states the same for the definitions.

pub const NO_SECTION: u64 = 0;

pub const IN_MOSAIC: u64 = 1;

pub const IN_SORTING: u64 = 2;

pub const IN_FLIGHT: u64 = 3;

pub const AFTER_ORDER: u64 = 4;
