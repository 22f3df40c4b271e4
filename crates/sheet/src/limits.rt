// The limits of a sheet and of the buffers (01, "The sheet" and "Turned back"). specs/Limits.antt states the same for the definitions.

pub const MOST_STATIONS: u64 = 4;

pub const MOST_DESKS: u64 = 3;
// Any time but the turn (02, Req 01); the least is 0 for a mount, a station and a delay, and 1 for the others.
pub const MOST_TIME: u64 = 60_000;

// The turn between passes, in seconds (02, Req 06); the least is 0.
pub const MOST_TURN: u64 = 600;

// The weight of a strip (02, Req 09); the least is 1.
pub const MOST_WEIGHT: u64 = 100;

pub const MOST_STRIPS: usize = 40;

pub const MOST_STRIPS_OF_DESK: usize = 6;

pub const MOST_BLOCKS: usize = 32;

pub const MOST_BLOCKS_WITHOUT_ORDER: usize = 8;
// The latest start or finish in an allowed plan.
pub const CEILING: u64 = 10_000_000;

pub const TABLE_LENGTH: usize = 6_400;

pub const PLAN_LENGTH: usize = 1_103;
// A page buffer (02, Req 02): a line of 33 bytes for each head and each member that a plan may have.
pub const PAGE_LENGTH: usize = 3_069;
