// What the numbers of the search come to at most. specs/Instance.antt states the same for the definitions, and why.

pub const TIME_CAP: u64 = 1 << 20;

pub const WEIGHT_CAP: u64 = 1 << 10;

pub const DESKS_CAP: u64 = 3;

pub const DESK_STRIPS_CAP: u64 = 6;

pub const STRIPS_CAP: u64 = DESKS_CAP * DESK_STRIPS_CAP;
// What one strip adds to a desk's free time, and the free time.
pub const STRIP_SPAN: u64 = 2 * TIME_CAP;

pub const FREE_CAP: u64 = STRIPS_CAP * STRIP_SPAN;
// What one strip adds to the cost, and the cost.
pub const STRIP_COST: u64 = WEIGHT_CAP * FREE_CAP;

pub const COST_CAP: u64 = STRIPS_CAP * STRIP_COST;
