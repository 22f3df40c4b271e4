// The two lower bounds of the search over interleavings.
#![tactic(auto)]

pub mod desk_bound;
pub mod scanner_bound;

// The count vectors: at most 6 strips taken of each of the three desks.
pub const VECTORS: usize = 343;
// The numbers that the labels take, at the front of the working table; behind them stands the scanner's entry of each count vector.
pub const LABELS_LENGTH: usize = 5_488;
