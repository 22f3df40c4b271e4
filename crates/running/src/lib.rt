// What the rules take from a section, for those who follow them member by member. The rules as they run over the members in order stand in specs/.
#![tactic(auto)]

pub mod flight;
pub mod mosaic;
pub mod sorting;

// How far a sorting has come: the strips each desk has had, from when it is free, and from when the scanner is.
#[derive(Clone, Copy)]
pub struct Desks {
    pub done: [u64; 3],
    pub free: [u64; 3],
    pub scanner: u64,
}
