// The sheet: its limits, its tags, its refusals, and what reading one gives.
#![tactic(auto)]

pub mod desks;
pub mod limits;
pub mod refusals;
pub mod sections;
pub mod tags;

// The mosaic section. Station k of strip j, both from 0, stands at 4 j + k. The weight of a strip that carries none is 1 (02, Req 09), here and in a sorting.
#[derive(Clone, Copy)]
pub struct MosaicSection {
    pub stations: usize,
    pub mount: u64,
    pub strips: usize,
    pub station: [u64; 160],
    pub bench: [u64; 40],
    pub weight: [u64; 40],
}

// The sorting section. Strip k of desk d, both from 0, stands at 6 d + k.
#[derive(Clone, Copy)]
pub struct SortingSection {
    pub desks: usize,
    pub counts: [usize; 3],
    pub scan: [u64; 18],
    pub desk: [u64; 18],
    pub weight: [u64; 18],
}

// A block of the flight: its two passes, and the window in which the delay between them lies.
#[derive(Clone, Copy)]
pub struct Block {
    pub first: u64,
    pub shortest: u64,
    pub longest: u64,
    pub second: u64,
}

// The flight section: the turn between passes; first pass, shortest delay, longest delay and second pass of each block; the order number where one is given;
// and the place that is returned where no timetable is possible, that of the order field, or of the head where no order is given.
#[derive(Clone, Copy)]
pub struct FlightSection {
    pub blocks: usize,
    pub turn: u64,
    pub first: [u64; 32],
    pub shortest: [u64; 32],
    pub longest: [u64; 32],
    pub second: [u64; 32],
    pub ordered: bool,
    pub order: u64,
    pub place: usize,
}

// A sheet that was read: number 0 and its sections, of which an absent one has no member; or the number and place of its refusal and no section.
#[derive(Clone, Copy)]
pub struct Sheet {
    pub number: u64,
    pub place: usize,
    pub mosaic: MosaicSection,
    pub sorting: SortingSection,
    pub flight: FlightSection,
}

// How far a sheet is read: the next field's place, the section that is being read, its head's place and its members, and what is decoded.
#[derive(Clone, Copy)]
pub struct Reading {
    pub at: usize,
    pub section: u64,
    pub head: usize,
    pub members: usize,
    pub mosaic: MosaicSection,
    pub sorting: SortingSection,
    pub flight: FlightSection,
}
