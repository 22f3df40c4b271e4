// The rules of the three sections: when a timetable is lawful, what its figure is, when a plan is allowed; and which of several best sortings is taken. They
// stand in specs/; here is what a plan's members are.
#![tactic(auto)]

// A batch of the mosaic: the number of its last strip, the start of its mount, its finish.
#[derive(Clone, Copy)]
pub struct Batch {
    pub last: u64,
    pub start: u64,
    pub finish: u64,
}

// A strip of the sorting: its desk, its number within the desk, the start of its scan, the start of its desk job.
#[derive(Clone, Copy)]
pub struct Job {
    pub desk: u64,
    pub number: u64,
    pub scan: u64,
    pub start: u64,
}

// A block of the flight: the start of its first pass and of its second.
#[derive(Clone, Copy)]
pub struct Passes {
    pub first: u64,
    pub second: u64,
}
