// The flight planner for C, so that bench/ can time it by itself.
#![tactic(auto)]

ghost use Rattle.sheet.specs.Sound.{FlightSound};
ghost use Rattle.flight_bench.specs.Answered.{section_of, Answered};

use sheet::FlightSection;

#[repr(C)]
#[derive(Clone, Copy)]
pub struct FlightAnswer {
    pub figure: u64,
    pub order: u64,
    pub possible: bool,
}

// Figure and order of the plan, and whether it is possible.
#[unsafe(no_mangle)]
pub extern "C" fn flight_best(
    blocks: usize,
    turn: u64,
    first: &[u64; 32],
    shortest: &[u64; 32],
    longest: &[u64; 32],
    second: &[u64; 32],
    ordered: bool,
    order: u64,
) -> FlightAnswer
    requires { FlightSound (section_of blocks turn first.now shortest.now longest.now second.now ordered order) }
    ensures { Answered (section_of blocks turn first.now shortest.now longest.now second.now ordered order) result }
{
    let f = FlightSection {
        blocks,
        turn,
        first: *first,
        shortest: *shortest,
        longest: *longest,
        second: *second,
        ordered,
        order,
        place: 0,
    };
    let plan = flight::plan_flight(f);
    FlightAnswer {
        figure: plan.figure,
        order: plan.order,
        possible: plan.possible,
    }
}
