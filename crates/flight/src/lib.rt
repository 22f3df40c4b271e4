// The flight planner: the given order or the best of all proper orders, and the least start of every pass in it. In the literature: coupled tasks with
// time lags on one machine, for the least makespan.
#![tactic(auto)]

ghost use Rattle.std.specs.Prelude.{◌≡◌, ◌≤◌};
ghost use Rattle.sheet.specs.Limits.{most_blocks};
ghost use Rattle.sheet.specs.Sound.{FlightSound};
ghost use Rattle.flight.specs.Choice.{delays_fit, one_by_one, chosen_order, Planned, PlannedIn};
ghost use Rattle.flight.specs.Clauses.{SomeBlocks, Lent, PlanChosenPre, PlanInOrderPre, PlanBlocksPre, PassesAtPre, PassesAt};

use difference::{Constraint, NO_CONSTRAINT};
use flight_order::Blocks;
use rules::Passes;
use sheet::FlightSection;

// A plan: whether its order is possible, its figure and order number, and the passes of each block, with zeros after them.
#[derive(Clone, Copy)]
pub struct FlightPlan {
    pub possible: bool,
    pub figure: u64,
    pub order: u64,
    pub blocks: [Passes; 32],
}

// The passes of no block.
const NO_PASSES: Passes = Passes {
    first: 0,
    second: 0,
};

// The passes of n blocks, at the first n starts and at the next n, with zeros after them.
fn passes_at(starts: &[u64], n: usize) -> [Passes; 32]
    requires { PassesAtPre starts.now n }
    ensures { PassesAt starts.now n n result }
{
    let mut blocks = [NO_PASSES; 32];
    for i in 0..n {
        blocks[i] = Passes {
            first: starts[i],
            second: starts[n + i],
        };
    }
    blocks
}

// The blocks of a flight section, lent.
fn blocks_of<'a>(f: &'a FlightSection) -> Blocks<'a>
    ensures { Lent f.now result }
{
    Blocks {
        count: f.blocks,
        turn: f.turn,
        first: &f.first,
        second: &f.second,
        shortest: &f.shortest,
        longest: &f.longest,
    }
}

// The plan in one order, with room for its constraints and starts.
fn plan_in_order(
    f: FlightSection,
    order: u64,
    rows: &mut [Constraint],
    starts: &mut [u64],
) -> FlightPlan
    requires { PlanInOrderPre f order rows.old starts.old }
    ensures { PlannedIn f order result }
{
    let n = f.blocks;
    let blocks = blocks_of(&f);
    let found = blocks.least_starts(order, rows, starts);
    let finish = starts[2 * n - 1] + f.second[n - 1];
    FlightPlan {
        possible: found,
        figure: finish,
        order,
        blocks: passes_at(starts, n),
    }
}

// Whether every longest delay is at least the turn.
fn delays_fit(f: &FlightSection) -> bool
    requires { FlightSound f.now }
    ensures { result ≡ delays_fit f.now f.now.blocks }
{
    f.longest[..f.blocks].iter().all(|delay| f.turn <= *delay)
}

// The order of n blocks one after the other.
fn one_by_one(n: usize) -> u64
    requires { n ≤ most_blocks }
    ensures { result ≡ one_by_one n }
{
    let mut order = 0;
    for i in 0..n {
        order = order::append_second(order, (2 * i + 1) as u64);
    }
    order
}

// The given order, or the one that the search takes. Where a longest delay is shorter than the turn no order is possible, and none is
// searched for.
fn choose_order(section: &FlightSection) -> u64
    requires { SomeBlocks section.now }
    ensures { result ≡ chosen_order section.now }
{
    if section.ordered {
        return section.order;
    }
    if !delays_fit(section) {
        return one_by_one(section.blocks);
    }
    let blocks = Blocks {
        count: section.blocks,
        turn: section.turn,
        first: &section.first,
        second: &section.second,
        shortest: &section.shortest,
        longest: &section.longest,
    };
    match flight_search::best_order(&blocks) {
        Some(best) => best.order,
        None => 0,
    }
}

// The plan in the chosen order.
fn plan_chosen(f: FlightSection, rows: &mut [Constraint], starts: &mut [u64]) -> FlightPlan
    requires { PlanChosenPre f rows.old starts.old }
    ensures { Planned f result }
{
    let order = choose_order(&f);
    plan_in_order(f, order, rows, starts)
}

// The plan of at least one block, with room for the constraints and starts of 32.
fn plan_blocks(f: FlightSection, rows: &mut [Constraint], starts: &mut [u64]) -> FlightPlan
    requires { PlanBlocksPre f rows.old starts.old }
    ensures { Planned f result }
{
    let count = 4 * f.blocks - 1;
    let passes = 2 * f.blocks;
    plan_chosen(f, &mut rows[..count], &mut starts[..passes])
}

// The plan of a flight section; an absent one has a plan with no block.
pub fn plan_flight(f: FlightSection) -> FlightPlan
    requires { FlightSound f }
    ensures { Planned f result }
{
    if f.blocks == 0 {
        return FlightPlan {
            possible: true,
            figure: 0,
            order: 0,
            blocks: [NO_PASSES; 32],
        };
    }
    let mut rows = [NO_CONSTRAINT; flight_order::MOST_CONSTRAINTS];
    let mut starts = [0; flight_order::MOST_PASSES];
    plan_blocks(f, &mut rows, &mut starts)
}
