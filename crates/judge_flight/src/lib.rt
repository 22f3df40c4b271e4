// The passes of a plan's flight: whether they come in the order that its head states, one after another, and when the last one ends.
// The first member of the flight stands at offset `at` of the plan.
#![tactic(auto)]

ghost use Rattle.std.specs.Prelude.{◌≡◌, ◌+◌, ◌-◌, ◌*◌, ◌<◌};
ghost use Rattle.rules.specs.Flight.{flight_figure};
ghost use Rattle.plan_read.specs.PlanRead.{blocks_from};
ghost use Rattle.judge_rules.specs.Follows.{passes_in_order, flight_head};
ghost use Rattle.judge_flight.specs.Starts.{PassStartPre, StartTold, PassEndPre, PassesInOrderPre, FigureTold, FlightHeadPre, start_in_plan, end_in_plan};
ghost use Rattle.judge_flight.specs.Starts.{clear_in_plan};

use order::pass_at;
use plan_format::PASSES_SIZE;
use plan_read::passes_from;
use running::flight::pass_time;
use sheet::FlightSection;

// A flight as a plan states it: its section, the plan, and the offset of its first member.
#[derive(Clone, Copy)]
struct Stated<'a> {
    flight: FlightSection,
    plan: &'a [u8],
    at: usize,
}

impl Stated<'_> {
    // The start of pass p.
    fn start(&self, p: usize) -> u64
        requires { PassStartPre self.now.at self.now.flight.blocks p }
        ensures { StartTold (start_in_plan self.now.plan.now self.now.at self.now.flight.blocks p) result }
    {
        let n = self.flight.blocks;
        if p < n {
            passes_from(self.plan, self.at + PASSES_SIZE * p).first
        } else {
            passes_from(self.plan, self.at + PASSES_SIZE * (p - n)).second
        }
    }

    // The end of pass p.
    fn end(&self, p: usize) -> u64
        requires { PassEndPre self.now.flight self.now.at p }
        ensures { FigureTold (end_in_plan self.now.flight self.now.plan.now self.now.at p) result }
    {
        self.start(p) + pass_time(self.flight, p)
    }

    // From when on another pass may start after pass p: the turn after its end.
    fn clear(&self, p: usize) -> u64
        requires { PassEndPre self.now.flight self.now.at p }
        ensures { result ≡ clear_in_plan self.now.flight self.now.plan.now self.now.at p }
    {
        self.end(p) + self.flight.turn
    }
}

// Whether each pass starts no earlier than the turn after the one before it in the order ends.
pub fn passes_in_order(f: FlightSection, order: u64, plan: &[u8], at: usize) -> bool
    requires { PassesInOrderPre f order at }
    ensures { result ≡ passes_in_order f order (blocks_from plan.now at f.blocks) (2 * f.blocks - 1) }
{
    let stated = Stated {
        flight: f,
        plan,
        at,
    };
    for k in 1..2 * f.blocks {
        let p = pass_at(f.blocks, order, k - 1);
        let q = pass_at(f.blocks, order, k);
        if stated.start(q) < stated.clear(p) {
            return false;
        }
    }
    true
}

// The end of the last pass.
pub fn flight_figure(f: FlightSection, plan: &[u8], at: usize) -> u64
    requires { FlightHeadPre f at }
    ensures { FigureTold (flight_figure f (blocks_from plan.now at f.blocks)) result }
{
    let stated = Stated {
        flight: f,
        plan,
        at,
    };
    let mut greatest: u64 = 0;
    for p in 0..2 * f.blocks {
        greatest = greatest.max(stated.end(p));
    }
    greatest
}

// What is checked at the head of a flight, its members judged.
pub fn flight_head(f: FlightSection, members: usize, order: u64, plan: &[u8], at: usize) -> bool
    requires { FlightHeadPre f at }
    ensures { result ≡ flight_head f members order (blocks_from plan.now at members) }
{
    if members != f.blocks {
        return false;
    }
    if !order::proper(f.blocks as u64, order) {
        return false;
    }
    if f.ordered && order != f.order {
        return false;
    }
    passes_in_order(f, order, plan, at)
}
