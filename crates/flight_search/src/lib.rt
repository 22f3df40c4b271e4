// The search over all proper orders of a flight for one of the least figure (in the literature: the sequences of coupled tasks, for the least makespan).
#![tactic(auto)]

ghost use Rattle.std.specs.Prelude.{◌≡◌, ◌*◌};
ghost use Rattle.flight_order.specs.Constraints.{section_of};
ghost use Rattle.flight_search.specs.Search.{no_incumbent, tried, searched};
ghost use Rattle.flight_search.specs.Orders.{orders_of};
ghost use Rattle.flight_search.specs.Clauses.{BlockTimes, SearchAllPre, TryOrderPre, SearchPre};

use difference::{Constraint, NO_CONSTRAINT};
use flight_order::Blocks;

// The best order so far.
#[derive(Clone, Copy)]
pub struct Incumbent {
    pub figure: u64,
    pub order: u64,
}

// One order tried: it replaces the incumbent where it is possible and its figure is smaller.
fn try_order(
    blocks: &Blocks,
    order: u64,
    rows: &mut [Constraint],
    starts: &mut [u64],
    best: Option<Incumbent>,
) -> Option<Incumbent>
    requires { TryOrderPre (section_of blocks.now) order rows.old starts.old }
    ensures { result ≡ tried (orders_of (section_of blocks.now)) order best }
{
    if !blocks.least_starts(order, rows, starts) {
        return best;
    }
    let n = blocks.count;
    let figure = starts[2 * n - 1] + blocks.second[n - 1];
    let found = Some(Incumbent { figure, order });
    let Some(b) = best else {
        return found;
    };
    if b.figure <= figure { best } else { found }
}

// All proper orders that begin with x and have `left` passes more, those with a first pass next before those with a second pass next.
fn search(
    blocks: &Blocks,
    left: usize,
    x: u64,
    rows: &mut [Constraint],
    starts: &mut [u64],
    best: Option<Incumbent>,
) -> Option<Incumbent>
    requires { SearchPre (section_of blocks.now) left x rows.old starts.old }
    ensures { result ≡ searched (orders_of (section_of blocks.now)) left x best }
{
    if left == 0 {
        return try_order(blocks, x, rows, starts, best);
    }
    let rest = left - 1;
    let at = 2 * blocks.count - left;
    let firsts = order::firsts_before(x, at as u64) as usize;
    let seconds = at - firsts;
    if blocks.count <= firsts {
        let y = order::append_second(x, at as u64);
        return search(blocks, rest, y, rows, starts, best);
    }
    let after = search(blocks, rest, x, rows, starts, best);
    if firsts <= seconds {
        return after;
    }
    let y = order::append_second(x, at as u64);
    search(blocks, rest, y, rows, starts, after)
}

// The search from the empty beginning, with room for the constraints and starts of 32 blocks.
fn search_all(blocks: &Blocks, rows: &mut [Constraint], starts: &mut [u64]) -> Option<Incumbent>
    requires { SearchAllPre (section_of blocks.now) rows.old starts.old }
    ensures { result ≡ searched (orders_of (section_of blocks.now)) (2 * blocks.now.count) 0 no_incumbent }
{
    let count = 4 * blocks.count - 1;
    let passes = 2 * blocks.count;
    search(
        blocks,
        passes,
        0,
        &mut rows[..count],
        &mut starts[..passes],
        None,
    )
}

// The first of the best orders in the search's own order.
pub fn best_order(blocks: &Blocks) -> Option<Incumbent>
    requires { BlockTimes (section_of blocks.now) }
    ensures { result ≡ searched (orders_of (section_of blocks.now)) (2 * blocks.now.count) 0 no_incumbent }
{
    let mut rows = [NO_CONSTRAINT; flight_order::MOST_CONSTRAINTS];
    let mut starts = [0; flight_order::MOST_PASSES];
    search_all(blocks, &mut rows, &mut starts)
}
