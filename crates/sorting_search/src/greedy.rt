// A greedy list, whose figure is where the search starts.
ghost use Rattle.std.specs.Prelude.{◌≡◌, ◌≤◌};
ghost use Rattle.interleaving.specs.Instance.{Instance, cost_cap};
ghost use Rattle.sorting_search.specs.Greedy.{bound_of, first_desk, better_desk, greedy_desk, greedy_figure, LowerBoundPre, GreedyDeskPre, BetterDeskPre};

use interleaving::{State, step, strip_left};
use sorting_bounds::desk_bound::desk_bound;
use sorting_bounds::scanner_bound::scanner_bound;
use sorting_labels::count_key;

// The first desk that has a strip left.
#[tactic(auto, unfolding(crate::specs::Greedy::first_desk))]
fn first_desk(jobs: &[u64], s: State) -> usize
    requires { Instance jobs.now }
    ensures { result ≡ first_desk jobs.now s }
{
    if strip_left(jobs, s, 0) {
        0
    } else if strip_left(jobs, s, 1) {
        1
    } else {
        2
    }
}

// The greater of the two lower bounds of s.
#[tactic(auto, unfolding(crate::specs::Greedy::bound_of))]
fn lower_bound(jobs: &[u64], s: State, m: &[u64]) -> u64
    requires { LowerBoundPre jobs.now s m.now }
    ensures { result ≡ bound_of jobs.now m.now s }
{
    scanner_bound(jobs, s, count_key(jobs, s), m).max(desk_bound(jobs, s))
}

// The one of two desks whose step has the smaller lower bound, the chosen one where they are equal.
fn better_desk(jobs: &[u64], s: State, chosen: usize, d: usize, m: &[u64]) -> usize
    requires { BetterDeskPre jobs.now s chosen d m.now }
    ensures { result ≡ better_desk jobs.now m.now s chosen d }
{
    if !strip_left(jobs, s, d) {
        return chosen;
    }
    let by_chosen = lower_bound(jobs, step(jobs, s, chosen), m);
    let by_other = lower_bound(jobs, step(jobs, s, d), m);
    if by_other < by_chosen { d } else { chosen }
}

// The desk whose step has the least lower bound.
fn greedy_desk(jobs: &[u64], s: State, m: &[u64]) -> usize
    requires { GreedyDeskPre jobs.now s m.now }
    ensures { result ≡ greedy_desk jobs.now m.now s }
{
    let a = first_desk(jobs, s);
    let b = better_desk(jobs, s, a, 1, m);
    better_desk(jobs, s, b, 2, m)
}

// The figure of the greedy list from s on.
pub fn greedy(jobs: &[u64], mut s: State, m: &[u64]) -> u64
    requires { LowerBoundPre jobs.now s m.now }
    ensures { (result ≡ greedy_figure jobs.now m.now s) × (result ≤ cost_cap) }
{
    while 0 < s.left {
        s = step(jobs, s, greedy_desk(jobs, s, m));
    }
    s.cost
}
