// The lower bound that serves each desk alone.
ghost use Rattle.std.specs.Prelude.{◌≡◌, ◌≤◌, ◌<◌};
ghost use Rattle.interleaving.specs.Instance.{Instance};
ghost use Rattle.interleaving.specs.Consistent.{Consistent};
ghost use Rattle.sorting_bounds.specs.DeskBound.{desk_rest, desk_bound, rest_cap, bound_cap};

use interleaving::{State, desk_time, scan_time};

// The sum of weight times finishing time of what is left of desk d, as if the scanner served it alone.
#[tactic(auto, using(crate::proofs::DeskBound::rest_none, crate::proofs::DeskBound::rest_more))]
fn desk_rest(jobs: &[u64], s: State, d: usize) -> u64
    requires { Instance jobs.now × Consistent jobs.now s × (d < 3) }
    ensures { (result ≡ desk_rest jobs.now s d) × (result ≤ rest_cap) }
{
    let mut time = s.time;
    let mut free = s.free[d];
    let mut sum: u64 = 0;
    for i in s.taken[d]..jobs[d] as usize {
        time += scan_time(jobs, d, i);
        free = free.max(time) + desk_time(jobs, d, i);
        // The weight by its place in the list and not by `weight`: a wrong place here is wrong in this bound alone, and is refused here.
        sum += jobs[3 + (d * 6 + i) + 36] * free;
    }
    sum
}

#[tactic(auto, unfolding(crate::specs::DeskBound::desk_bound))]
pub fn desk_bound(jobs: &[u64], s: State) -> u64
    requires { Instance jobs.now × Consistent jobs.now s }
    ensures { (result ≡ desk_bound jobs.now s) × (result ≤ bound_cap) }
{
    let a = desk_rest(jobs, s, 0);
    let b = desk_rest(jobs, s, 1);
    let c = desk_rest(jobs, s, 2);
    s.cost + a + b + c
}
