// The search over interleavings with its cuts: it returns what the search without cuts returns.
#![tactic(auto)]

ghost use Rattle.std.specs.Prelude.{◌≡◌};
ghost use Rattle.sorting_search.specs.CutSearch.{is_cut};
ghost use Rattle.sorting_search.specs.Table.{SearchPre, Searched, CutPre};
ghost use Rattle.sorting_search.specs.Found.{BestInterleavingPre, Found};

use interleaving::{Incumbent, State, keep_better, start_state, step, strip_left};
use sorting_bounds::desk_bound::desk_bound;
use sorting_bounds::scanner_bound::{fill_scanner_table, scanner_bound};
use sorting_labels::{clear_labels, count_key, dominated, store_label};

mod greedy;

// Whether the scanner's bound, a label or the desks' bound shows that no completion of s, whose count vector has the number k, is below the figure.
#[tactic(auto, unfolding(crate::specs::CutSearch::is_cut))]
fn cut(jobs: &[u64], s: State, k: usize, figure: u64, m: &[u64]) -> bool
    requires { CutPre jobs.now s k figure m.now }
    ensures { result ≡ is_cut jobs.now m.now s figure }
{
    figure <= scanner_bound(jobs, s, k, m) || dominated(s, k, m) || figure <= desk_bound(jobs, s)
}

// The best of b and of all completions of s, in desk order. A node's label is stored once the node is explored.
fn search(jobs: &[u64], s: State, mut b: Incumbent, m: &mut [u64]) -> Incumbent
    requires { SearchPre jobs.now s b.figure m.old }
    ensures { Searched jobs.now s b m.old m.new result }
{
    if s.left == 0 {
        return keep_better(s, b);
    }
    let k = count_key(jobs, s);
    if cut(jobs, s, k, b.figure, m) {
        return b;
    }
    for d in 0..3 {
        if strip_left(jobs, s, d) {
            b = search(jobs, step(jobs, s, d), b, m);
        }
    }
    store_label(s, k, m);
    b
}

// The first best interleaving. The search starts from a greedy figure plus one, which the greedy list itself is below. The caller clears the table.
pub fn best_interleaving(jobs: &[u64], m: &mut [u64]) -> Incumbent
    requires { BestInterleavingPre jobs.now m.old }
    ensures { Found jobs.now m.old m.new result }
{
    clear_labels(m);
    fill_scanner_table(jobs, m);
    let s = start_state(jobs);
    let g = greedy::greedy(jobs, s, m);
    let b = Incumbent {
        figure: g + 1,
        path: 0,
    };
    search(jobs, s, b, m)
}
