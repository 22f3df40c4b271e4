// The sorting planner: the first best interleaving of a section, as a plan. In the literature: the differentiation flowshop of two stages, one common
// machine and then dedicated machines, for the least sum of weighted completion times.
#![tactic(auto)]

ghost use Rattle.sorting.specs.Clauses.{PlanSortingPre, Planned};

use rules::Job;
use sheet::SortingSection;

mod instance;
mod writing;

// A plan of the section: its figure, and its jobs in scanner order, the first `count` entries, with zeros after them.
#[derive(Clone, Copy)]
pub struct SortingPlan {
    pub figure: u64,
    pub count: usize,
    pub jobs: [Job; 18],
}

// The caller clears the table.
pub fn plan_sorting(s: SortingSection, table: &mut [u64]) -> SortingPlan
    requires { PlanSortingPre s table.old }
    ensures { Planned s table.old table.new result }
{
    let jobs = instance::instance_of(s);
    let best = sorting_search::best_interleaving(&jobs, table);
    writing::plan_of(&jobs, best)
}
