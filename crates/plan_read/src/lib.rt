// The heads and members of a plan, read from its bytes. The field stands at offset `at`; a byte past the end of the plan counts as 0, so every offset may be
// asked for.
#![tactic(auto)]

ghost use Rattle.std.specs.Prelude.{◌≡◌, ◌+◌, ◌≤◌};
ghost use Rattle.field.specs.Bytes.{NumberRead};
ghost use Rattle.plan_format.specs.Format.{mosaic_head_form, sorting_head_form, flight_head_form};
ghost use Rattle.plan_read.specs.PlanRead.{figure_from, order_from, BatchRead, JobRead, PassesRead};

use field::number;
use plan_format::{
    BATCH_FINISH, BATCH_START, CONTENT, FIGURE_WIDTH, FLIGHT_FIGURE_WIDTH, FLIGHT_ORDER,
    JOB_NUMBER, JOB_SCAN, JOB_START, NUMBER_WIDTH, ORDER_WIDTH, PASSES_SECOND, TIME_WIDTH,
};
use rules::{Batch, Job, Passes};

// The number of a field that stands so many bytes behind its tag.
fn number_behind(plan: &[u8], at: usize, skip: usize, width: usize) -> u64
    requires { (skip ≤ 65535) × (width ≤ 8) }
    ensures { NumberRead plan.now (at + skip) width result }
{
    if plan.len() <= at {
        return 0;
    }
    number(plan, at + skip, width)
}

#[tactic(auto, unfolding(crate::specs::PlanRead::figure_from))]
pub fn mosaic_figure_from(plan: &[u8], at: usize) -> u64
    ensures { result ≡ figure_from mosaic_head_form plan.now at }
{
    number_behind(plan, at, CONTENT, FIGURE_WIDTH)
}

#[tactic(auto, unfolding(crate::specs::PlanRead::figure_from))]
pub fn sorting_figure_from(plan: &[u8], at: usize) -> u64
    ensures { result ≡ figure_from sorting_head_form plan.now at }
{
    number_behind(plan, at, CONTENT, FIGURE_WIDTH)
}

#[tactic(auto, unfolding(crate::specs::PlanRead::figure_from))]
pub fn flight_figure_from(plan: &[u8], at: usize) -> u64
    ensures { result ≡ figure_from flight_head_form plan.now at }
{
    number_behind(plan, at, CONTENT, FLIGHT_FIGURE_WIDTH)
}

#[tactic(auto, unfolding(crate::specs::PlanRead::order_from))]
pub fn order_from(plan: &[u8], at: usize) -> u64
    ensures { result ≡ order_from plan.now at }
{
    number_behind(plan, at, FLIGHT_ORDER, ORDER_WIDTH)
}

#[tactic(auto, using(crate::specs::Laws::batch_read))]
pub fn batch_from(plan: &[u8], at: usize) -> Batch
    ensures { BatchRead plan.now at result }
{
    Batch {
        last: number_behind(plan, at, CONTENT, NUMBER_WIDTH),
        start: number_behind(plan, at, BATCH_START, TIME_WIDTH),
        finish: number_behind(plan, at, BATCH_FINISH, TIME_WIDTH),
    }
}

#[tactic(auto, using(crate::specs::Laws::job_read))]
pub fn job_from(plan: &[u8], at: usize) -> Job
    ensures { JobRead plan.now at result }
{
    Job {
        desk: number_behind(plan, at, CONTENT, NUMBER_WIDTH),
        number: number_behind(plan, at, JOB_NUMBER, NUMBER_WIDTH),
        scan: number_behind(plan, at, JOB_SCAN, TIME_WIDTH),
        start: number_behind(plan, at, JOB_START, TIME_WIDTH),
    }
}

#[tactic(auto, using(crate::specs::Laws::passes_read))]
pub fn passes_from(plan: &[u8], at: usize) -> Passes
    ensures { PassesRead plan.now at result }
{
    Passes {
        first: number_behind(plan, at, CONTENT, TIME_WIDTH),
        second: number_behind(plan, at, PASSES_SECOND, TIME_WIDTH),
    }
}
