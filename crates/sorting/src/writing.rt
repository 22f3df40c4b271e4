// The plan of the incumbent's scanner list: each scan and each desk job as early as the list allows.
ghost use Rattle.std.specs.Prelude.{◌≡◌, ◌/◌, ◌%◌, ◌^◌};
ghost use Rattle.sorting.specs.Plan.{job_of};
ghost use Rattle.sorting.specs.Writing.{PlanOfPre, NextJobPre, Written};

use super::SortingPlan;
use interleaving::{Incumbent, State};
use rules::Job;

// The digit k, from the low end, of a number in base 4.
fn digit(path: u64, k: usize) -> u64
    ensures { result ≡ path / 4 ^ k % 4 }
{
    let mut rest = path;
    for _i in 0..k {
        rest /= 4;
    }
    rest % 4
}

// The job of the next strip of desk d in the state s.
fn next_job(jobs: &[u64], s: State, d: usize) -> Job
    requires { NextJobPre jobs.now s d }
    ensures { result ≡ job_of jobs.now s d }
{
    let i = s.taken[d];
    let scanned = s.time + interleaving::scan_time(jobs, d, i);
    Job {
        desk: d as u64 + 1,
        number: i as u64 + 1,
        scan: s.time,
        start: s.free[d].max(scanned),
    }
}

pub fn plan_of(jobs: &[u64], best: Incumbent) -> SortingPlan
    requires { PlanOfPre jobs.now best }
    ensures { Written jobs.now best result }
{
    let none = Job {
        desk: 0,
        number: 0,
        scan: 0,
        start: 0,
    };
    let mut plan = SortingPlan {
        figure: best.figure,
        count: 0,
        jobs: [none; 18],
    };
    let mut s = interleaving::start_state(jobs);
    while 0 < s.left {
        let desk = digit(best.path, s.left - 1);
        let d = (desk - 1) as usize;
        plan.jobs[plan.count] = next_job(jobs, s, d);
        plan.count += 1;
        s = interleaving::step(jobs, s, d);
    }
    plan
}
