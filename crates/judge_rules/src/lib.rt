// The rules as tests: whether a batch, a job or a block may follow what was judged before it, and what is checked at a head.
#![tactic(auto)]

ghost use Rattle.std.specs.Prelude.{◌≡◌, ◌+◌, ◌-◌, ◌≤◌, ◌<◌, get_or};
ghost use Rattle.sheet.specs.Limits.{most_strips_of_desk};
ghost use Rattle.judge_rules.specs.Follows.{batch_in_run, batch_in_time, batch_follows, job_in_turn, job_in_time, job_follows, block_in_time, block_follows, all_done};
ghost use Rattle.judge_rules.specs.Clauses.{BatchFollowsPre, JobFollowsPre, AfterJobPre, BlockFollowsPre};
ghost use Rattle.running.specs.Running.{after_job};

use rules::{Batch, Job, Passes};
use running::Desks;
use running::mosaic::finish_due;
use running::sorting::{desk_time, scan_time};
use sheet::desks::{desk_index, strips_of_desk};
use sheet::limits::CEILING;
use sheet::{FlightSection, MosaicSection, SortingSection};

#[tactic(auto, unfolding(crate::specs::Follows::batch_in_run))]
fn batch_in_run(strips: u64, before: u64, last: u64) -> bool
    ensures { result ≡ batch_in_run strips before last }
{
    before < last && last <= strips
}

#[tactic(auto, unfolding(crate::specs::Follows::batch_in_time))]
fn batch_in_time(before: u64, start: u64, finish: u64, due: u64) -> bool
    ensures { result ≡ batch_in_time before start finish due }
{
    before <= start && finish == due && finish <= CEILING
}

// Whether a batch may follow the batch before it.
pub fn batch_follows(m: MosaicSection, before: Batch, b: Batch) -> bool
    requires { BatchFollowsPre m b }
    ensures { result ≡ batch_follows m before b }
{
    if !batch_in_run(m.strips as u64, before.last, b.last) {
        return false;
    }
    let due = finish_due(m, before, b);
    batch_in_time(before.finish, b.start, b.finish, due)
}

#[tactic(auto, unfolding(crate::specs::Follows::job_in_turn))]
fn job_in_turn(desks: u64, strips: u64, done: u64, desk: u64, number: u64) -> bool
    requires { done ≤ most_strips_of_desk }
    ensures { result ≡ job_in_turn desks strips done desk number }
{
    1 <= desk && desk <= desks && number == done + 1 && number <= strips
}

#[tactic(auto, unfolding(crate::specs::Follows::job_in_time))]
fn job_in_time(scanner: u64, free: u64, scan: u64, scanned: u64, start: u64, finish: u64) -> bool
    ensures { result ≡ job_in_time scanner free scan scanned start finish }
{
    scanner <= scan && scanned <= start && free <= start && finish <= CEILING
}

// The value of a desk, which is numbered from 1.
pub fn of_desk(values: [u64; 3], desk: u64) -> u64
    ensures { result ≡ get_or values (desk - 1) 0 }
{
    values.get(desk_index(desk)).copied().unwrap_or(0)
}

// Whether a job may follow where the desks have come so far.
pub fn job_follows(s: SortingSection, d: Desks, j: Job) -> bool
    requires { JobFollowsPre s d j }
    ensures { result ≡ job_follows s d j }
{
    let strips = strips_of_desk(s.counts, j.desk) as u64;
    let done = of_desk(d.done, j.desk);
    if !job_in_turn(s.desks as u64, strips, done, j.desk, j.number) {
        return false;
    }
    let free = of_desk(d.free, j.desk);
    let scanned = j.scan + scan_time(s, j);
    let finish = j.start + desk_time(s, j);
    job_in_time(d.scanner, free, j.scan, scanned, j.start, finish)
}

// The desks and the scanner after one more job.
pub fn after_job(s: SortingSection, mut d: Desks, j: Job) -> Desks
    requires { AfterJobPre s d j }
    ensures { result ≡ after_job s d j }
{
    let i = desk_index(j.desk);
    d.done[i] = j.number;
    d.free[i] = j.start + desk_time(s, j);
    d.scanner = j.scan + scan_time(s, j);
    d
}

// Whether each desk has had all its strips.
pub fn all_done(counts: [usize; 3], done: [u64; 3], desks: usize) -> bool
    requires { desks ≤ 3 }
    ensures { result ≡ all_done counts done desks }
{
    for d in 0..desks {
        if done[d] != counts[d] as u64 {
            return false;
        }
    }
    true
}

#[tactic(auto, unfolding(crate::specs::Follows::block_in_time))]
fn block_in_time(earliest: u64, latest: u64, second: u64, end: u64) -> bool
    ensures { result ≡ block_in_time earliest latest second end }
{
    earliest <= second && second <= latest && end <= CEILING
}

// Whether the delay between the passes of block i lies in its window.
pub fn block_follows(f: FlightSection, i: usize, p: Passes) -> bool
    requires { BlockFollowsPre f p }
    ensures { result ≡ block_follows f i p }
{
    if f.blocks <= i {
        return false;
    }
    let flown = p.first + f.first[i];
    let earliest = flown + f.shortest[i];
    let latest = flown + f.longest[i];
    let end = p.second + f.second[i];
    block_in_time(earliest, latest, p.second, end)
}
