// The lower bound with every desk always free: a table over count vectors, behind the labels.
ghost use Rattle.std.specs.Prelude.{◌≡◌, ◌+◌, ◌≤◌, ◌<◌, length};
ghost use Rattle.interleaving.specs.Instance.{Instance};
ghost use Rattle.sorting_bounds.specs.ScannerBound.{through_of, entry_of, filled_from, scanner_bound};
ghost use Rattle.sorting_bounds.specs.ScannerTable.{ScanSum, ThroughPre, ScannerEntryPre, ScannerBoundPre};
ghost use Rattle.sorting_bounds.specs.DeskBound.{bound_cap};
ghost use Rattle.sheet.specs.Limits.{table_length};

use super::{LABELS_LENGTH, VECTORS};
use interleaving::caps::COST_CAP;
use interleaving::{State, desk_time, scan_time, weight};

// An entry is at most what a whole list costs at most.
const ENTRY_CAP: u64 = COST_CAP;

// The scan times of the first n strips of desk d.
fn scan_sum(jobs: &[u64], d: usize, n: usize) -> u64
    requires { Instance jobs.now × (d < 3) × (n ≤ 6) }
    ensures { ScanSum jobs.now d n result }
{
    let mut sum: u64 = 0;
    for i in 0..n {
        sum += scan_time(jobs, d, i);
    }
    sum
}

// The rest that starts with strip i of desk d, scanned from the time on and done at once, with the rest behind it; the cap where there is no such strip.
fn through(jobs: &[u64], time: u64, d: usize, i: usize, next: u64) -> u64
    requires { ThroughPre jobs.now time d i next }
    ensures { result ≡ through_of jobs.now time d i next }
{
    if jobs[d] <= i as u64 {
        return ENTRY_CAP;
    }
    let done = time + scan_time(jobs, d, i) + desk_time(jobs, d, i);
    (weight(jobs, d, i) * done + next).min(ENTRY_CAP)
}

// The least rest at the count vector k.
fn scanner_entry(jobs: &[u64], k: usize, m: &[u64]) -> u64
    requires { ScannerEntryPre jobs.now m.now k }
    ensures { result ≡ entry_of jobs.now m.now k }
{
    let a = k / 49;
    let b = k / 7 % 7;
    let c = k % 7;
    if jobs[0] + jobs[1] + jobs[2] <= (a + b + c) as u64 {
        return 0;
    }
    let time = scan_sum(jobs, 0, a) + scan_sum(jobs, 1, b) + scan_sum(jobs, 2, c);
    let first = through(jobs, time, 0, a, m[LABELS_LENGTH + (k + 49)]);
    let second = through(jobs, time, 1, b, m[LABELS_LENGTH + (k + 7)]);
    let third = through(jobs, time, 2, c, m[LABELS_LENGTH + (k + 1)]);
    first.min(second).min(third)
}

// All entries, from the last count vector down.
pub fn fill_scanner_table(jobs: &[u64], m: &mut [u64])
    requires { Instance jobs.now × (length m.old ≡ table_length) }
    ensures { m.new ≡ filled_from jobs.now m.old 343 }
{
    for k in (0..VECTORS).rev() {
        m[LABELS_LENGTH + k] = scanner_entry(jobs, k, m);
    }
}

pub fn scanner_bound(jobs: &[u64], s: State, k: usize, m: &[u64]) -> u64
    requires { ScannerBoundPre jobs.now s k m.now }
    ensures { (result ≡ scanner_bound m.now s) × (result ≤ bound_cap) }
{
    s.cost + m[LABELS_LENGTH + k]
}
