// Judges a plan for a sheet: two file names as arguments. Writes the number, the place and the three figures, one to a line.
// Of each file at most the first 65,536 bytes are read. A file that cannot be read gets a message on standard error, and no figures.
#![tactic(auto)]

use files::LARGEST_INPUT;
use text::{put_bytes, put_decimal};

fn report(rt: &HostRuntime, sheet: &[u8], plan: &[u8]) {
    let judged = judge::judge(sheet, plan);
    let mut out = [0u8; 160];
    let mut at = put_decimal(&mut out, 0, b"number ", judged.number);
    at = put_decimal(&mut out, at, b"\nplace ", judged.place as u64);
    at = put_decimal(&mut out, at, b"\nmosaic ", judged.mosaic);
    at = put_decimal(&mut out, at, b"\nsorting ", judged.sorting);
    at = put_decimal(&mut out, at, b"\nflight ", judged.flight);
    at = put_bytes(&mut out, at, b"\n");
    files::write_output(
        &mut rt.stderr(),
        &mut rt.stdout(),
        b"judge_plan",
        &out[..at],
    );
}

fn main(rt: HostRuntime) {
    let mut err = rt.stderr();
    if !files::started_with(
        &mut err,
        files::word_count(&rt),
        3,
        b"usage: judge_plan SHEET PLAN\n",
    ) {
        return;
    }
    let mut sheet = [0u8; LARGEST_INPUT];
    let sheet_read = files::read_argument(&rt, &mut err, b"judge_plan", 1, b"SHEET", &mut sheet);
    if sheet_read.failed {
        return;
    }
    let mut plan = [0u8; LARGEST_INPUT];
    let plan_read = files::read_argument(&rt, &mut err, b"judge_plan", 2, b"PLAN", &mut plan);
    if plan_read.failed {
        return;
    }
    report(&rt, &sheet[..sheet_read.length], &plan[..plan_read.length]);
}
