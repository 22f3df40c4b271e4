// Reads sheets and plans from standard input, each behind its length in two bytes, a sheet and then its plan, and writes a line for each pair:
// the number and place that the judge gives, and the figure of each section.
#![tactic(auto)]

use files::LARGEST_INPUT;
use text::{put_bytes, put_decimal};

// Writes the line of a sheet and a plan. Returns whether all of it was written.
fn report(rt: &HostRuntime, sheet: &[u8], plan: &[u8]) -> bool {
    let judged = judge::judge(sheet, plan);
    let mut out = [0u8; 128];
    let mut at = put_decimal(&mut out, 0, b"", judged.number);
    at = put_decimal(&mut out, at, b" ", judged.place as u64);
    at = put_decimal(&mut out, at, b" ", judged.mosaic);
    at = put_decimal(&mut out, at, b" ", judged.sorting);
    at = put_decimal(&mut out, at, b" ", judged.flight);
    at = put_bytes(&mut out, at, b"\n");
    files::write_output(
        &mut rt.stderr(),
        &mut rt.stdout(),
        b"judge_cases",
        &out[..at],
    ) == at
}

fn report_all(rt: &HostRuntime, s: &[u8]) {
    let mut at: usize = 0;
    while at < s.len() {
        let sheet = field::number(s, at, 2) as usize;
        if s.len() - at < sheet + 4 {
            return;
        }
        let plan = field::number(s, at + 2 + sheet, 2) as usize;
        if s.len() - at < sheet + plan + 4 {
            return;
        }
        if !report(
            rt,
            &s[at + 2..at + 2 + sheet],
            &s[at + 4 + sheet..at + 4 + sheet + plan],
        ) {
            return;
        }
        at += sheet + plan + 4;
    }
}

fn main(rt: HostRuntime) {
    let mut err = rt.stderr();
    if !files::started_with(
        &mut err,
        files::word_count(&rt),
        1,
        b"usage: judge_cases < CASES\n",
    ) {
        return;
    }
    let mut buffer = [0u8; LARGEST_INPUT];
    let input = files::read_whole(
        &mut err,
        &mut rt.stdin(),
        b"judge_cases",
        b"standard input",
        &mut buffer,
    );
    if input.failed {
        return;
    }
    report_all(&rt, &buffer[..input.length]);
}
