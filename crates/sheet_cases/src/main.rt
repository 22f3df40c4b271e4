// Reads sheets from standard input, each behind its length in two bytes, and writes a line for each: the number and place that its reading
// gives, and where it is sound the strips of its mosaic, those of each desk, its blocks, its turn and its order number.
#![tactic(auto)]

use files::LARGEST_INPUT;
use sheet::Sheet;
use text::put_decimal;

// Writes number and place. Returns whether all was written; so do the next two.
fn write_place(rt: &HostRuntime, number: u64, place: u64) -> bool {
    let mut out = [0u8; 64];
    let mut at = put_decimal(&mut out, 0, b"", number);
    at = put_decimal(&mut out, at, b" ", place);
    files::write_output(
        &mut rt.stderr(),
        &mut rt.stdout(),
        b"sheet_cases",
        &out[..at],
    ) == at
}

fn write_counts(rt: &HostRuntime, sheet: Sheet) -> bool {
    let mut out = [0u8; 160];
    let mut at = put_decimal(&mut out, 0, b" ", sheet.mosaic.strips as u64);
    at = put_decimal(&mut out, at, b" ", sheet.sorting.counts[0] as u64);
    at = put_decimal(&mut out, at, b" ", sheet.sorting.counts[1] as u64);
    at = put_decimal(&mut out, at, b" ", sheet.sorting.counts[2] as u64);
    at = put_decimal(&mut out, at, b" ", sheet.flight.blocks as u64);
    at = put_decimal(&mut out, at, b" ", sheet.flight.turn);
    at = put_decimal(&mut out, at, b" ", sheet.flight.order);
    files::write_output(
        &mut rt.stderr(),
        &mut rt.stdout(),
        b"sheet_cases",
        &out[..at],
    ) == at
}

fn report(rt: &HostRuntime, bytes: &[u8]) -> bool {
    let sheet = sheet_reader::read(bytes);
    if !write_place(rt, sheet.number, sheet.place as u64) {
        return false;
    }
    if sheet.number == 0 && !write_counts(rt, sheet) {
        return false;
    }
    files::write_output(&mut rt.stderr(), &mut rt.stdout(), b"sheet_cases", b"\n") == 1
}

fn report_all(rt: &HostRuntime, s: &[u8]) {
    let mut at: usize = 0;
    while at < s.len() {
        let length = field::number(s, at, 2) as usize;
        if s.len() - at < length + 2 {
            return;
        }
        if !report(rt, &s[at + 2..at + 2 + length]) {
            return;
        }
        at += length + 2;
    }
}

fn main(rt: HostRuntime) {
    let mut err = rt.stderr();
    if !files::started_with(
        &mut err,
        files::word_count(&rt),
        1,
        b"usage: sheet_cases < CASES\n",
    ) {
        return;
    }
    let mut buffer = [0u8; LARGEST_INPUT];
    let input = files::read_whole(
        &mut err,
        &mut rt.stdin(),
        b"sheet_cases",
        b"standard input",
        &mut buffer,
    );
    if input.failed {
        return;
    }
    report_all(&rt, &buffer[..input.length]);
}
