// Reads a sheet from standard input, at most its first 65,536 bytes, and writes its plan, or the field of its refusal.
#![tactic(auto)]

ghost use Rattle.reply.specs.Reply.{Replied};
ghost use Rattle.planner.specs.Outcomes.{Large};
ghost use Rattle.plan_sheet.specs.Reply.{sheet_reply};

use files::LARGEST_INPUT;
use reply::put_reply;
use sheet::limits::{PLAN_LENGTH, TABLE_LENGTH};

// What the program writes for a sheet, at the start of a plan buffer. Returns its length.
fn reply(sheet: &[u8], out: &mut [u8], table: &mut [u64]) -> usize
    requires { Large out.old table.old }
    ensures { Replied (sheet_reply sheet.now) out.old out.new result }
{
    let answer = planner::plan(sheet, out, table);
    put_reply(out, answer)
}

fn main(rt: HostRuntime) {
    let mut err = rt.stderr();
    if !files::started_with(
        &mut err,
        files::word_count(&rt),
        1,
        b"usage: plan_sheet < SHEET > PLAN\n",
    ) {
        return;
    }
    let mut buffer = [0u8; LARGEST_INPUT];
    let input = files::read_whole(
        &mut err,
        &mut rt.stdin(),
        b"plan_sheet",
        b"standard input",
        &mut buffer,
    );
    if input.failed {
        return;
    }
    let mut out = [0u8; PLAN_LENGTH];
    let mut table = [0u64; TABLE_LENGTH];
    let written = reply(&buffer[..input.length], &mut out, &mut table);
    files::write_output(&mut err, &mut rt.stdout(), b"plan_sheet", &out[..written]);
}
