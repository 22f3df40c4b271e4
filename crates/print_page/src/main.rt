// Prints a plan for a sheet: two file names as arguments. Writes the page, or the field of the refusal where the judge does not allow the plan.
// Of each file at most the first 65,536 bytes are read. A file that cannot be read gets a message on standard error, and no page.
#![tactic(auto)]

ghost use Rattle.std.specs.Prelude.{◌≤◌, length};
ghost use Rattle.reply.specs.Reply.{Replied};
ghost use Rattle.sheet.specs.Limits.{page_length};
ghost use Rattle.print_page.specs.Reply.{page_reply};

use files::LARGEST_INPUT;
use reply::put_reply;
use sheet::limits::PAGE_LENGTH;

// What the program writes for a sheet and a plan, at the start of a page buffer. Returns its length.
fn reply(sheet: &[u8], plan: &[u8], out: &mut [u8]) -> usize
    requires { page_length ≤ length out.old }
    ensures { Replied (page_reply sheet.now plan.now) out.old out.new result }
{
    let answer = page::page(sheet, plan, out);
    put_reply(out, answer)
}

fn main(rt: HostRuntime) {
    let mut err = rt.stderr();
    if !files::started_with(
        &mut err,
        files::word_count(&rt),
        3,
        b"usage: print_page SHEET PLAN\n",
    ) {
        return;
    }
    let mut sheet = [0u8; LARGEST_INPUT];
    let sheet_read = files::read_argument(&rt, &mut err, b"print_page", 1, b"SHEET", &mut sheet);
    if sheet_read.failed {
        return;
    }
    let mut plan = [0u8; LARGEST_INPUT];
    let plan_read = files::read_argument(&rt, &mut err, b"print_page", 2, b"PLAN", &mut plan);
    if plan_read.failed {
        return;
    }
    let mut out = [0u8; PAGE_LENGTH];
    let written = reply(
        &sheet[..sheet_read.length],
        &plan[..plan_read.length],
        &mut out,
    );
    files::write_output(&mut err, &mut rt.stdout(), b"print_page", &out[..written]);
}
