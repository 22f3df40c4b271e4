// The sections of a page: a head line, then a line for each member. A section is printed from where it stands in the plan; a section of no member is absent.
#![tactic(auto)]

ghost use Rattle.std.specs.Prelude.{◌≡◌, ◌+◌, ℕ, List};
ghost use Rattle.field.specs.Put.{put, Written};
ghost use Rattle.plan_format.specs.Format.{size_of, mosaic_head_form, batch_form, sorting_head_form, job_form, flight_head_form, passes_form};
ghost use Rattle.page_lines.specs.Line.{line_bytes, lines_bytes};
ghost use Rattle.page_lines.specs.Columns.{HasColumns};
ghost use Rattle.page_sections.specs.Printed.{PutLinePre, PrintSectionPre, batch_line_from, job_line_from, block_line_from, section_printed};
ghost use Rattle.page_sections.specs.Printed.{mosaic_printed, sorting_printed, flight_printed};
ghost use Rattle.page_sections.specs.SectionLaws.{batch_wide, job_wide, block_wide};

use judge_layout::Part;
use page_lines::{LINE_COLUMNS, put_batch_line, put_block_line, put_head_line, put_job_line};
use plan_format::{
    BATCH_SIZE, FLIGHT_HEAD_SIZE, JOB_SIZE, MOSAIC_HEAD_SIZE, PASSES_SIZE, SORTING_HEAD_SIZE,
};
use plan_read::{batch_from, job_from, passes_from};
use rules::{Batch, Job, Passes};

// The length of a line, with its line feed.
const LINE_LENGTH: usize = LINE_COLUMNS + 1;

const MOSAIC_HEAD_LETTER: u8 = b'm';

const SORTING_HEAD_LETTER: u8 = b's';

const FLIGHT_HEAD_LETTER: u8 = b'f';

// What the members of a section are: their size in a plan, and the line that each gets on the page.
trait Member {
    ghost size: { ℕ };

    // The line of member i, from 0, of a section whose head stands at an offset of a plan.
    ghost line: { List ℕ → ℕ → ℕ → List ℕ };

    fn put_line(page: &mut [u8], at: usize, plan: &[u8], head: usize, i: usize)
        requires { PutLinePre page.old at plan.now head size i }
        ensures { page.new ≡ put page.old at (line_bytes (line plan.now head i)) };

    ghost wide: { (plan : List ℕ) (head i : ℕ) → HasColumns (line plan head i) };
}

// Batches are numbered from 1.
impl Member for Batch {
    ghost size = { size_of batch_form };

    ghost line = { λ plan head i. batch_line_from plan (head + size_of mosaic_head_form) i };

    ghost wide = { batch_wide };

    fn put_line(page: &mut [u8], at: usize, plan: &[u8], head: usize, i: usize) {
        let b = batch_from(plan, head + MOSAIC_HEAD_SIZE + BATCH_SIZE * i);
        put_batch_line(page, at, i as u64 + 1, b);
    }
}

// Strips stand in the scanner's order.
impl Member for Job {
    ghost size = { size_of job_form };

    ghost line = { λ plan head i. job_line_from plan (head + size_of sorting_head_form) i };

    ghost wide = { job_wide };

    fn put_line(page: &mut [u8], at: usize, plan: &[u8], head: usize, i: usize) {
        let j = job_from(plan, head + SORTING_HEAD_SIZE + JOB_SIZE * i);
        put_job_line(page, at, j);
    }
}

// Blocks are numbered from 1.
impl Member for Passes {
    ghost size = { size_of passes_form };

    ghost line = { λ plan head i. block_line_from plan (head + size_of flight_head_form) i };

    ghost wide = { block_wide };

    fn put_line(page: &mut [u8], at: usize, plan: &[u8], head: usize, i: usize) {
        let p = passes_from(plan, head + FLIGHT_HEAD_SIZE + PASSES_SIZE * i);
        put_block_line(page, at, i as u64 + 1, p);
    }
}

// A section of a page: its head line, then the lines of its members. Returns the offset behind it.
fn print_section<M: Member>(
    page: &mut [u8],
    at: usize,
    plan: &[u8],
    part: Part,
    letter: u8,
    figure: u64,
) -> usize
    requires { PrintSectionPre page.old at plan.now M.size part }
    ensures { Written page.old page.new at (lines_bytes (section_printed letter figure part.members (M.line plan.now part.head))) result }
{
    if part.members < 1 {
        return at;
    }
    put_head_line(page, at, letter, figure);
    let first = at + LINE_LENGTH;
    for i in 0..part.members {
        M::put_line(page, first + LINE_LENGTH * i, plan, part.head, i);
    }
    first + LINE_LENGTH * part.members
}

// The mosaic of a page. Returns the offset behind it.
#[tactic(auto, unfolding(crate::specs::Printed::mosaic_printed))]
pub fn print_mosaic(page: &mut [u8], at: usize, plan: &[u8], part: Part, figure: u64) -> usize
    requires { PrintSectionPre page.old at plan.now (size_of batch_form) part }
    ensures { Written page.old page.new at (lines_bytes (mosaic_printed plan.now part figure)) result }
{
    print_section::<Batch>(page, at, plan, part, MOSAIC_HEAD_LETTER, figure)
}

// The sorting of a page. Returns the offset behind it.
#[tactic(auto, unfolding(crate::specs::Printed::sorting_printed))]
pub fn print_sorting(page: &mut [u8], at: usize, plan: &[u8], part: Part, figure: u64) -> usize
    requires { PrintSectionPre page.old at plan.now (size_of job_form) part }
    ensures { Written page.old page.new at (lines_bytes (sorting_printed plan.now part figure)) result }
{
    print_section::<Job>(page, at, plan, part, SORTING_HEAD_LETTER, figure)
}

// The flight of a page. Returns the offset behind it.
#[tactic(auto, unfolding(crate::specs::Printed::flight_printed))]
pub fn print_flight(page: &mut [u8], at: usize, plan: &[u8], part: Part, figure: u64) -> usize
    requires { PrintSectionPre page.old at plan.now (size_of passes_form) part }
    ensures { Written page.old page.new at (lines_bytes (flight_printed plan.now part figure)) result }
{
    print_section::<Passes>(page, at, plan, part, FLIGHT_HEAD_LETTER, figure)
}
