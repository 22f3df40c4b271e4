// The lines of a page (02, Req 02), stored into the lent buffer: 32 columns and a line feed.
#![tactic(auto)]

ghost use Rattle.std.specs.Prelude.{◌≡◌, ◌∷◌, ◌+◌, ◌≤◌, length};
ghost use Rattle.decimal.specs.Columns.{space, columns};
ghost use Rattle.field.specs.Put.{put};
ghost use Rattle.page_lines.specs.Line.{line_length, line_bytes, head_line, member_line, second_field, blanks, batch_line, job_line, block_line};
ghost use Rattle.page_lines.specs.LineLaws.{last_fields};

use decimal::{SPACE, put_columns};
use rules::{Batch, Job, Passes};

const LINE_FEED: u8 = b'\n';

// The columns of a line; its line feed stands behind them.
pub const LINE_COLUMNS: usize = 32;

// The figure of a head line; the fields of a member line, of which the last two are times.
const FIGURE_COLUMNS: usize = 31;

const FIRST_COLUMNS: usize = 3;

const SECOND_COLUMNS: usize = 4;

const TIME_COLUMNS: usize = 12;

// Where the second and the third field of a member line stand, behind its letter.
const SECOND: usize = 1 + FIRST_COLUMNS;

const THIRD: usize = SECOND + SECOND_COLUMNS;

const BATCH_LETTER: u8 = b'M';

const JOB_LETTER: u8 = b'S';

const BLOCK_LETTER: u8 = b'F';

// The line of a section's head.
pub fn put_head_line(page: &mut [u8], at: usize, letter: u8, figure: u64)
    requires { at + line_length ≤ length page.old }
    ensures { page.new ≡ put page.old at (line_bytes (head_line letter figure)) }
{
    page[at] = letter;
    put_columns(page, at + 1, FIGURE_COLUMNS, SPACE, figure);
    page[at + LINE_COLUMNS] = LINE_FEED;
}

// The letter and the first field of a member line.
fn put_first(page: &mut [u8], at: usize, letter: u8, first: u64)
    requires { at + 4 ≤ length page.old }
    ensures { page.new ≡ put page.old at (letter ∷ columns space 3 first) }
{
    page[at] = letter;
    put_columns(page, at + 1, FIRST_COLUMNS, SPACE, first);
}

// A second field of four blanks.
fn put_blanks(page: &mut [u8], at: usize)
    requires { at + 4 ≤ length page.old }
    ensures { page.new ≡ put page.old at blanks }
{
    page[at..at + SECOND_COLUMNS].fill(SPACE);
}

// The third and the fourth field, from the offset of the third, and the line feed.
fn put_last(page: &mut [u8], at: usize, third: u64, fourth: u64)
    requires { at + 25 ≤ length page.old }
    ensures { page.new ≡ put page.old at (last_fields third fourth) }
{
    put_columns(page, at, TIME_COLUMNS, SPACE, third);
    put_columns(page, at + TIME_COLUMNS, TIME_COLUMNS, SPACE, fourth);
    page[at + 2 * TIME_COLUMNS] = LINE_FEED;
}

// A member line whose second field is a number.
fn put_member_line(
    page: &mut [u8],
    at: usize,
    letter: u8,
    first: u64,
    second: u64,
    third: u64,
    fourth: u64,
)
    requires { at + line_length ≤ length page.old }
    ensures { page.new ≡ put page.old at (line_bytes (member_line letter first (second_field second) third fourth)) }
{
    put_first(page, at, letter, first);
    put_columns(page, at + SECOND, SECOND_COLUMNS, SPACE, second);
    put_last(page, at + THIRD, third, fourth);
}

// The line of a batch, with its number.
pub fn put_batch_line(page: &mut [u8], at: usize, number: u64, b: Batch)
    requires { at + line_length ≤ length page.old }
    ensures { page.new ≡ put page.old at (line_bytes (batch_line number b)) }
{
    put_member_line(page, at, BATCH_LETTER, number, b.last, b.start, b.finish);
}

// The line of a strip in the scanner's order.
pub fn put_job_line(page: &mut [u8], at: usize, j: Job)
    requires { at + line_length ≤ length page.old }
    ensures { page.new ≡ put page.old at (line_bytes (job_line j)) }
{
    put_member_line(page, at, JOB_LETTER, j.desk, j.number, j.scan, j.start);
}

// The line of a block, with its number.
pub fn put_block_line(page: &mut [u8], at: usize, number: u64, p: Passes)
    requires { at + line_length ≤ length page.old }
    ensures { page.new ≡ put page.old at (line_bytes (block_line number p)) }
{
    put_first(page, at, BLOCK_LETTER, number);
    put_blanks(page, at + SECOND);
    put_last(page, at + THIRD, p.first, p.second);
}
