// Numbers in decimal columns: a number right-aligned in so many columns of decimal digits, with a filler left of its first digit.
// The filler is the caller's: a space, or the digit 0 for leading zeros.
#![tactic(auto)]

ghost use Rattle.std.specs.Prelude.{◌≡◌, ◌+◌, ◌≤◌, length};
ghost use Rattle.field.specs.Put.{put};
ghost use Rattle.decimal.specs.Columns.{column_of, columns};

// The digits 0 to 9 are the bytes 48 to 57.
pub const ZERO_DIGIT: u8 = 48;

pub const SPACE: u8 = 32;

// The column of what is left of a number without its lower digits: the last digit of it, or the filler where nothing is left.
#[tactic(auto, unfolding(crate::specs::Columns::column_of))]
fn column(filler: u8, rest: u64) -> u8
    ensures { result ≡ column_of filler rest }
{
    if 0 < rest {
        ZERO_DIGIT + (rest % 10) as u8
    } else {
        filler
    }
}

// Stores a number in so many columns at an offset: right-aligned, the filler left of its first digit.
pub fn put_columns(d: &mut [u8], at: usize, width: usize, filler: u8, value: u64)
    requires { at + width ≤ length d.old }
    ensures { d.new ≡ put d.old at (columns filler width value) }
{
    let mut rest = value;
    let mut next = ZERO_DIGIT + (value % 10) as u8;
    for left in (0..width).rev() {
        d[at + left] = next;
        rest /= 10;
        next = column(filler, rest);
    }
}
