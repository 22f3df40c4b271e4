// Bytes of a lent slice as numbers and fields, and numbers written into one. The readers are total: a byte past the end counts as 0.
#![tactic(auto)]

ghost use Rattle.std.specs.Prelude.{◌≡◌, ◌+◌, ◌≤◌, length};
ghost use Rattle.field.specs.Bytes.{NumberRead, bytes_of};
ghost use Rattle.field.specs.Field.{field_at, end_of};
ghost use Rattle.field.specs.Put.{put};

pub mod reader;

// What stands at an offset of a row of fields.
#[derive(Clone, Copy)]
pub enum Field {
    End,
    // Under three bytes are left, or the content runs past the end.
    Cut,
    // Tag and content length.
    Whole(u8, usize),
}

// The byte at an offset.
#[tactic(auto, using(crate::specs::Numbers::byte_read, crate::specs::Numbers::past_read))]
pub fn byte(s: &[u8], at: usize) -> u64
    ensures { NumberRead s.now at 1 result }
{
    if at < s.len() { s[at] as u64 } else { 0 }
}

// The number in `width` bytes from an offset on, all of them within the slice: each is read without a test.
fn number_within(s: &[u8], at: usize, width: usize) -> u64
    requires { (width ≤ 8) × (at + width ≤ length s.now) }
    ensures { NumberRead s.now at width result }
{
    let mut sum: u64 = 0;
    for left in (0..width).rev() {
        sum = s[at + left] as u64 + 256 * sum;
    }
    sum
}

// The number in `width` bytes from an offset on.
pub fn number(s: &[u8], at: usize, width: usize) -> u64
    requires { width ≤ 8 }
    ensures { NumberRead s.now at width result }
{
    if s.len() <= at {
        return 0;
    }
    if width <= s.len() - at {
        return number_within(s, at, width);
    }
    let mut value: u64 = 0;
    for left in (0..width).rev() {
        value = byte(s, at + left) + 256 * value;
    }
    value
}

// The field at an offset.
pub fn field_at(s: &[u8], at: usize) -> Field
    ensures { result ≡ field_at s.now at }
{
    if s.len() <= at {
        return Field::End;
    }
    if s.len() - at < 3 {
        return Field::Cut;
    }
    let length = number(s, at + 1, 2) as usize;
    if length <= s.len() - at - 3 {
        Field::Whole(s[at], length)
    } else {
        Field::Cut
    }
}

// The offset behind the field at an offset: where the next field stands. Where no whole field stands there it is the offset itself.
pub fn field_end(s: &[u8], at: usize) -> usize
    ensures { result ≡ end_of at (field_at s.now at) }
{
    match field_at(s, at) {
        Field::End | Field::Cut => at,
        Field::Whole(_, length) => at + 3 + length,
    }
}

// Stores `width` bytes of a number at an offset.
pub fn put_number(d: &mut [u8], at: usize, width: usize, value: u64)
    requires { at + width ≤ length d.old }
    ensures { d.new ≡ put d.old at (bytes_of width value) }
{
    let mut rest = value;
    for byte in d[at..at + width].iter_mut() {
        *byte = (rest % 256) as u8;
        rest /= 256;
    }
}
