// Text in a lent buffer, one part behind the other.
#![tactic(auto)]

ghost use Rattle.std.specs.Prelude.{◌+◌, ◌≤◌, length};
ghost use Rattle.text.specs.Text.{BytesPut, DecimalPut, DigitsOf};

// Stores bytes at an offset. Returns the offset behind them.
pub fn put_bytes(out: &mut [u8], at: usize, bytes: &[u8]) -> usize
    requires { at + length bytes.now ≤ length out.old }
    ensures { BytesPut out.old at bytes.now out.new result }
{
    for done in 0..bytes.len() {
        out[at + done] = bytes[done];
    }
    at + bytes.len()
}

// Stores a name and behind it a number in decimal digits. Returns the offset behind them.
pub fn put_decimal(out: &mut [u8], at: usize, name: &[u8], value: u64) -> usize
    requires { at + length name.now + 20 ≤ length out.old }
    ensures { DecimalPut out.old at name.now value out.new result }
{
    let mut digits = [0u8; 20];
    let width = digits_of(value, &mut digits);
    let behind = put_bytes(out, at, name);
    put_bytes(out, behind, &digits[..width])
}

// The decimal digits of a number at the start of an array. Returns how many there are.
fn digits_of(value: u64, out: &mut [u8; 20]) -> usize
    ensures { DigitsOf value out.new result }
{
    io::decimal(value, out)
}
