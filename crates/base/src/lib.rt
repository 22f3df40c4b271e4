// What several layers need: the answer of a call that writes into a lent buffer, and a slice set to zeros. The definitions that they share stand in specs/.
#![tactic(auto)]

ghost use Rattle.std.specs.Prelude.{◌≡◌, length, replicate};

// The answer of a call: 0, 0 and the length written, or the number and place of its refusal and 0.
#[repr(C)]
#[derive(Clone, Copy)]
pub struct Answer {
    pub number: u64,
    pub place: usize,
    pub length: usize,
}

// All values set to 0.
pub fn clear(values: &mut [u64])
    ensures { values.new ≡ replicate (length values.old) 0 }
{
    for z in 0..values.len() {
        values[z] = 0;
    }
}
