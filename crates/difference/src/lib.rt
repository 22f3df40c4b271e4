// Difference constraints over slices: rounds that raise values from 0 to the least solution (in the literature: the rounds of Bellman and Ford for longest
// paths).
#![tactic(auto)]

ghost use Rattle.std.specs.Prelude.{◌≡◌, length};
ghost use Rattle.difference.specs.Rows.{system_of, SolvePre, RoundPre, RoundDone, SolveDone};

// A constraint: value[from] + up <= value[to] + down.
#[derive(Clone, Copy)]
pub struct Constraint {
    pub from: usize,
    pub to: usize,
    pub up: u64,
    pub down: u64,
}

// A constraint of zeros, to make room with.
pub const NO_CONSTRAINT: Constraint = Constraint {
    from: 0,
    to: 0,
    up: 0,
    down: 0,
};

// One round over all constraints; true where the values were a solution, and stay as they were.
fn round(constraints: &[Constraint], values: &mut [u64]) -> bool
    requires { RoundPre values.old constraints.now }
    ensures { RoundDone (system_of (length values.old) constraints.now) values.old values.new result }
{
    let mut held = true;
    for c in constraints {
        let wanted = values[c.from] + c.up;
        if values[c.to] + c.down < wanted {
            values[c.to] = wanted - c.down;
            held = false;
        }
    }
    held
}

// The least solution, or false where there is none.
pub fn solve(constraints: &[Constraint], values: &mut [u64]) -> bool
    requires { SolvePre (length values.old) constraints.now }
    ensures { SolveDone (system_of (length values.old) constraints.now) values.new result }
{
    values.fill(0);
    for _r in 0..values.len() {
        if round(constraints, values) {
            return true;
        }
    }
    false
}
