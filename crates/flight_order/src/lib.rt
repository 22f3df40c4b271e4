// A flight in one pass order: its constraints written out, and the least start of every pass. In the literature: coupled tasks with time lags, in a given
// sequence.
#![tactic(auto)]

ghost use Rattle.std.specs.Prelude.{◌≡◌, ◌<◌, ◌*◌, ◌-◌};
ghost use Rattle.flight_order.specs.Constraints.{constraint_of, section_of, flight_in};
ghost use Rattle.flight_order.specs.Good.{Good};
ghost use Rattle.flight_order.specs.Clauses.{Rows, WriteConstraintsPre, LeastStartsPre, Least};

use difference::Constraint;
use order::{pass_at, time_of};

// The passes of 32 blocks, and their constraints.
pub const MOST_PASSES: usize = 64;

pub const MOST_CONSTRAINTS: usize = 127;

// The blocks of a flight, lent: how many, the turn between passes, and by block the times of its passes and its shortest and longest delay.
#[derive(Clone, Copy)]
pub struct Blocks<'a> {
    pub count: usize,
    pub turn: u64,
    pub first: &'a [u64],
    pub second: &'a [u64],
    pub shortest: &'a [u64],
    pub longest: &'a [u64],
}

impl<'a> Blocks<'a> {
    // Constraint k: the shortest delay of a block, the longest delay of a block, or the next pass after a pass and the turn.
    fn constraint_at(self, order: u64, k: usize) -> Constraint
        requires good { Good (flight_in (section_of self) order) }
        requires k_bound { k < 4 * self.count - 1 }
        ensures { result ≡ constraint_of (flight_in (section_of self.entry) order) k }
    {
        let n = self.count;
        if k < n {
            return Constraint {
                from: k,
                to: n + k,
                up: self.first[k] + self.shortest[k],
                down: 0,
            };
        }
        if k < 2 * n {
            let i = k - n;
            return Constraint {
                from: n + i,
                to: i,
                up: 0,
                down: self.first[i] + self.longest[i],
            };
        }
        let j = k - 2 * n;
        let p = pass_at(n, order, j);
        let q = pass_at(n, order, j + 1);
        let time = time_of(n, self.first, self.second, p);
        Constraint {
            from: p,
            to: q,
            up: time + self.turn,
            down: 0,
        }
    }

    // All constraints.
    fn write_constraints(self, order: u64, rows: &mut [Constraint])
        requires { WriteConstraintsPre (flight_in (section_of self) order) rows.old }
        ensures { Rows (flight_in (section_of self.entry) order) rows.new (4 * self.entry.count - 1) }
    {
        for (k, row) in rows.iter_mut().enumerate() {
            *row = self.constraint_at(order, k);
        }
    }

    // The least start of every pass, or false where no schedule keeps the order.
    pub fn least_starts(&self, order: u64, rows: &mut [Constraint], starts: &mut [u64]) -> bool
        requires { LeastStartsPre (flight_in (section_of self.now) order) rows.old starts.old }
        ensures { Least (flight_in (section_of self.now) order) rows.new starts.new result }
    {
        self.write_constraints(order, rows);
        difference::solve(rows, starts)
    }
}
