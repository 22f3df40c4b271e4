// Batches of neighbouring strips at one bench: the tables of least figures (in the literature: batching on one machine with release dates and an anticipatory
// setup for each batch, for the least sum of weighted completion times). A block is a run of batches with no pause: the bench work of its first batch waits for
// its last strip, and that of the others waits for none. `row` holds the least figures after each strip for one block; `late` those that begin with a batch
// that waits.
#![tactic(auto)]

ghost use Rattle.std.specs.Prelude.{◌≡◌, ◌-◌, ◌≤◌, length, get_or};
ghost use Rattle.batching.specs.Least.{bench_start};
ghost use Rattle.batching.specs.Index.{closed_at};
ghost use Rattle.batching.specs.Tables.{instance_in, closed_figure, ClosedFigurePre, CandidatePre, ChooseBatchPre, First, FillRowPre, RowFilled, FillBlockPre};
ghost use Rattle.batching.specs.Tables.{FillLateAfterPre, LateAfter, LateFilled, FirstBatchPre};

mod input;

pub use input::Strips;

// The entries of a row, for the strips from 0 to 40, and of `late`, which has a row for each strip from 0 to 39.
const WIDTH: usize = 41;

pub const LATE_LENGTH: usize = 1_640;

// A batch that is taken: its last strip, and the least figure of the strips from its first one on.
#[derive(Clone, Copy)]
pub struct Choice {
    pub last: usize,
    pub figure: u64,
}

impl Strips<'_> {
    // The figure of the batch of the strips after i up to q whose bench work starts at `begin`, with what the row has after it.
    fn closed_figure(&self, row: &[u64], begin: u64, i: usize, q: usize) -> u64
        requires { ClosedFigurePre self.now row.now begin i q }
        ensures { result ≡ closed_figure self.now row.now begin i q }
    {
        let finish = begin + (self.bench_sums[q] - self.bench_sums[i]);
        let weight = self.weight_sums[q] - self.weight_sums[i];
        weight * finish + row[q]
    }

    // The least figure of the strips after i where the bench is free at `free` and the first batch ends with strip q: in time, where that strip is ready when
    // the batch is mounted, or late.
    fn candidate(&self, late: &[u64], row: &[u64], free: u64, i: usize, q: usize) -> u64
        requires { CandidatePre self.now late.now row.now free i q }
        ensures { result ≡ closed_at (instance_in self.now) (bench_start self.now.mount free (get_or self.now.ready.now (q - 1) 0)) i q }
    {
        let mounted = free + self.mount;
        let ready = self.ready[q - 1];
        if ready <= mounted {
            self.closed_figure(row, mounted, i, q)
        } else {
            late[WIDTH * i + q]
        }
    }

    // The first batch taken after strip i where the bench is free at `free`, with the least figure of the strips after i.
    fn choose_batch(&self, late: &[u64], row: &[u64], free: u64, i: usize) -> Choice
        requires { ChooseBatchPre self.now late.now row.now free i }
        ensures { First self.now free i result.last result.figure }
    {
        let mut best = Choice {
            last: self.count,
            figure: self.candidate(late, row, free, i, self.count),
        };
        for q in (i + 1..self.count).rev() {
            let figure = self.candidate(late, row, free, i, q);
            if figure < best.figure {
                best = Choice { last: q, figure };
            }
        }
        best
    }

    // Turns the row of the block with one batch more into that of this one, in place: entries lo and up.
    fn fill_row(&self, late: &[u64], row: &mut [u64], begin: u64, i: usize, lo: usize)
        requires { FillRowPre self.now late.now row.old begin i lo }
        ensures { RowFilled self.now row.old row.new begin i lo }
    {
        for p in lo..self.count {
            let free = begin + (self.bench_sums[p] - self.bench_sums[i]);
            row[p] = self.choose_batch(late, row, free, p).figure;
        }
    }

    // The row of the block whose bench work starts at `begin` with the strip after i: entries lo and up.
    fn fill_block(&self, late: &[u64], row: &mut [u64], begin: u64, i: usize, lo: usize)
        requires { FillBlockPre self.now late.now row.old begin i lo }
        ensures { RowFilled self.now row.old row.new begin i lo }
    {
        row[self.count] = 0;
        for p in (lo..self.count).rev() {
            let mounts = (p - lo) as u64;
            self.fill_row(late, row, begin + mounts * self.mount, i, p);
        }
    }

    // The entries of `late` for the batches of the strips after i.
    fn fill_late_after(&self, late: &mut [u64], row: &mut [u64], i: usize)
        requires { FillLateAfterPre self.now late.old row.old i }
        ensures { LateAfter self.now late.old late.new i }
    {
        for q in i + 1..=self.count {
            let begin = self.ready[q - 1];
            self.fill_block(late, row, begin, i, q);
            late[WIDTH * i + q] = self.closed_figure(row, begin, i, q);
        }
    }

    // The entries of `late` for all batches.
    pub fn fill_late(&self, late: &mut [u64])
        requires { LATE_LENGTH ≤ length late.old }
        ensures { LateFilled self.now late.old late.new }
    {
        let mut row = [0u64; WIDTH];
        for i in (0..self.count).rev() {
            self.fill_late_after(late, &mut row, i);
        }
    }

    // The first batch taken after strip i where the bench is free at `free`, out of `late` filled for the strips after i.
    pub fn first_batch(&self, late: &[u64], free: u64, i: usize) -> Choice
        requires { FirstBatchPre self.now late.now free i }
        ensures { First self.now free i result.last result.figure }
    {
        let mut row = [0u64; WIDTH];
        self.fill_block(late, &mut row, free + self.mount, i, i + 1);
        self.choose_batch(late, &row, free, i)
    }
}
