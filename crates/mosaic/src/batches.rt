// The batches taken, read out of the tables from the first strip on.
ghost use Rattle.std.specs.Prelude.{◌≤◌, length};
ghost use Rattle.batching.specs.Tables.{late_length, LateFrom};
ghost use Rattle.mosaic.specs.Tables.{AddBatchPre, Added, BatchesTaken};

use crate::MosaicPlan;
use batching::Strips;
use rules::Batch;

impl MosaicPlan {
    // Adds a batch of a weight.
    fn add(&mut self, weight: u64, batch: Batch)
        requires { AddBatchPre self.old weight batch }
        ensures { Added self.old weight batch self.new }
    {
        self.batches[self.count] = batch;
        self.count += 1;
        self.figure += weight * batch.finish;
    }
}

// The batches taken, each mounted as soon as the batch before has finished, and the sum of weighted completions.
pub fn choose_batches(strips: &Strips<'_>, late: &[u64]) -> MosaicPlan
    requires { (LateFrom strips.now late.now 0) × (late_length ≤ length late.now) }
    ensures { BatchesTaken strips.now result }
{
    let none = Batch {
        last: 0,
        start: 0,
        finish: 0,
    };
    let mut plan = MosaicPlan {
        figure: 0,
        count: 0,
        batches: [none; 40],
    };
    let mut i = 0;
    let mut free = 0;
    while i < strips.count {
        let q = strips.first_batch(late, free, i).last;
        let mounted = free + strips.mount;
        let begin = mounted.max(strips.ready[q - 1]);
        let finish = begin + (strips.bench_sums[q] - strips.bench_sums[i]);
        let batch = Batch {
            last: q as u64,
            start: free,
            finish,
        };
        plan.add(strips.weight_sums[q] - strips.weight_sums[i], batch);
        i = q;
        free = finish;
    }
    plan
}
