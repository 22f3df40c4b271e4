// The planner of the mosaic: the least sum of weighted completions over all batchings, and a batching that has it. In the literature: batching on one machine
// with an anticipatory setup for each batch, where a strip's ready time is its release date.
#![tactic(auto)]

ghost use Rattle.sheet.specs.Sound.{MosaicSound};
ghost use Rattle.mosaic.specs.Plan.{Planned};

mod batches;
mod ready;

use batching::{LATE_LENGTH, Strips};
use rules::Batch;
use running::mosaic::setup_time;
use sheet::MosaicSection;

// A plan of the mosaic: its figure, and its batches, the first `count` entries, with zeros after them.
#[derive(Clone, Copy)]
pub struct MosaicPlan {
    pub figure: u64,
    pub count: usize,
    pub batches: [Batch; 40],
}

// A plan of the least figure.
pub fn plan_mosaic(m: MosaicSection) -> MosaicPlan
    requires { MosaicSound m }
    ensures { Planned m result }
{
    let ready = ready::ready_times(m);
    let bench_sums = ready::prefix_sums(&m.bench);
    let weight_sums = ready::prefix_sums(&m.weight);
    let strips = Strips {
        ready: &ready,
        bench_sums: &bench_sums,
        weight_sums: &weight_sums,
        mount: setup_time(m),
        count: m.strips,
    };
    let mut late = [0u64; LATE_LENGTH];
    strips.fill_late(&mut late);
    batches::choose_batches(&strips, &late)
}
