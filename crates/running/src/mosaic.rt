// Ready times, bench times and weights of a mosaic.
ghost use Rattle.std.specs.Prelude.{◌≡◌, ◌<◌, ◌+◌, max};
ghost use Rattle.base.specs.Sums.{sum_after};
ghost use Rattle.rules.specs.Mosaic.{station_sum, ready, finish_due};
ghost use Rattle.running.specs.FunctionLaws.{StationSumPre, ReadyTimePre, SumAfterPre, BatchWeightPre, WeightTold, BenchWorkStartPre, BenchWorkStartTold, FinishDuePre, SetupTold, SumTold};
ghost use Rattle.sheet.specs.Sound.{MosaicSound};

use rules::Batch;
use sheet::MosaicSection;

// When station k, from 0, is done with the first j strips.
fn station_sum(m: MosaicSection, k: usize, j: usize) -> u64
    requires { StationSumPre m k j }
    ensures { SumTold (station_sum m k j) result }
{
    let mut sum = 0;
    for i in 0..j {
        sum += m.station[4 * i + k];
    }
    sum
}

// When strip j, from 1, is ready.
pub fn ready_time(m: MosaicSection, j: usize) -> u64
    requires { ReadyTimePre m j }
    ensures { SumTold (ready m j) result }
{
    let mut greatest: u64 = 0;
    for k in 0..m.stations {
        greatest = greatest.max(station_sum(m, k, j));
    }
    greatest
}

// The sum of `count` values after the first i.
fn sum_after(values: &[u64], i: usize, count: usize) -> u64
    requires { SumAfterPre values.now i count }
    ensures { SumTold (sum_after values.now i count) result }
{
    values[i..i + count].iter().sum()
}

// The weight of a batch, by the batch before it.
pub fn batch_weight(m: MosaicSection, before: Batch, b: Batch) -> u64
    requires { BatchWeightPre m before b }
    ensures { WeightTold m before.last b.last result }
{
    let count = b.last - before.last;
    sum_after(&m.weight, before.last as usize, count as usize)
}

// How long a mount takes.
pub fn setup_time(m: MosaicSection) -> u64
    requires { MosaicSound m }
    ensures { SetupTold m result }
{
    m.mount
}

// The later of two times.
fn later(a: u64, b: u64) -> u64
    ensures { result ≡ max a b }
{
    if a < b { b } else { a }
}

// When the bench work of a batch starts: its mount is done and its last strip is ready.
fn bench_work_start(m: MosaicSection, b: Batch) -> u64
    requires { BenchWorkStartPre m b }
    ensures { BenchWorkStartTold m b result }
{
    let mounted = b.start + setup_time(m);
    later(mounted, ready_time(m, b.last as usize))
}

// When a batch is due to finish, by the batch before it.
pub fn finish_due(m: MosaicSection, before: Batch, b: Batch) -> u64
    requires { FinishDuePre m before b }
    ensures { result ≡ finish_due m before b }
{
    let count = b.last - before.last;
    let begin = bench_work_start(m, b);
    begin + sum_after(&m.bench, before.last as usize, count as usize)
}
