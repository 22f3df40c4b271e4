// What the planner reads: when each strip is ready, and values added up.
ghost use Rattle.std.specs.Prelude.{◌≡◌};
ghost use Rattle.sheet.specs.Sound.{MosaicSound};
ghost use Rattle.mosaic.specs.Tables.{ReadyTimes, WaitPre, Waits, PrefixSumsPre, PrefixSums};

use sheet::MosaicSection;
use sheet::limits::MOST_STRIPS;

// Puts the ready times off to when the strips are through station k, where that is later.
fn wait_for_station(m: &MosaicSection, k: usize, times: &mut [u64; MOST_STRIPS])
    requires { WaitPre m.now k times.old }
    ensures { Waits m.now k times.old times.new }
{
    let mut sum = 0;
    for j in 0..MOST_STRIPS {
        sum += m.station[4 * j + k];
        times[j] = times[j].max(sum);
    }
}

// Entry j is when strip j + 1 is ready.
pub fn ready_times(m: MosaicSection) -> [u64; MOST_STRIPS]
    requires { MosaicSound m }
    ensures { ReadyTimes m result }
{
    let mut times = [0u64; MOST_STRIPS];
    for k in 0..m.stations {
        wait_for_station(&m, k, &mut times);
    }
    times
}

// Entry q is the sum of the first q of 40 values.
pub fn prefix_sums(values: &[u64]) -> [u64; 41]
    requires { PrefixSumsPre values.now }
    ensures { PrefixSums values.now result }
{
    let mut sums = [0u64; 41];
    for (q, value) in values.iter().enumerate() {
        sums[q + 1] = sums[q] + *value;
    }
    sums
}
