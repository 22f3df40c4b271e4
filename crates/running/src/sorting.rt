// The times and weights of a sorting's jobs.
ghost use Rattle.rules.specs.Sorting.{scan_time, desk_time};
ghost use Rattle.running.specs.FunctionLaws.{InSlots, SlotTold, SlotPre, TimeTold, JobWeightTold};

use rules::Job;
use sheet::SortingSection;

// Where the values of a strip stand.
fn slot_of(j: Job) -> usize
    requires { InSlots j }
    ensures { SlotTold j result }
{
    let at = 6 * (j.desk - 1) + (j.number - 1);
    at as usize
}

// The scan time of a strip.
pub fn scan_time(s: SortingSection, j: Job) -> u64
    requires { SlotPre s j }
    ensures { TimeTold (scan_time s j) result }
{
    s.scan[slot_of(j)]
}

// The desk time of a strip.
pub fn desk_time(s: SortingSection, j: Job) -> u64
    requires { SlotPre s j }
    ensures { TimeTold (desk_time s j) result }
{
    s.desk[slot_of(j)]
}

// The weight of a strip.
pub fn job_weight(s: SortingSection, j: Job) -> u64
    requires { SlotPre s j }
    ensures { JobWeightTold s j result }
{
    s.weight[slot_of(j)]
}
