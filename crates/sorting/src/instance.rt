// The section as the search reads it.
ghost use Rattle.std.specs.Prelude.{◌≡◌};
ghost use Rattle.sheet.specs.Sound.{SortingSound};
ghost use Rattle.sorting.specs.Plan.{instance_of};

use sheet::SortingSection;

pub fn instance_of(s: SortingSection) -> [u64; 57]
    requires { SortingSound s }
    ensures { result ≡ instance_of s }
{
    // From the last part to the first: the definition is one list before the next, so it is built from its end, and each store puts one part in front.
    let mut jobs = [0u64; 57];
    jobs[39..57].copy_from_slice(&s.weight);
    jobs[21..39].copy_from_slice(&s.desk);
    jobs[3..21].copy_from_slice(&s.scan);
    jobs[2] = s.counts[2] as u64;
    jobs[1] = s.counts[1] as u64;
    jobs[0] = s.counts[0] as u64;
    jobs
}
