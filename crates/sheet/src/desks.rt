// The desks of a sorting section: a desk's index and its strips, and the strips of all desks.
ghost use Rattle.std.specs.Prelude.{◌≡◌, ◌-◌};
ghost use Rattle.sheet.specs.Sections.{strips_of_desk};
ghost use Rattle.sheet.specs.Sound.{SortingSound, strips_in_all};

use super::SortingSection;

// The index of a desk that is numbered from 1.
pub fn desk_index(desk: u64) -> usize
    ensures { result ≡ desk - 1 }
{
    desk.saturating_sub(1) as usize
}

// The strips of a desk, which is numbered from 1.
pub fn strips_of_desk(counts: [usize; 3], desk: u64) -> usize
    ensures { result ≡ strips_of_desk counts desk }
{
    counts.get(desk_index(desk)).copied().unwrap_or(0)
}

// The strips of all desks.
pub fn strips_in_all(t: SortingSection) -> usize
    requires { SortingSound t }
    ensures { result ≡ strips_in_all t }
{
    t.counts[0] + t.counts[1] + t.counts[2]
}
