// The search of the sorting planner for C, so that bench/ can time it by itself.
#![tactic(auto)]

ghost use Rattle.sorting_search.specs.Found.{BestInterleavingPre, Found};

// The figure and the number of the scanner list of an interleaving.
#[repr(C)]
#[derive(Clone, Copy)]
pub struct Interleaving {
    pub figure: u64,
    pub path: u64,
}

// The first best interleaving. The caller clears the table.
#[unsafe(no_mangle)]
pub extern "C" fn sorting_best(jobs: &[u64], table: &mut [u64]) -> Interleaving
    requires { BestInterleavingPre jobs.now table.old }
    ensures { Found jobs.now table.old table.new (record { figure = result.figure; path = result.path }) }
{
    let best = sorting_search::best_interleaving(jobs, table);
    Interleaving {
        figure: best.figure,
        path: best.path,
    }
}
