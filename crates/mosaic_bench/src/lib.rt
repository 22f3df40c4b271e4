// The mosaic planner for C, so that bench/ can time it by itself.
#![tactic(auto)]

ghost use Rattle.std.specs.Prelude.{◌≡◌};
ghost use Rattle.sheet.specs.Sound.{MosaicSound};
ghost use Rattle.mosaic.specs.Least.{least_figure};
ghost use Rattle.mosaic_bench.specs.Section.{section_of};

use sheet::MosaicSection;

// The figure of the plan.
#[unsafe(no_mangle)]
pub extern "C" fn mosaic_best(
    stations: usize,
    mount: u64,
    strips: usize,
    station: &[u64; 160],
    bench: &[u64; 40],
    weight: &[u64; 40],
) -> u64
    requires { MosaicSound (section_of stations mount strips station.now bench.now weight.now) }
    ensures { result ≡ least_figure (section_of stations mount strips station.now bench.now weight.now) }
{
    let m = MosaicSection {
        stations: stations,
        mount: mount,
        strips: strips,
        station: *station,
        bench: *bench,
        weight: *weight,
    };
    let plan = mosaic::plan_mosaic(m);
    plan.figure
}
