// The times of a flight's passes.
ghost use Rattle.rules.specs.Flight.{pass_time};
ghost use Rattle.running.specs.FunctionLaws.{PassTimePre, TimeTold};

use order::time_of;
use sheet::FlightSection;

// The time that a pass takes.
pub fn pass_time(f: FlightSection, p: usize) -> u64
    requires { PassTimePre f p }
    ensures { TimeTold (pass_time f p) result }
{
    time_of(f.blocks, &f.first, &f.second, p)
}
