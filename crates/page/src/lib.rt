// The page of a plan for the bench wall (02, Req 02): a plan that the judge allows, printed in lines of 32 columns.
#![tactic(auto)]

ghost use Rattle.std.specs.Prelude.{◌≡◌};
ghost use Rattle.field.specs.Put.{Written};
ghost use Rattle.page_lines.specs.Line.{lines_bytes};
ghost use Rattle.page.specs.Call.{Paged};
ghost use Rattle.page.specs.Printed.{PrintSectionsPre, examined_lines};

use base::Answer;
use judge::{Examined, examine};
use page_sections::{print_flight, print_mosaic, print_sorting};
use sheet::limits::PAGE_LENGTH;
use sheet::refusals::Refusal;

// The sections of an allowed plan one behind the other, from the start of the page. Returns the length written.
fn print_sections(page: &mut [u8], plan: &[u8], e: Examined) -> usize
    requires { PrintSectionsPre page.old plan.now e }
    ensures { Written page.old page.new 0 (lines_bytes (examined_lines plan.now e)) result }
{
    let sorting_at = print_mosaic(page, 0, plan, e.mosaic, e.judged.mosaic);
    let flight_at = print_sorting(page, sorting_at, plan, e.sorting, e.judged.sorting);
    print_flight(page, flight_at, plan, e.flight, e.judged.flight)
}

// Prints a plan that the judge allows for a sheet: the page stands at the start of the buffer, unless the call is refused.
pub fn page(sheet: &[u8], plan: &[u8], page: &mut [u8]) -> Answer
    ensures { Paged sheet.now plan.now page.old page.new result }
{
    if page.len() < PAGE_LENGTH {
        return Answer {
            number: Refusal::BufferTooSmall.number(),
            place: 0,
            length: 0,
        };
    }
    let e = examine(sheet, plan);
    if e.judged.number != 0 {
        return Answer {
            number: e.judged.number,
            place: e.judged.place,
            length: 0,
        };
    }
    let written = print_sections(page, plan, e);
    Answer {
        number: 0,
        place: 0,
        length: written,
    }
}
