// The planner whole: a sheet read, its sections planned, and the plan written into the lent buffer.
#![tactic(auto)]

ghost use Rattle.planner.specs.Call.{Called, PlanSectionsPre, PlanWithinPre, Within, Planned};

use base::Answer;
use sheet::Sheet;
use sheet::limits::{PLAN_LENGTH, TABLE_LENGTH};
use sheet::refusals::Refusal;

// A sheet that was read. The flight is planned first: where it is impossible, nothing has been written.
fn plan_sections(s: Sheet, plan: &mut [u8], table: &mut [u64]) -> Answer
    requires { PlanSectionsPre s plan.old table.old }
    ensures { Planned s plan.old plan.new result }
{
    if s.number != 0 {
        return Answer {
            number: s.number,
            place: s.place,
            length: 0,
        };
    }
    let flight = flight::plan_flight(s.flight);
    if !flight.possible {
        return Answer {
            number: Refusal::OrderImpossible as u64,
            place: s.flight.place,
            length: 0,
        };
    }
    let mosaic = mosaic::plan_mosaic(s.mosaic);
    let sorting = sorting::plan_sorting(s.sorting, table);
    let length = plan_writer::write_plan(plan, s, mosaic, sorting, flight);
    Answer {
        number: 0,
        place: 0,
        length,
    }
}

// A call whose buffers are large enough, with the part of the table that it works in.
fn plan_within(sheet: &[u8], plan: &mut [u8], table: &mut [u64]) -> Answer
    requires { PlanWithinPre plan.old table.old }
    ensures { Within sheet.now plan.old plan.new table.new result }
{
    let s = sheet_reader::read(sheet);
    let answer = plan_sections(s, plan, table);
    base::clear(table);
    answer
}

// Plans a sheet: the plan stands at the start of the buffer, unless the call is refused.
pub fn plan(sheet: &[u8], plan: &mut [u8], table: &mut [u64]) -> Answer
    ensures { Called sheet.now plan.old table.old plan.new table.new result }
{
    if table.len() < TABLE_LENGTH {
        return Answer {
            number: Refusal::TableTooSmall as u64,
            place: 0,
            length: 0,
        };
    }
    if plan.len() < PLAN_LENGTH {
        return Answer {
            number: Refusal::BufferTooSmall as u64,
            place: 0,
            length: 0,
        };
    }
    plan_within(sheet, plan, &mut table[..TABLE_LENGTH])
}
