// The reader of a sheet: for every row of bytes the number and place of its refusal, or 0, 0 and its sections.
// 01: "A reader set on the lent sheet gives its fields one after another": `read_fields` keeps one `Reader` from field to field.
#![tactic(auto)]

ghost use Rattle.std.specs.Prelude.{◌≡◌};
ghost use Rattle.sheet.specs.Read.{read_sheet};
ghost use Rattle.sheet_reader.specs.Answer.{sheet_of};

use field::Field;
use field::reader::Reader;
use sheet::refusals::{Refusal, Refused};
use sheet::{Reading, Sheet};
use sheet_checks::{check_end, check_field};
use sheet_decode::{accept, next_reading, refuse, start};

// The fields one after another: what they give, or the first refusal. The end of the sheet ends the last section.
fn read_fields(s: &[u8]) -> Result<Reading, Refused>
    ensures { sheet_of result ≡ read_sheet s.now }
{
    let end = s.len();
    let mut reader = Reader::set_on(s);
    let mut reading = start();
    while reading.at < end {
        let Field::Whole(tag, length) = reader.next_field() else {
            return Err(Refused::new(Refusal::FieldCut, reading.at));
        };
        check_field(s, &reading, tag, length)?;
        reading = next_reading(s, reading, tag, length);
        reader = reader.past();
    }
    check_end(reading.section, reading.members, reading.head)?;
    Ok(reading)
}

// Reads a sheet: the number and place of its refusal, or 0, 0 and its sections.
pub fn read(s: &[u8]) -> Sheet
    ensures { result ≡ read_sheet s.now }
{
    match read_fields(s) {
        Ok(reading) => accept(reading),
        Err(refused) => refuse(refused.refusal as u64, refused.place),
    }
}
