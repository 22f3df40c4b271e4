// 01: "A reader set on the lent sheet gives its fields one after another." The struct holds the lent slice and the offset of a field. Its methods
// take it apart and leave the work to `field_at` and `field_end`.
ghost use Rattle.std.specs.Prelude.{◌≡◌};
ghost use Rattle.field.specs.Field.{field_at, end_of};

use super::Field;

#[derive(Clone, Copy)]
pub struct Reader<'a> {
    pub sheet: &'a [u8],
    pub at: usize,
}

impl<'a> Reader<'a> {
    // A reader set on the first field of a sheet.
    pub fn set_on(sheet: &'a [u8]) -> Reader<'a>
        ensures { (result.sheet ≡ sheet.entry) × (result.at ≡ 0) }
    {
        Reader { sheet, at: 0 }
    }

    // The next field: the one at the reader's offset.
    pub fn next_field(self) -> Field
        ensures { result ≡ field_at self.entry.sheet.now self.entry.at }
    {
        super::field_at(self.sheet, self.at)
    }

    // The reader moved past its field, to the next one.
    pub fn past(self) -> Reader<'a>
        ensures { (result.sheet ≡ self.entry.sheet) × (result.at ≡ end_of self.entry.at (field_at self.entry.sheet.now self.entry.at)) }
    {
        Reader {
            at: super::field_end(self.sheet, self.at),
            ..self
        }
    }
}
