// The lengths that are due for a field's content: one case for each tag of the field table and, for a mosaic strip, one for each number of stations, so that
// the code can be read against the table (02, Req 05; docs/FORMAT.md shows both side by side).
#![tactic(auto)]

ghost use Rattle.std.specs.Prelude.{◌≡◌};
ghost use Rattle.sheet.specs.Among.{is_among};
ghost use Rattle.sheet_lengths.specs.Lengths.{lengths_given, GivesLength};

use sheet::tags::{
    FLIGHT_BLOCK, FLIGHT_HEAD, FLIGHT_ORDER, FLIGHT_WINDOW_BLOCK, MOSAIC_HEAD, MOSAIC_STRIP,
    SORTING_HEAD, SORTING_STRIP,
};

// The length due: so many bytes; either of two lengths; or none, because the tag is not in the table, or is that of a strip and no head has this number of
// stations.
#[derive(Clone, Copy)]
pub enum LengthDue {
    Bytes(usize),
    Either(usize, usize),
    None,
}

// The length due for a tag, with so many stations in the mosaic's head.
pub fn length_due(tag: u8, stations: usize) -> LengthDue
    ensures { GivesLength tag stations result }
{
    match tag {
        MOSAIC_HEAD => LengthDue::Bytes(3),
        MOSAIC_STRIP => match stations {
            1 => LengthDue::Either(4, 5),
            2 => LengthDue::Either(6, 7),
            3 => LengthDue::Either(8, 9),
            4 => LengthDue::Either(10, 11),
            _ => LengthDue::None,
        },
        SORTING_HEAD => LengthDue::Bytes(1),
        SORTING_STRIP => LengthDue::Either(5, 6),
        FLIGHT_HEAD => LengthDue::Either(0, 2),
        FLIGHT_BLOCK => LengthDue::Bytes(6),
        FLIGHT_WINDOW_BLOCK => LengthDue::Bytes(8),
        FLIGHT_ORDER => LengthDue::Bytes(8),
        _ => LengthDue::None,
    }
}

// Whether a length is one that is due.
pub fn is_due(length: usize, due: LengthDue) -> bool
    ensures { result ≡ is_among length (lengths_given due) }
{
    match due {
        LengthDue::Bytes(bytes) => bytes == length,
        LengthDue::Either(first, second) => first == length || second == length,
        LengthDue::None => false,
    }
}
