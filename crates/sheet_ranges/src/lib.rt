// What the values of a field are refused for by their ranges (01, the table of tags; 02, Req 04): one function a tag, and one for the weight of a strip
// (02, Req 09).
// Values are examined from left to right, and the first one out of its range decides.
#![tactic(auto)]

ghost use Rattle.std.specs.Prelude.{◌≡◌, cond, [], ◌∷◌, eqb};
ghost use Rattle.sheet.specs.FieldTable.{mosaic_head, mosaic_strip, sorting_head, sorting_strip, turn_flight_head, flight_block, field_table, values_of};
ghost use Rattle.sheet.specs.FieldTable.{flight_window_block, content_values, field_values};
ghost use Rattle.sheet.specs.Checks.{count_number, time_number, range_number};
ghost use Rattle.sheet.specs.Contents.{weight_values};
ghost use Rattle.sheet.specs.Given.{number_given};
ghost use Rattle.sheet.specs.Rows.{first_failure};
ghost use Rattle.sheet_ranges.specs.RangePre.{StripPre, WeightPre, RangePre};

use field::{byte, number};
use sheet::limits::{MOST_DESKS, MOST_STATIONS, MOST_TIME, MOST_TURN, MOST_WEIGHT};
use sheet::refusals::Refusal;
use sheet::tags::{
    FLIGHT_BLOCK, FLIGHT_HEAD, FLIGHT_WINDOW_BLOCK, MOSAIC_HEAD, MOSAIC_STRIP, SORTING_HEAD,
    SORTING_STRIP,
};

// A count is from `least` to `most`.
fn check_count(least: u64, value: u64, most: u64) -> Result<(), Refusal>
    ensures { number_given result ≡ count_number least value most }
{
    if value < least {
        return Err(Refusal::OutOfRange);
    }
    if value <= most {
        return Ok(());
    }
    Err(Refusal::OutOfRange)
}

// A time is at most `most`, and at least `least`, which is 0 or 1.
fn check_time(least: u64, time: u64, most: u64) -> Result<(), Refusal>
    ensures { number_given result ≡ time_number least time most }
{
    if most < time {
        return Err(Refusal::TimeTooLarge);
    }
    if time < least {
        return Err(Refusal::TimeOfZero);
    }
    Ok(())
}

fn check_mosaic_head(stations: u64, mount: u64) -> Result<(), Refusal>
    ensures { number_given result ≡ range_number (values_of mosaic_head (stations ∷ mount ∷ [])) }
{
    check_count(1, stations, MOST_STATIONS)?;
    check_time(0, mount, MOST_TIME)
}

// The times of a mosaic strip: one for each station, and the bench time behind them.
fn check_mosaic_strip(s: &[u8], c: usize, stations: usize) -> Result<(), Refusal>
    requires { StripPre c stations }
    ensures { number_given result ≡ range_number (content_values s.now c (mosaic_strip stations)) }
{
    for k in 0..stations {
        check_time(0, number(s, c + 2 * k, 2), MOST_TIME)?;
    }
    check_time(1, number(s, c + 2 * stations, 2), MOST_TIME)
}

fn check_sorting_head(desks: u64) -> Result<(), Refusal>
    ensures { number_given result ≡ range_number (values_of sorting_head (desks ∷ [])) }
{
    check_count(1, desks, MOST_DESKS)
}

// The values of a desk's strip before its weight.
fn check_sorting_strip(desks: u64, desk: u64, scan: u64, time: u64) -> Result<(), Refusal>
    ensures { number_given result ≡ range_number (values_of (sorting_strip desks) (desk ∷ scan ∷ time ∷ [])) }
{
    check_count(1, desk, desks)?;
    check_time(1, scan, MOST_TIME)?;
    check_time(1, time, MOST_TIME)
}

// The weight of a strip, behind so many other bytes: absent, it has no value.
fn check_weight(s: &[u8], c: usize, length: usize, others: usize) -> Result<(), Refusal>
    requires { WeightPre c others }
    ensures { number_given result ≡ range_number (weight_values s.now c length others) }
{
    if length == others {
        return Ok(());
    }
    check_count(1, byte(s, c + others), MOST_WEIGHT)
}

// A strip by what its values before the weight give: the weight is examined last.
fn check_strip(
    before: Result<(), Refusal>,
    s: &[u8],
    c: usize,
    length: usize,
    others: usize,
) -> Result<(), Refusal>
    requires { WeightPre c others }
    ensures { number_given result ≡ first_failure (number_given before ∷ range_number (weight_values s.now c length others) ∷ []) }
{
    match before {
        Ok(()) => check_weight(s, c, length, others),
        Err(refusal) => Err(refusal),
    }
}

// A flight head: an empty one has no value, one with a turn has that.
fn check_flight_head(length: usize, turn: u64) -> Result<(), Refusal>
    ensures { number_given result ≡ range_number (cond (eqb length 0) [] (values_of turn_flight_head (turn ∷ []))) }
{
    if length == 0 {
        return Ok(());
    }
    check_time(0, turn, MOST_TURN)
}

fn check_flight_block(first_pass: u64, delay: u64, second_pass: u64) -> Result<(), Refusal>
    ensures { number_given result ≡ range_number (values_of flight_block (first_pass ∷ delay ∷ second_pass ∷ [])) }
{
    check_time(1, first_pass, MOST_TIME)?;
    check_time(0, delay, MOST_TIME)?;
    check_time(1, second_pass, MOST_TIME)
}

fn check_flight_window_block(
    first: u64,
    shortest: u64,
    longest: u64,
    second: u64,
) -> Result<(), Refusal>
    ensures { number_given result ≡ range_number (values_of flight_window_block (first ∷ shortest ∷ longest ∷ second ∷ [])) }
{
    check_time(1, first, MOST_TIME)?;
    check_time(0, shortest, MOST_TIME)?;
    check_time(0, longest, MOST_TIME)?;
    check_time(1, second, MOST_TIME)
}

// Whether each value is in its range, of a field whose content begins at c and has a length that is due for its tag. The length says what content of the table
// the field has where its tag has two, as those of a strip and of the flight head have.
pub fn check_ranges(
    s: &[u8],
    c: usize,
    tag: u8,
    length: usize,
    stations: usize,
    desks: usize,
) -> Result<(), Refusal>
    requires { RangePre c tag length stations desks }
    ensures { number_given result ≡ range_number (field_values s.now c tag length (field_table stations desks)) }
{
    match tag {
        MOSAIC_HEAD => check_mosaic_head(byte(s, c), number(s, c + 1, 2)),
        MOSAIC_STRIP => {
            let before = check_mosaic_strip(s, c, stations);
            check_strip(before, s, c, length, 2 * stations + 2)
        }
        SORTING_HEAD => check_sorting_head(byte(s, c)),
        SORTING_STRIP => {
            let (scan, time) = (number(s, c + 1, 2), number(s, c + 3, 2));
            let before = check_sorting_strip(desks as u64, byte(s, c), scan, time);
            check_strip(before, s, c, length, 5)
        }
        FLIGHT_HEAD => check_flight_head(length, number(s, c, 2)),
        FLIGHT_BLOCK => {
            check_flight_block(number(s, c, 2), number(s, c + 2, 2), number(s, c + 4, 2))
        }
        FLIGHT_WINDOW_BLOCK => check_flight_window_block(
            number(s, c, 2),
            number(s, c + 2, 2),
            number(s, c + 4, 2),
            number(s, c + 6, 2),
        ),
        _ => Ok(()),
    }
}
