// What each field of a sheet is checked for: one function a check, and the chain of them in 01's order.
#![tactic(auto)]

ghost use Rattle.std.specs.Prelude.{◌≡◌, ◌+◌, ◌<◌, ◌^◌, IfErr};
ghost use Rattle.field.specs.Bytes.{number_at};
ghost use Rattle.sheet.specs.Rows.{first_failure};
ghost use Rattle.sheet.specs.Checks.{ends_section, section_filled, few_blocks, order_given, order_permitted, permitted, window_ordered, has_room, order_proper};
ghost use Rattle.sheet.specs.Given.{number_of, found_number};
ghost use Rattle.sheet.specs.Read.{content_checks, field_number, end_number, place_of};
ghost use Rattle.sheet_checks.specs.FieldPre.{FieldPre};

use field::{byte, number};
use sheet::Reading;
use sheet::desks::strips_of_desk;
use sheet::limits::{MOST_BLOCKS, MOST_BLOCKS_WITHOUT_ORDER, MOST_STRIPS, MOST_STRIPS_OF_DESK};
use sheet::refusals::{Refusal, Refused};
use sheet::sections::{IN_FLIGHT, IN_MOSAIC, IN_SORTING, NO_SECTION};
use sheet::tags::{
    FLIGHT_BLOCK, FLIGHT_HEAD, FLIGHT_ORDER, FLIGHT_WINDOW_BLOCK, MOSAIC_HEAD, MOSAIC_STRIP,
    SORTING_HEAD, SORTING_STRIP,
};
use sheet_lengths::{is_due, length_due};
use sheet_ranges::check_ranges;

pub fn ends_section(tag: u8) -> bool
    ensures { result ≡ ends_section tag }
{
    matches!(tag, MOSAIC_HEAD | SORTING_HEAD | FLIGHT_HEAD)
}

fn section_filled(tag: u8, section: u64, members: usize) -> bool
    ensures { result ≡ section_filled tag section members }
{
    !ends_section(tag) || section == NO_SECTION || 1 <= members
}

fn few_blocks(section: u64, members: usize) -> bool
    ensures { result ≡ few_blocks section members }
{
    section != IN_FLIGHT || members <= MOST_BLOCKS_WITHOUT_ORDER
}

fn order_given(tag: u8, section: u64, members: usize) -> bool
    ensures { result ≡ order_given tag section members }
{
    !ends_section(tag) || few_blocks(section, members)
}

fn order_permitted(section: u64, members: usize) -> bool
    ensures { result ≡ order_permitted section members }
{
    section == IN_FLIGHT && 1 <= members
}

fn is_permitted(tag: u8, section: u64, members: usize) -> bool
    ensures { result ≡ permitted tag section members }
{
    match tag {
        MOSAIC_HEAD => section == NO_SECTION,
        MOSAIC_STRIP => section == IN_MOSAIC,
        SORTING_HEAD => section < IN_SORTING,
        SORTING_STRIP => section == IN_SORTING,
        FLIGHT_HEAD => section < IN_FLIGHT,
        FLIGHT_BLOCK => section == IN_FLIGHT,
        FLIGHT_WINDOW_BLOCK => section == IN_FLIGHT,
        FLIGHT_ORDER => order_permitted(section, members),
        _ => false,
    }
}

// Whether the window of a block that has one is not empty. The field's content begins at c.
fn window_ordered(s: &[u8], c: usize, tag: u8) -> bool
    requires { c + 8 < 2 ^ 64 }
    ensures { result ≡ window_ordered tag (number_at s.now (c + 2) 2) (number_at s.now (c + 4) 2) }
{
    if tag == FLIGHT_WINDOW_BLOCK {
        let shortest = number(s, c + 2, 2);
        let longest = number(s, c + 4, 2);
        return shortest <= longest;
    }
    true
}

fn has_room(tag: u8, members: usize, of_desk: usize) -> bool
    ensures { result ≡ has_room tag members of_desk }
{
    match tag {
        MOSAIC_STRIP => members < MOST_STRIPS,
        SORTING_STRIP => of_desk < MOST_STRIPS_OF_DESK,
        FLIGHT_BLOCK => members < MOST_BLOCKS,
        FLIGHT_WINDOW_BLOCK => members < MOST_BLOCKS,
        _ => true,
    }
}

fn order_proper(tag: u8, members: usize, order: u64) -> bool
    ensures { result ≡ order_proper tag members order }
{
    tag != FLIGHT_ORDER || order::proper(members as u64, order)
}

// The content of a field: it is refused at the field.
fn check_content(s: &[u8], reading: &Reading, tag: u8, length: usize) -> Result<(), Refused>
    requires { FieldPre s.now reading.now length }
    ensures number { found_number result ≡ first_failure (content_checks s.now reading.now tag length) }
    ensures place { IfErr result (λ r. r.place ≡ reading.now.at) }
{
    let place = reading.at;
    let content = place + 3;
    let (stations, desks) = (reading.mosaic.stations, reading.sorting.desks);
    if !is_due(length, length_due(tag, stations)) {
        return Err(Refused::new(Refusal::LengthWrong, place));
    }
    if let Err(refusal) = check_ranges(s, content, tag, length, stations, desks) {
        return Err(Refused::new(refusal, place));
    }
    if !window_ordered(s, content, tag) {
        return Err(Refused::new(Refusal::LongestBelowShortest, place));
    }
    let of_desk = strips_of_desk(reading.sorting.counts, byte(s, content));
    if !has_room(tag, reading.members, of_desk) {
        return Err(Refused::new(Refusal::TooMany, place));
    }
    if !order_proper(tag, reading.members, number(s, content, 8)) {
        return Err(Refused::new(Refusal::OrderNotProper, place));
    }
    Ok(())
}

// A field that is whole: its section and order are refused at the head of the section before, the rest at the field.
pub fn check_field(s: &[u8], reading: &Reading, tag: u8, length: usize) -> Result<(), Refused>
    requires { FieldPre s.now reading.now length }
    ensures number { found_number result ≡ field_number s.now reading.now tag length }
    ensures place { IfErr result (λ r. r.place ≡ place_of (number_of r.refusal) reading.now.head reading.now.at) }
{
    let (section, members) = (reading.section, reading.members);
    if !section_filled(tag, section, members) {
        return Err(Refused::new(Refusal::NoMembers, reading.head));
    }
    if !order_given(tag, section, members) {
        return Err(Refused::new(Refusal::OrderMissing, reading.head));
    }
    if !is_permitted(tag, section, members) {
        return Err(Refused::new(Refusal::TagNotPermitted, reading.at));
    }
    check_content(s, reading, tag, length)
}

// The end of the sheet ends the last section, whose head is the place of its refusals.
pub fn check_end(section: u64, members: usize, head: usize) -> Result<(), Refused>
    ensures number { found_number result ≡ end_number section members }
    ensures place { IfErr result (λ r. r.place ≡ head) }
{
    if members < 1 {
        return Err(Refused::new(Refusal::NoMembers, head));
    }
    if !few_blocks(section, members) {
        return Err(Refused::new(Refusal::OrderMissing, head));
    }
    Ok(())
}
