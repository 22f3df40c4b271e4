// What a field that passes its checks adds to the sheet. A field's content begins at offset c.
#![tactic(auto)]

ghost use Rattle.std.specs.Prelude.{◌≡◌, ◌+◌, ◌*◌, ◌<◌, ◌^◌, length};
ghost use Rattle.sheet.specs.Decode.{no_mosaic, no_sorting, with_mosaic_head, weight_of, with_station_times, with_mosaic_strip, with_sorting_head, with_strip_at, next_mosaic, next_sorting};
ghost use Rattle.sheet.specs.Decode.{next_section, next_members, next_head, next_reading, start_reading};
ghost use Rattle.field.specs.Bytes.{number_at};
ghost use Rattle.sheet.specs.Sections.{strips_of_desk};
ghost use Rattle.sheet.specs.Read.{refused, accepted};
ghost use Rattle.sheet_decode.specs.Pre.{StationTimesPre, MosaicStripPre, StripAtPre, NextMosaicPre, NextSortingPre, NextReadingPre};

use field::{byte, number};
use flight_decode::{next_flight, no_flight};
use sheet::desks::{desk_index, strips_of_desk};
use sheet::sections::{AFTER_ORDER, IN_FLIGHT, IN_MOSAIC, IN_SORTING, NO_SECTION};
use sheet::tags::{
    FLIGHT_HEAD, FLIGHT_ORDER, MOSAIC_HEAD, MOSAIC_STRIP, SORTING_HEAD, SORTING_STRIP,
};
use sheet::{FlightSection, MosaicSection, Reading, Sheet, SortingSection};
use sheet_checks::ends_section;

#[tactic(auto, unfolding(sheet::specs::Decode::zeros, sheet::specs::Decode::no_mosaic))]
pub fn no_mosaic() -> MosaicSection
    ensures { result ≡ no_mosaic }
{
    MosaicSection {
        stations: 0,
        mount: 0,
        strips: 0,
        station: [0; 160],
        bench: [0; 40],
        weight: [0; 40],
    }
}

#[tactic(auto, unfolding(sheet::specs::Decode::zeros, sheet::specs::Decode::no_sorting))]
pub fn no_sorting() -> SortingSection
    ensures { result ≡ no_sorting }
{
    SortingSection {
        desks: 0,
        counts: [0; 3],
        scan: [0; 18],
        desk: [0; 18],
        weight: [0; 18],
    }
}

// Before the first field.
#[tactic(auto, unfolding(sheet::specs::Decode::start_reading))]
pub fn start() -> Reading
    ensures { result ≡ start_reading }
{
    Reading {
        at: 0,
        section: NO_SECTION,
        head: 0,
        members: 0,
        mosaic: no_mosaic(),
        sorting: no_sorting(),
        flight: no_flight(),
    }
}

#[tactic(auto, unfolding(sheet::specs::Read::refused))]
pub fn refuse(number: u64, place: usize) -> Sheet
    ensures { result ≡ refused number place }
{
    Sheet {
        number,
        place,
        mosaic: no_mosaic(),
        sorting: no_sorting(),
        flight: no_flight(),
    }
}

#[tactic(auto, unfolding(sheet::specs::Read::accepted))]
pub fn accept(st: Reading) -> Sheet
    ensures { result ≡ accepted st }
{
    Sheet {
        number: 0,
        place: 0,
        mosaic: st.mosaic,
        sorting: st.sorting,
        flight: st.flight,
    }
}

fn with_mosaic_head(s: &[u8], c: usize) -> MosaicSection
    requires { c + 1 < 2 ^ 64 }
    ensures { result ≡ with_mosaic_head s.now c }
{
    MosaicSection {
        stations: byte(s, c) as usize,
        mount: number(s, c + 1, 2),
        ..no_mosaic()
    }
}

// The station times with those of a strip of `count` stations from an index on.
fn with_station_times(
    s: &[u8],
    c: usize,
    base: usize,
    count: usize,
    mut times: [u64; 160],
) -> [u64; 160]
    requires { StationTimesPre c base count }
    ensures { result ≡ with_station_times s.now c base count times }
{
    for k in 0..count {
        times[base + k] = number(s, c + 2 * k, 2);
    }
    times
}

// The weight of a strip, behind so many other bytes: absent, it is 1.
#[tactic(auto, unfolding(sheet::specs::Decode::weight_of))]
fn weight_of(s: &[u8], c: usize, length: usize, others: usize) -> u64
    requires { c + others < 2 ^ 64 }
    ensures { result ≡ weight_of s.now c length others }
{
    if length == others {
        return 1;
    }
    byte(s, c + others)
}

// The mosaic with one strip more.
fn with_mosaic_strip(s: &[u8], c: usize, length: usize, mut m: MosaicSection) -> MosaicSection
    requires { MosaicStripPre c m.strips m.stations }
    ensures { result ≡ with_mosaic_strip s.now c length m }
{
    m.station = with_station_times(s, c, 4 * m.strips, m.stations, m.station);
    m.bench[m.strips] = number(s, c + 2 * m.stations, 2);
    m.weight[m.strips] = weight_of(s, c, length, 2 * m.stations + 2);
    m.strips += 1;
    m
}

fn with_sorting_head(s: &[u8], c: usize) -> SortingSection
    ensures { result ≡ with_sorting_head s.now c }
{
    SortingSection {
        desks: byte(s, c) as usize,
        ..no_sorting()
    }
}

// The sorting with strip k of desk d, both from 0.
fn with_strip_at(
    s: &[u8],
    c: usize,
    length: usize,
    mut t: SortingSection,
    d: usize,
    k: usize,
) -> SortingSection
    requires { StripAtPre c d k }
    ensures { result ≡ with_strip_at s.now c length t d k }
{
    t.counts[d] = k + 1;
    t.scan[6 * d + k] = number(s, c + 1, 2);
    t.desk[6 * d + k] = number(s, c + 3, 2);
    t.weight[6 * d + k] = weight_of(s, c, length, 5);
    t
}

fn next_mosaic(s: &[u8], c: usize, tag: u8, length: usize, m: MosaicSection) -> MosaicSection
    requires { NextMosaicPre c tag m.strips m.stations }
    ensures { result ≡ next_mosaic s.now c tag length m }
{
    match tag {
        MOSAIC_HEAD => with_mosaic_head(s, c),
        MOSAIC_STRIP => with_mosaic_strip(s, c, length, m),
        _ => m,
    }
}

fn next_sorting(s: &[u8], c: usize, tag: u8, length: usize, t: SortingSection) -> SortingSection
    requires { NextSortingPre c tag (number_at s.now c 1) (strips_of_desk t.counts (number_at s.now c 1)) }
    ensures { result ≡ next_sorting s.now c tag length t }
{
    match tag {
        SORTING_HEAD => with_sorting_head(s, c),
        SORTING_STRIP => {
            let desk = byte(s, c);
            let of_desk = strips_of_desk(t.counts, desk);
            with_strip_at(s, c, length, t, desk_index(desk), of_desk)
        }
        _ => t,
    }
}

#[tactic(auto, unfolding(sheet::specs::Decode::next_section))]
fn next_section(tag: u8, section: u64) -> u64
    ensures { result ≡ next_section tag section }
{
    match tag {
        MOSAIC_HEAD => IN_MOSAIC,
        SORTING_HEAD => IN_SORTING,
        FLIGHT_HEAD => IN_FLIGHT,
        FLIGHT_ORDER => AFTER_ORDER,
        _ => section,
    }
}

#[tactic(auto, unfolding(sheet::specs::Decode::next_members))]
fn next_members(tag: u8, members: usize) -> usize
    requires { members + 1 < 2 ^ 64 }
    ensures { result ≡ next_members tag members }
{
    if ends_section(tag) {
        0
    } else if tag == FLIGHT_ORDER {
        members
    } else {
        members + 1
    }
}

#[tactic(auto, unfolding(sheet::specs::Decode::next_head))]
fn next_head(tag: u8, head: usize, at: usize) -> usize
    ensures { result ≡ next_head tag head at }
{
    if ends_section(tag) { at } else { head }
}

// The reading after a whole field that passed its checks.
#[tactic(auto, unfolding(sheet::specs::Decode::next_reading))]
pub fn next_reading(s: &[u8], st: Reading, tag: u8, length: usize) -> Reading
    requires { NextReadingPre s.now st tag length }
    ensures { result ≡ next_reading s.now st tag length }
{
    let at = st.at;
    Reading {
        at: at + 3 + length,
        section: next_section(tag, st.section),
        head: next_head(tag, st.head, at),
        members: next_members(tag, st.members),
        mosaic: next_mosaic(s, at + 3, tag, length, st.mosaic),
        sorting: next_sorting(s, at + 3, tag, length, st.sorting),
        flight: next_flight(s, at + 3, tag, length, at, st.flight),
    }
}
