// What a field of a flight that passes its checks adds to the section: its head, a block, the pass order. A field's content begins at offset c.
#![tactic(auto)]

ghost use Rattle.std.specs.Prelude.{◌≡◌, ◌+◌, ◌<◌, ◌^◌};
ghost use Rattle.sheet.specs.Decode.{no_flight, exact_block, window_block, turn_of, with_flight_head, with_block, with_order, next_flight};
ghost use Rattle.sheet.specs.Limits.{most_blocks};
ghost use Rattle.flight_decode.specs.Pre.{NextFlightPre};

use field::number;
use sheet::tags::{FLIGHT_BLOCK, FLIGHT_HEAD, FLIGHT_ORDER, FLIGHT_WINDOW_BLOCK};
use sheet::{Block, FlightSection};

#[tactic(auto, unfolding(sheet::specs::Decode::zeros, sheet::specs::Decode::no_flight))]
pub fn no_flight() -> FlightSection
    ensures { result ≡ no_flight }
{
    FlightSection {
        blocks: 0,
        turn: 0,
        first: [0; 32],
        shortest: [0; 32],
        longest: [0; 32],
        second: [0; 32],
        ordered: false,
        order: 0,
        place: 0,
    }
}

// The turn that a flight head of a length has: 0 where it is empty.
#[tactic(auto, unfolding(sheet::specs::Decode::turn_of))]
fn turn_of(s: &[u8], c: usize, length: usize) -> u64
    ensures { result ≡ turn_of s.now c length }
{
    if length == 0 {
        return 0;
    }
    number(s, c, 2)
}

// The flight of a head alone, which stands at an offset.
fn with_flight_head(s: &[u8], c: usize, length: usize, head: usize) -> FlightSection
    ensures { result ≡ with_flight_head s.now c length head }
{
    FlightSection {
        turn: turn_of(s, c, length),
        place: head,
        ..no_flight()
    }
}

// A block of an exact delay, which is a window of one value.
#[tactic(auto, unfolding(sheet::specs::Decode::exact_block))]
fn exact_block(s: &[u8], c: usize) -> Block
    requires { c + 8 < 2 ^ 64 }
    ensures { result ≡ exact_block s.now c }
{
    let delay = number(s, c + 2, 2);
    Block {
        first: number(s, c, 2),
        shortest: delay,
        longest: delay,
        second: number(s, c + 4, 2),
    }
}

// A block with a window for its delay.
#[tactic(auto, unfolding(sheet::specs::Decode::window_block))]
fn window_block(s: &[u8], c: usize) -> Block
    requires { c + 8 < 2 ^ 64 }
    ensures { result ≡ window_block s.now c }
{
    Block {
        first: number(s, c, 2),
        shortest: number(s, c + 2, 2),
        longest: number(s, c + 4, 2),
        second: number(s, c + 6, 2),
    }
}

// The flight with one block more.
#[tactic(auto, unfolding(sheet::specs::Decode::with_block))]
fn with_block(b: Block, mut f: FlightSection) -> FlightSection
    requires { f.blocks < most_blocks }
    ensures { result ≡ with_block b f }
{
    let i = f.blocks;
    f.first[i] = b.first;
    f.shortest[i] = b.shortest;
    f.longest[i] = b.longest;
    f.second[i] = b.second;
    FlightSection {
        blocks: i + 1,
        // Without an order, 11 is still given at the head.
        place: f.place,
        ..f
    }
}

// The flight with its order, whose field stands at an offset.
#[tactic(auto, unfolding(sheet::specs::Decode::with_order))]
fn with_order(s: &[u8], c: usize, at: usize, f: FlightSection) -> FlightSection
    ensures { result ≡ with_order s.now c at f }
{
    FlightSection {
        ordered: true,
        order: number(s, c, 8),
        place: at,
        ..f
    }
}

// The flight after a field.
pub fn next_flight(
    s: &[u8],
    c: usize,
    tag: u8,
    length: usize,
    at: usize,
    f: FlightSection,
) -> FlightSection
    requires { NextFlightPre c tag f.blocks }
    ensures { result ≡ next_flight s.now c tag length at f }
{
    match tag {
        FLIGHT_HEAD => with_flight_head(s, c, length, at),
        FLIGHT_BLOCK => with_block(exact_block(s, c), f),
        FLIGHT_WINDOW_BLOCK => with_block(window_block(s, c), f),
        FLIGHT_ORDER => with_order(s, c, at, f),
        _ => f,
    }
}
