// The heads of the sections, and the field of a refusal.
ghost use Rattle.std.specs.Prelude.{◌≡◌, ◌+◌, ◌≤◌, [], ◌∷◌, length};
ghost use Rattle.field.specs.Put.{put, holding};
ghost use Rattle.plan_format.specs.Format.{form_bytes, size_of, mosaic_head_form, sorting_head_form, flight_head_form, refusal_form};
ghost use Rattle.rules.specs.Plan.{refusal_bytes};

use crate::tag::put_tag;
use field::put_number;
use plan_format::{
    CONTENT, FIGURE_WIDTH, FLIGHT_FIGURE_WIDTH, FLIGHT_HEAD_LENGTH, FLIGHT_ORDER,
    MOSAIC_HEAD_LENGTH, ORDER_WIDTH, PLACE_WIDTH, REFUSAL_LENGTH, REFUSAL_PLACE, REFUSAL_WIDTH,
    SORTING_HEAD_LENGTH,
};
use sheet::tags::{PLAN_FLIGHT, PLAN_MOSAIC, PLAN_REFUSAL, PLAN_SORTING};

pub fn put_mosaic_head(d: &mut [u8], at: usize, figure: u64)
    requires { at + size_of mosaic_head_form ≤ length d.old }
    ensures { d.new ≡ put d.old at (form_bytes mosaic_head_form (figure ∷ [])) }
{
    put_tag(d, at, PLAN_MOSAIC, MOSAIC_HEAD_LENGTH);
    put_number(d, at + CONTENT, FIGURE_WIDTH, figure);
}

pub fn put_sorting_head(d: &mut [u8], at: usize, figure: u64)
    requires { at + size_of sorting_head_form ≤ length d.old }
    ensures { d.new ≡ put d.old at (form_bytes sorting_head_form (figure ∷ [])) }
{
    put_tag(d, at, PLAN_SORTING, SORTING_HEAD_LENGTH);
    put_number(d, at + CONTENT, FIGURE_WIDTH, figure);
}

// The head of the flight, with its order number.
pub fn put_flight_head(d: &mut [u8], at: usize, figure: u64, order: u64)
    requires { at + size_of flight_head_form ≤ length d.old }
    ensures { d.new ≡ put d.old at (form_bytes flight_head_form (figure ∷ order ∷ [])) }
{
    put_tag(d, at, PLAN_FLIGHT, FLIGHT_HEAD_LENGTH);
    put_number(d, at + CONTENT, FLIGHT_FIGURE_WIDTH, figure);
    put_number(d, at + FLIGHT_ORDER, ORDER_WIDTH, order);
}

// The field of a refusal, at the start of the buffer.
pub fn put_refusal(d: &mut [u8], number: u64, place: u64)
    requires { size_of refusal_form ≤ length d.old }
    ensures { d.new ≡ holding (refusal_bytes number place) d.old }
{
    put_tag(d, 0, PLAN_REFUSAL, REFUSAL_LENGTH);
    put_number(d, CONTENT, REFUSAL_WIDTH, number);
    put_number(d, REFUSAL_PLACE, PLACE_WIDTH, place);
}
