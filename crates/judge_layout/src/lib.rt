// The layout of a plan: its sections, each a head and the members that follow.
#![tactic(auto)]

ghost use Rattle.std.specs.Prelude.{◌≡◌, ◌+◌, ◌≤◌, ◌<◌, length, cond};
ghost use Rattle.field.specs.Field.{field_at};
ghost use Rattle.sheet.specs.Refusals.{layout_wrong};
ghost use Rattle.judge_layout.specs.Layout.{is_field, part_from, part_of, mosaic_part, sorting_part, flight_part, verdict, verdict_of, layout_verdict};
ghost use Rattle.judge_layout.specs.Laws.{PartFromPre, LayoutVerdictPre};
ghost use Rattle.sheet.specs.Sound.{SortingSound};

use field::{Field, field_at};
use plan_format::{
    BATCH_LENGTH, CONTENT, FLIGHT_HEAD_LENGTH, JOB_LENGTH, MOSAIC_HEAD_LENGTH, PASSES_LENGTH,
    SORTING_HEAD_LENGTH,
};
use sheet::Sheet;
use sheet::desks::strips_in_all;
use sheet::refusals::{Refusal, Refused};
use sheet::tags::{PLAN_BATCH, PLAN_BLOCK, PLAN_FLIGHT, PLAN_MOSAIC, PLAN_SORTING, PLAN_STRIP};

// A section of a plan: the place of its head, its members, and the place behind its last one. Where its head is not the one due, it is not right.
#[derive(Clone, Copy)]
pub struct Part {
    pub right: bool,
    pub head: usize,
    pub members: usize,
    pub end: usize,
}

// A field that is due: its tag and the length of its content.
#[derive(Clone, Copy)]
struct Due {
    tag: u8,
    length: usize,
}

const MOSAIC_HEAD: Due = Due {
    tag: PLAN_MOSAIC,
    length: MOSAIC_HEAD_LENGTH,
};

const BATCH: Due = Due {
    tag: PLAN_BATCH,
    length: BATCH_LENGTH,
};

const SORTING_HEAD: Due = Due {
    tag: PLAN_SORTING,
    length: SORTING_HEAD_LENGTH,
};

const STRIP: Due = Due {
    tag: PLAN_STRIP,
    length: JOB_LENGTH,
};

const FLIGHT_HEAD: Due = Due {
    tag: PLAN_FLIGHT,
    length: FLIGHT_HEAD_LENGTH,
};

const BLOCK: Due = Due {
    tag: PLAN_BLOCK,
    length: PASSES_LENGTH,
};

// Whether the field that is due stands at an offset.
#[tactic(auto, unfolding(crate::specs::Layout::is_field))]
fn is_field(plan: &[u8], at: usize, due: Due) -> bool
    ensures { result ≡ is_field (field_at plan.now at) due.tag due.length }
{
    match field_at(plan, at) {
        Field::End | Field::Cut => false,
        Field::Whole(tag, length) => tag == due.tag && length == due.length,
    }
}

// The section whose head stands at an offset, with the members that follow it.
fn part_from(plan: &[u8], at: usize, head: Due, member: Due) -> Part
    requires { PartFromPre plan.now at head.length member.length }
    ensures { result ≡ part_from plan.now at head.length member.tag member.length }
{
    let mut end = at + (CONTENT + head.length);
    let mut members: usize = 0;
    while is_field(plan, end, member) {
        end += CONTENT + member.length;
        members += 1;
    }
    Part {
        right: true,
        head: at,
        members,
        end,
    }
}

// A section of a plan at an offset: absent, not right, or with its members.
#[tactic(auto, unfolding(crate::specs::Layout::part_of))]
fn part_of(present: bool, plan: &[u8], at: usize, head: Due, member: Due) -> Part
    requires { member.length ≤ 65535 }
    ensures { result ≡ part_of present plan.now at head.tag head.length member.tag member.length }
{
    let absent = Part {
        right: true,
        head: at,
        members: 0,
        end: at,
    };
    if !present {
        return absent;
    }
    if !is_field(plan, at, head) {
        return Part {
            right: false,
            ..absent
        };
    }
    part_from(plan, at, head, member)
}

#[tactic(auto, unfolding(crate::specs::Layout::mosaic_part))]
pub fn mosaic_part(s: Sheet, plan: &[u8]) -> Part
    ensures { result ≡ mosaic_part s plan.now }
{
    part_of(0 < s.mosaic.strips, plan, 0, MOSAIC_HEAD, BATCH)
}

// The sorting of a plan, whose mosaic ends at an offset.
#[tactic(auto, unfolding(crate::specs::Layout::sorting_part))]
pub fn sorting_part(s: Sheet, plan: &[u8], at: usize) -> Part
    requires { (SortingSound s.sorting) × (at ≡ (mosaic_part s plan.now).end) }
    ensures { result ≡ sorting_part s plan.now }
{
    part_of(0 < strips_in_all(s.sorting), plan, at, SORTING_HEAD, STRIP)
}

// The flight of a plan, whose sorting ends at an offset.
#[tactic(auto, unfolding(crate::specs::Layout::flight_part))]
pub fn flight_part(s: Sheet, plan: &[u8], at: usize) -> Part
    requires { at ≡ (sorting_part s plan.now).end }
    ensures { result ≡ flight_part s plan.now }
{
    part_of(0 < s.flight.blocks, plan, at, FLIGHT_HEAD, BLOCK)
}

// 12 at a place, unless the layout is right there.
#[tactic(auto, unfolding(crate::specs::Layout::verdict))]
fn check_place(right: bool, place: usize) -> Result<(), Refused>
    ensures { verdict_of result ≡ cond right (verdict 0 0) (verdict layout_wrong place) }
{
    if right {
        Ok(())
    } else {
        Err(Refused {
            refusal: Refusal::LayoutWrong,
            place,
        })
    }
}

// 12 at the first place where the plan is not laid out as its sheet asks.
#[tactic(auto, unfolding(crate::specs::Layout::layout_verdict, crate::specs::Layout::verdict))]
pub fn layout_verdict(
    s: Sheet,
    plan: &[u8],
    mosaic: Part,
    sorting: Part,
    flight: Part,
) -> Result<(), Refused>
    requires { LayoutVerdictPre s plan.now mosaic sorting flight }
    ensures { verdict_of result ≡ layout_verdict s plan.now }
{
    check_place(mosaic.right, mosaic.head)?;
    check_place(sorting.right, sorting.head)?;
    check_place(flight.right, flight.head)?;
    check_place(flight.end == plan.len(), flight.end)
}
