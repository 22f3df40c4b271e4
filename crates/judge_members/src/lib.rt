// The members of a plan's section, one after another, and what is checked at its head. The sections are numbered 1, mosaic; 2, sorting; 3, flight.
#![tactic(auto)]

ghost use Rattle.std.specs.Prelude.{◌≡◌, ◌+◌, ◌*◌, ◌<◌};
ghost use Rattle.sheet.specs.Given.{number_given};
ghost use Rattle.sheet.specs.Sound.{SheetSound};
ghost use Rattle.plan_format.specs.Format.{size_of};
ghost use Rattle.plan_read.specs.PlanRead.{figure_from};
ghost use Rattle.judge_members.specs.Members.{section_of, present, head_form, member_form, member_place, begun, member_follows, after_batch, after_strip, after_member};
ghost use Rattle.judge_members.specs.Members.{head_follows, figure_of, head_number};
ghost use Rattle.judge_members.specs.Laws.{MemberPlacePre, MemberFollowsPre, AfterMemberPre, AfterBatchPre, AfterStripPre, HeadNumberPre, FigureOfPre};

use judge_flight::{flight_figure, flight_head};
use judge_layout::Part;
use judge_rules::{after_job, all_done, batch_follows, block_follows, job_follows};
use plan_format::{
    BATCH_SIZE, FLIGHT_HEAD_SIZE, JOB_SIZE, MOSAIC_HEAD_SIZE, PASSES_SIZE, SORTING_HEAD_SIZE,
};
use plan_read::{
    batch_from, flight_figure_from, job_from, mosaic_figure_from, order_from, passes_from,
    sorting_figure_from,
};
use rules::{Batch, Job};
use running::Desks;
use running::mosaic::batch_weight;
use running::sorting::{desk_time, job_weight};
use sheet::Sheet;
use sheet::desks::strips_in_all;
use sheet::refusals::Refusal;

// How far the members of a section have been judged: the batch before, the desks, the figure so far.
#[derive(Clone, Copy)]
pub struct Progress {
    pub before: Batch,
    pub desks: Desks,
    pub figure: u64,
}

// The numbers of a plan's sections.
pub const MOSAIC: u64 = 1;

pub const SORTING: u64 = 2;

pub const FLIGHT: u64 = 3;

// A section, by its number. Any number but the mosaic's and the sorting's counts as the flight's.
#[derive(Clone, Copy)]
enum Section {
    Mosaic,
    Sorting,
    Flight,
}

impl From<u64> for Section {
    ghost from_gives = { λ number section. section ≡ section_of number };

    fn from(number: u64) -> Section {
        match number {
            MOSAIC => Section::Mosaic,
            SORTING => Section::Sorting,
            _ => Section::Flight,
        }
    }
}

// Whether the sheet has a section.
#[tactic(auto, unfolding(crate::specs::Members::present))]
pub fn is_present(s: Sheet, section: u64) -> bool
    requires { SheetSound s }
    ensures { result ≡ present s section }
{
    match Section::from(section) {
        Section::Mosaic => 0 < s.mosaic.strips,
        Section::Sorting => 0 < strips_in_all(s.sorting),
        Section::Flight => 0 < s.flight.blocks,
    }
}

// The bytes that the head of a section takes.
#[tactic(auto, unfolding(crate::specs::Members::head_form))]
fn head_size(section: u64) -> usize
    ensures { result ≡ size_of (head_form section) }
{
    match Section::from(section) {
        Section::Mosaic => MOSAIC_HEAD_SIZE,
        Section::Sorting => SORTING_HEAD_SIZE,
        Section::Flight => FLIGHT_HEAD_SIZE,
    }
}

// The bytes that each of its members takes.
#[tactic(auto, unfolding(crate::specs::Members::member_form))]
fn member_size(section: u64) -> usize
    ensures { result ≡ size_of (member_form section) }
{
    match Section::from(section) {
        Section::Mosaic => BATCH_SIZE,
        Section::Sorting => JOB_SIZE,
        Section::Flight => PASSES_SIZE,
    }
}

// The place of member k, from 0, of a section whose head stands at an offset.
#[tactic(auto, unfolding(crate::specs::Members::member_place))]
pub fn member_place(section: u64, head: usize, k: usize) -> usize
    requires { MemberPlacePre section head k }
    ensures { result ≡ member_place section head k }
{
    head + head_size(section) + k * member_size(section)
}

// Before the first member.
#[tactic(auto, unfolding(crate::specs::Members::begun, rules::specs::Mosaic::no_batch, running::specs::Running::free_desks))]
pub fn begin() -> Progress
    ensures { result ≡ begun }
{
    Progress {
        before: Batch {
            last: 0,
            start: 0,
            finish: 0,
        },
        desks: Desks {
            done: [0; 3],
            free: [0; 3],
            scanner: 0,
        },
        figure: 0,
    }
}

// Whether member k of a section, which stands at a place, follows what was judged before it.
#[tactic(auto, unfolding(crate::specs::Members::member_follows))]
pub fn member_follows(
    s: Sheet,
    plan: &[u8],
    section: u64,
    k: usize,
    place: usize,
    progress: Progress,
) -> bool
    requires { MemberFollowsPre s progress }
    ensures { result ≡ member_follows s plan.now section k place progress }
{
    match Section::from(section) {
        Section::Mosaic => batch_follows(s.mosaic, progress.before, batch_from(plan, place)),
        Section::Sorting => job_follows(s.sorting, progress.desks, job_from(plan, place)),
        Section::Flight => block_follows(s.flight, k, passes_from(plan, place)),
    }
}

fn after_batch(s: Sheet, progress: Progress, b: Batch) -> Progress
    requires { AfterBatchPre s progress b }
    ensures { result ≡ after_batch s progress b }
{
    let weight = batch_weight(s.mosaic, progress.before, b);
    Progress {
        before: b,
        figure: progress.figure + weight * b.finish,
        ..progress
    }
}

fn after_strip(s: Sheet, progress: Progress, j: Job) -> Progress
    requires { AfterStripPre s progress j }
    ensures { result ≡ after_strip s progress j }
{
    let finish = j.start + desk_time(s.sorting, j);
    let weight = job_weight(s.sorting, j);
    Progress {
        desks: after_job(s.sorting, progress.desks, j),
        figure: progress.figure + weight * finish,
        ..progress
    }
}

// What is judged after a member that follows.
#[tactic(auto, unfolding(crate::specs::Members::after_member))]
pub fn after_member(
    s: Sheet,
    plan: &[u8],
    section: u64,
    place: usize,
    progress: Progress,
) -> Progress
    requires { AfterMemberPre s plan.now section place progress }
    ensures { result ≡ after_member s plan.now section place progress }
{
    match Section::from(section) {
        Section::Mosaic => after_batch(s, progress, batch_from(plan, place)),
        Section::Sorting => after_strip(s, progress, job_from(plan, place)),
        Section::Flight => progress,
    }
}

// Whether a head follows its members.
#[tactic(auto, unfolding(crate::specs::Members::head_follows))]
fn head_follows(s: Sheet, plan: &[u8], section: u64, part: Part, progress: Progress) -> bool
    requires { HeadNumberPre s part }
    ensures { result ≡ head_follows s plan.now section part progress }
{
    match Section::from(section) {
        Section::Mosaic => progress.before.last == s.mosaic.strips as u64,
        Section::Sorting => all_done(s.sorting.counts, progress.desks.done, s.sorting.desks),
        Section::Flight => flight_head(
            s.flight,
            part.members,
            order_from(plan, part.head),
            plan,
            part.head + FLIGHT_HEAD_SIZE,
        ),
    }
}

// The figure that the rules give, the head judged.
#[tactic(auto, unfolding(crate::specs::Members::figure_of))]
fn figure_of(s: Sheet, plan: &[u8], section: u64, part: Part, progress: Progress) -> u64
    requires { FigureOfPre s plan.now section part progress }
    ensures { result ≡ figure_of s plan.now section part progress }
{
    match Section::from(section) {
        Section::Mosaic | Section::Sorting => progress.figure,
        Section::Flight => flight_figure(s.flight, plan, part.head + FLIGHT_HEAD_SIZE),
    }
}

// The figure that the head of a section states.
#[tactic(auto, unfolding(crate::specs::Members::head_form))]
pub fn head_figure(plan: &[u8], section: u64, head: usize) -> u64
    ensures { result ≡ figure_from (head_form section) plan.now head }
{
    match Section::from(section) {
        Section::Mosaic => mosaic_figure_from(plan, head),
        Section::Sorting => sorting_figure_from(plan, head),
        Section::Flight => flight_figure_from(plan, head),
    }
}

// 13 or 14 at a head, unless it follows and its figure is true.
#[tactic(auto, unfolding(crate::specs::Members::head_number, base::specs::Branch::check))]
pub fn check_head(
    s: Sheet,
    plan: &[u8],
    section: u64,
    part: Part,
    progress: Progress,
) -> Result<(), Refusal>
    requires { HeadNumberPre s part }
    ensures { number_given result ≡ head_number s plan.now section part progress }
{
    if !head_follows(s, plan, section, part, progress) {
        return Err(Refusal::RuleBroken);
    }
    if head_figure(plan, section, part.head) != figure_of(s, plan, section, part, progress) {
        return Err(Refusal::FigureUntrue);
    }
    Ok(())
}
