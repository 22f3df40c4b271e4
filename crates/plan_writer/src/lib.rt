// The bytes of a plan, stored into the lent buffer: its sections one behind the other, each a head and its members.
#![tactic(auto)]

ghost use Rattle.field.specs.Put.{Written};
ghost use Rattle.rules.specs.Plan.{mosaic_bytes, sorting_bytes, flight_bytes, if_present};
ghost use Rattle.mosaic.specs.Plan.{batches_of};
ghost use Rattle.sorting.specs.Plan.{jobs_of_plan};
ghost use Rattle.flight.specs.Choice.{passes_of_plan};
ghost use Rattle.plan_writer.specs.Written.{WriteMosaicPre, WriteSortingPre, WriteFlightPre, WritePlanPre, plan_of};

use flight::FlightPlan;
use mosaic::MosaicPlan;
use plan_fields::heads::{put_flight_head, put_mosaic_head, put_sorting_head};
use plan_fields::members::put_members;
use plan_format::{
    BATCH_SIZE, FLIGHT_HEAD_SIZE, JOB_SIZE, MOSAIC_HEAD_SIZE, PASSES_SIZE, SORTING_HEAD_SIZE,
};
use sheet::Sheet;
use sheet::desks::strips_in_all;
use sorting::SortingPlan;

// The mosaic section of a plan, none where the sheet has no strip of it. Returns the offset behind it.
fn write_mosaic(d: &mut [u8], at: usize, strips: usize, p: MosaicPlan) -> usize
    requires { WriteMosaicPre d.old at p }
    ensures { Written d.old d.new at (if_present strips (mosaic_bytes p.figure (batches_of p))) result }
{
    if strips < 1 {
        return at;
    }
    put_mosaic_head(d, at, p.figure);
    put_members(d, at + MOSAIC_HEAD_SIZE, &p.batches[..p.count]);
    at + MOSAIC_HEAD_SIZE + BATCH_SIZE * p.count
}

// The sorting section of a plan, none where the sheet has no strip of it. Returns the offset behind it.
fn write_sorting(d: &mut [u8], at: usize, strips: usize, p: SortingPlan) -> usize
    requires { WriteSortingPre d.old at p }
    ensures { Written d.old d.new at (if_present strips (sorting_bytes p.figure (jobs_of_plan p))) result }
{
    if strips < 1 {
        return at;
    }
    put_sorting_head(d, at, p.figure);
    put_members(d, at + SORTING_HEAD_SIZE, &p.jobs[..p.count]);
    at + SORTING_HEAD_SIZE + JOB_SIZE * p.count
}

// The flight section of a plan of n blocks, none where the sheet has no block. Returns the offset behind it.
fn write_flight(d: &mut [u8], at: usize, n: usize, p: FlightPlan) -> usize
    requires { WriteFlightPre d.old at n }
    ensures { Written d.old d.new at (if_present n (flight_bytes p.figure p.order (passes_of_plan n p))) result }
{
    if n < 1 {
        return at;
    }
    put_flight_head(d, at, p.figure, p.order);
    put_members(d, at + FLIGHT_HEAD_SIZE, &p.blocks[..n]);
    at + FLIGHT_HEAD_SIZE + PASSES_SIZE * n
}

// The plan of a sheet from the plans of its sections, at the start of the buffer. Returns its length.
pub fn write_plan(d: &mut [u8], s: Sheet, m: MosaicPlan, t: SortingPlan, f: FlightPlan) -> usize
    requires { WritePlanPre d.old s m t }
    ensures { Written d.old d.new 0 (plan_of s m t f) result }
{
    let strips = strips_in_all(s.sorting);
    let sorting_at = write_mosaic(d, 0, s.mosaic.strips, m);
    let flight_at = write_sorting(d, sorting_at, strips, t);
    write_flight(d, flight_at, s.flight.blocks, f)
}
