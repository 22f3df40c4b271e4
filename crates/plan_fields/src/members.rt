// The members of the sections: each stores its field, all of a kind are of one size, and a section's are stored one behind the other.
ghost use Rattle.std.specs.Prelude.{◌≡◌, ◌+◌, ◌*◌, ◌≤◌, ℕ, List, length};
ghost use Rattle.field.specs.Put.{put};
ghost use Rattle.plan_format.specs.Format.{size_of, offset_of, batch_form, job_form, passes_form};
ghost use Rattle.rules.specs.Plan.{members_bytes, batch_bytes, job_bytes, passes_bytes};
ghost use Rattle.plan_fields.specs.Stored.{strip_bytes};
ghost use Rattle.plan_fields.specs.MemberLaws.{length_batch, length_job, length_passes};

use crate::tag::put_tag;
use field::put_number;
use plan_format::{
    BATCH_FINISH, BATCH_LENGTH, BATCH_SIZE, BATCH_START, CONTENT, JOB_LENGTH, JOB_NUMBER, JOB_SCAN,
    JOB_SIZE, JOB_START, NUMBER_WIDTH, PASSES_LENGTH, PASSES_SECOND, PASSES_SIZE, TIME_WIDTH,
};
use rules::{Batch, Job, Passes};
use sheet::tags::{PLAN_BATCH, PLAN_BLOCK, PLAN_STRIP};

// A member of a section: the bytes of its field, of a size that all of its kind have.
pub trait Member {
    ghost bytes: { Self → List ℕ };

    ghost SIZE: { ℕ };

    const SIZE: usize;

    // Stores the member's field at an offset.
    fn store(&self, d: &mut [u8], at: usize)
        requires { at + SIZE ≤ length d.old }
        ensures { d.new ≡ put d.old at (bytes self.now) };

    ghost sized: { (member : Self) → length (bytes member) ≡ SIZE };
}

impl Member for Batch {
    ghost bytes = { batch_bytes };

    ghost SIZE = { size_of batch_form };

    const SIZE: usize = BATCH_SIZE;

    fn store(&self, d: &mut [u8], at: usize) {
        put_tag(d, at, PLAN_BATCH, BATCH_LENGTH);
        put_number(d, at + CONTENT, NUMBER_WIDTH, self.last);
        put_number(d, at + BATCH_START, TIME_WIDTH, self.start);
        put_number(d, at + BATCH_FINISH, TIME_WIDTH, self.finish);
    }

    ghost sized = { length_batch };
}

// The field of a job as far as its number within the desk.
fn put_strip(d: &mut [u8], at: usize, desk: u64, number: u64)
    requires { at + offset_of job_form 2 ≤ length d.old }
    ensures { d.new ≡ put d.old at (strip_bytes desk number) }
{
    put_tag(d, at, PLAN_STRIP, JOB_LENGTH);
    put_number(d, at + CONTENT, NUMBER_WIDTH, desk);
    put_number(d, at + JOB_NUMBER, NUMBER_WIDTH, number);
}

impl Member for Job {
    ghost bytes = { job_bytes };

    ghost SIZE = { size_of job_form };

    const SIZE: usize = JOB_SIZE;

    fn store(&self, d: &mut [u8], at: usize) {
        put_strip(d, at, self.desk, self.number);
        put_number(d, at + JOB_SCAN, TIME_WIDTH, self.scan);
        put_number(d, at + JOB_START, TIME_WIDTH, self.start);
    }

    ghost sized = { length_job };
}

impl Member for Passes {
    ghost bytes = { passes_bytes };

    ghost SIZE = { size_of passes_form };

    const SIZE: usize = PASSES_SIZE;

    fn store(&self, d: &mut [u8], at: usize) {
        put_tag(d, at, PLAN_BLOCK, PASSES_LENGTH);
        put_number(d, at + CONTENT, TIME_WIDTH, self.first);
        put_number(d, at + PASSES_SECOND, TIME_WIDTH, self.second);
    }

    ghost sized = { length_passes };
}

// Stores members one behind the other, from an offset on.
pub fn put_members<M: Member>(d: &mut [u8], at: usize, members: &[M])
    requires { at + M.SIZE * length members.now ≤ length d.old }
    ensures { d.new ≡ put d.old at (members_bytes M.bytes members.now) }
{
    for (i, member) in members.iter().enumerate() {
        member.store(d, at + M::SIZE * i);
    }
}
