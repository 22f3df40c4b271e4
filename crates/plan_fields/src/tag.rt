// What every field begins with.
ghost use Rattle.std.specs.Prelude.{◌≡◌, ◌+◌, ◌≤◌, length};
ghost use Rattle.field.specs.Put.{put};
ghost use Rattle.plan_fields.specs.Stored.{tag_bytes};

use field::put_number;

// A field's tag and content length.
pub fn put_tag(d: &mut [u8], at: usize, tag: u8, len: usize)
    requires { at + 3 ≤ length d.old }
    ensures { d.new ≡ put d.old at (tag_bytes tag len) }
{
    d[at] = tag;
    put_number(d, at + 1, 2, len as u64);
}
