// The functions of `viewer` as C calls them: the archive of this crate has their symbols, and include/sevulamon.h declares them.
#![tactic(auto)]

ghost use Rattle.std.specs.Prelude.{◌≡◌};
ghost use Rattle.judge.specs.Judged.{judged};
ghost use Rattle.page.specs.Call.{Paged};
ghost use Rattle.viewer.specs.Viewed.{Viewed};

use base::Answer;
use judge::Judged;

// Plans a sheet into a buffer.
#[unsafe(no_mangle)]
pub extern "C" fn sevulamon_plan(sheet: &[u8], plan: &mut [u8]) -> Answer
    ensures { Viewed sheet.now plan.old plan.new result }
{
    viewer::sevulamon_plan(sheet, plan)
}

// Judges a plan for a sheet.
#[unsafe(no_mangle)]
pub extern "C" fn sevulamon_judge(sheet: &[u8], plan: &[u8]) -> Judged
    ensures { result ≡ judged sheet.now plan.now }
{
    viewer::sevulamon_judge(sheet, plan)
}

// Prints a plan that the judge allows for a sheet into a page buffer.
#[unsafe(no_mangle)]
pub extern "C" fn sevulamon_page(sheet: &[u8], plan: &[u8], page: &mut [u8]) -> Answer
    ensures { Paged sheet.now plan.now page.old page.new result }
{
    viewer::sevulamon_page(sheet, plan, page)
}
