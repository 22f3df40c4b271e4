// The functions of the count viewer, which is written in C: thin, over the planner, the judge and the page. The working table is supplied here. The crate
// viewer_c exports them under the same names.
#![tactic(auto)]

ghost use Rattle.std.specs.Prelude.{◌≡◌};
ghost use Rattle.judge.specs.Judged.{judged};
ghost use Rattle.page.specs.Call.{Paged};
ghost use Rattle.viewer.specs.Viewed.{Viewed};

use base::Answer;
use judge::Judged;
use sheet::limits::TABLE_LENGTH;

// Plans a sheet into a buffer.
pub fn sevulamon_plan(sheet: &[u8], plan: &mut [u8]) -> Answer
    ensures { Viewed sheet.now plan.old plan.new result }
{
    let mut table = [0u64; TABLE_LENGTH];
    planner::plan(sheet, plan, &mut table)
}

// Judges a plan for a sheet.
pub fn sevulamon_judge(sheet: &[u8], plan: &[u8]) -> Judged
    ensures { result ≡ judged sheet.now plan.now }
{
    judge::judge(sheet, plan)
}

// Prints a plan that the judge allows for a sheet into a page buffer.
pub fn sevulamon_page(sheet: &[u8], plan: &[u8], page: &mut [u8]) -> Answer
    ensures { Paged sheet.now plan.now page.old page.new result }
{
    page::page(sheet, plan, page)
}
