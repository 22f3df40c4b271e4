// The judge of a plan: from the rules alone, the number and place of the first fault, or the figure of each section, and where the sections stand.
#![tactic(auto)]

ghost use Rattle.std.specs.Prelude.{◌≡◌, ◌+◌, ◌<◌};
ghost use Rattle.sheet.specs.Sound.{SheetSound};
ghost use Rattle.judge_layout.specs.Layout.{verdict_of};
ghost use Rattle.judge.specs.Judged.{pick_part, sections_from, stated_figure, turned_back, answer_of, judged_plan, judged};
ghost use Rattle.judge.specs.Examined.{no_part, examined_plan, examined};
ghost use Rattle.judge.specs.Loops.{SectionPre, SectionsPre};

use judge_layout::{Part, flight_part, layout_verdict, mosaic_part, sorting_part};
use judge_members::{
    FLIGHT, MOSAIC, SORTING, after_member, begin, check_head, head_figure, is_present,
    member_follows, member_place,
};
use sheet::Sheet;
use sheet::refusals::{Refusal, Refused};
use sheet_reader::read;

// What the judge answers: number 0, place 0 and the figure of each section, 0 for an absent one; or the number and place of a fault and no figure.
#[repr(C)]
#[derive(Clone, Copy)]
pub struct Judged {
    pub number: u64,
    pub place: usize,
    pub mosaic: u64,
    pub sorting: u64,
    pub flight: u64,
}

// What examining a plan gives: the judge's answer, and where the sections of the plan stand.
#[derive(Clone, Copy)]
pub struct Examined {
    pub judged: Judged,
    pub mosaic: Part,
    pub sorting: Part,
    pub flight: Part,
}

#[tactic(auto, unfolding(crate::specs::Judged::turned_back))]
fn turn_back(number: u64, place: usize) -> Judged
    ensures { result ≡ turned_back number place }
{
    Judged {
        number,
        place,
        mosaic: 0,
        sorting: 0,
        flight: 0,
    }
}

// No section: what a sheet that is turned back has.
#[tactic(auto, unfolding(crate::specs::Examined::no_part))]
fn no_part() -> Part
    ensures { result ≡ no_part }
{
    Part {
        right: true,
        head: 0,
        members: 0,
        end: 0,
    }
}

// The section of a plan by its number.
#[tactic(auto, unfolding(crate::specs::Judged::pick_part))]
fn pick_part(section: u64, mosaic: Part, sorting: Part, flight: Part) -> Part
    ensures { result ≡ pick_part section mosaic sorting flight }
{
    match section {
        MOSAIC => mosaic,
        SORTING => sorting,
        _ => flight,
    }
}

// Judges section by section the members in order, then the head. The first field that breaks a rule ends the judging.
fn judge_sections(
    s: Sheet,
    plan: &[u8],
    mosaic: Part,
    sorting: Part,
    flight: Part,
) -> Result<(), Refused>
    requires { SectionsPre s plan.now mosaic sorting flight }
    ensures { verdict_of result ≡ sections_from 3 s plan.now 1 }
{
    'sections: {
        for section in MOSAIC..=FLIGHT {
            if !is_present(s, section) {
                continue;
            }
            let part = pick_part(section, mosaic, sorting, flight);
            let mut progress = begin();
            for k in 0..part.members {
                let at = member_place(section, part.head, k);
                if !member_follows(s, plan, section, k, at, progress) {
                    break 'sections Err(Refused {
                        refusal: Refusal::RuleBroken,
                        place: at,
                    });
                }
                progress = after_member(s, plan, section, at, progress);
            }
            if let Err(refusal) = check_head(s, plan, section, part, progress) {
                break 'sections Err(Refused {
                    refusal,
                    place: part.head,
                });
            }
        }
        Ok(())
    }
}

// The figure that a plan states at the head of a section, 0 for an absent one.
#[tactic(auto, unfolding(crate::specs::Judged::stated_figure))]
fn stated_figure(s: Sheet, plan: &[u8], section: u64, part: Part) -> u64
    requires { SectionPre s plan.now section part }
    ensures { result ≡ stated_figure s plan.now section }
{
    if is_present(s, section) {
        head_figure(plan, section, part.head)
    } else {
        0
    }
}

// Judges a plan for a sound sheet: its layout, then its sections.
#[tactic(auto, using(crate::specs::Loops::each_section), unfolding(crate::specs::Judged::judged_plan, crate::specs::Judged::concluded, crate::specs::Judged::found, crate::specs::Judged::sections_from, judge_layout::specs::Layout::verdict))]
fn judge_plan(
    s: Sheet,
    plan: &[u8],
    mosaic: Part,
    sorting: Part,
    flight: Part,
) -> Result<Judged, Refused>
    requires { SectionsPre s plan.now mosaic sorting flight }
    ensures { answer_of result ≡ judged_plan s plan.now }
{
    layout_verdict(s, plan, mosaic, sorting, flight)?;
    judge_sections(s, plan, mosaic, sorting, flight)?;
    Ok(Judged {
        number: 0,
        place: 0,
        mosaic: stated_figure(s, plan, MOSAIC, mosaic),
        sorting: stated_figure(s, plan, SORTING, sorting),
        flight: stated_figure(s, plan, FLIGHT, flight),
    })
}

// Examines a plan for a sound sheet.
#[tactic(auto, unfolding(crate::specs::Examined::examined_plan))]
fn examine_plan(s: Sheet, plan: &[u8]) -> Examined
    requires { SheetSound s }
    ensures { result ≡ examined_plan s plan.now }
{
    let mosaic = mosaic_part(s, plan);
    let sorting = sorting_part(s, plan, mosaic.end);
    let flight = flight_part(s, plan, sorting.end);
    let judged = match judge_plan(s, plan, mosaic, sorting, flight) {
        Ok(judged) => judged,
        Err(refused) => turn_back(refused.refusal.number(), refused.place),
    };
    Examined {
        judged,
        mosaic,
        sorting,
        flight,
    }
}

// Examines a plan for a sheet, for all contents and lengths of both. Where the sheet is turned back, no section is looked for.
#[tactic(auto, unfolding(crate::specs::Examined::examined))]
pub fn examine(sheet: &[u8], plan: &[u8]) -> Examined
    ensures { result ≡ examined sheet.now plan.now }
{
    let s = read(sheet);
    if s.number != 0 {
        return Examined {
            judged: turn_back(s.number, s.place),
            mosaic: no_part(),
            sorting: no_part(),
            flight: no_part(),
        };
    }
    examine_plan(s, plan)
}

// Judges a plan for a sheet, for all contents and lengths of both.
pub fn judge(sheet: &[u8], plan: &[u8]) -> Judged
    ensures { result ≡ judged sheet.now plan.now }
{
    examine(sheet, plan).judged
}
