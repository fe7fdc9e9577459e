//! A plan from its text.

ghost use Rattle.std.specs.Prelude.{◌≡◌, ◌+◌, ◌<◌, ◌^◌, ◌==◌, ◌&&◌, ◌++◌, ◌∷◌, []};
ghost use Rattle.std.specs.Prelude.{List, IfOk, IfErr};
ghost use Rattle.std.specs.Prelude.{MatchOption, MatchResult, position, length};
ghost use Rattle.lpis_country.specs.Tree.{Tree};
ghost use Rattle.lpis_country.specs.CountryText.{IsCountryText, TreeLine, country_head};
ghost use Rattle.lpis_country.specs.Faults.{IsFirstPlanFault, is_line_feed, owing_first};
ghost use Rattle.lpis_country.specs.Faults.{plan_lines};
ghost use Rattle.lpis_country.specs.Plans.{IsPlanOf};
ghost use Rattle.lpis_country.specs.private.Drafts.{IsDraftOf, IsEnded, IsPlanOfLines};
ghost use Rattle.lpis_country.specs.private.Drafts.{PlanFaultFrom, TakesPlanLine, owing_of};

use crate::draft::Draft;
use crate::fault::PlanFault;
use crate::plan::Plan;
use std::alloc::Global;

/// The first line, without its line feed.
const HEAD: &str = "lpis-country 1";

fn line_end(text: &[u8]) -> Option<usize>
    ensures { result ≡ position is_line_feed text.now }
{
    text.iter().position(|b| *b == b'\n')
}

/// The first line, and what comes after its line feed.
fn front_line(text: &[u8]) -> Option<(&[u8], &[u8])>
    ensures { MatchOption result (plan_lines text.now ≡ text.now ∷ [])
        (λ x. TakesPlanLine text.now x.0.now x.1.now) }
{
    match line_end(text) {
        None => None,
        Some(at) => Some((&text[..at], &text[at + 1..])),
    }
}

/// What comes after the first line.
fn after_head(text: &[u8]) -> Result<&[u8], PlanFault>
    ensures ok { IfOk result (λ rest. text.now ≡ country_head ++ (10 ∷ rest.now)) }
    ensures err { IfErr result (λ e. IsFirstPlanFault e text.now) }
{
    let Some((line, rest)) = front_line(text) else {
        return Err(PlanFault::At { line: 1 });
    };
    if line == HEAD.as_bytes() {
        Ok(rest)
    } else {
        Err(PlanFault::At { line: 1 })
    }
}

/// Whether nothing is owed, and nothing is left.
fn is_done(draft: &Draft, rest: &[u8]) -> bool
    ensures { result ≡ (length draft.now.rooms == 0 && length rest.now == 0) }
{
    draft.rooms.is_empty() && rest.is_empty()
}

/// The plan of a draft that owes nothing, where nothing comes after its last line.
fn ended(draft: Draft, rest: &[u8], line: u64) -> Result<Plan, PlanFault>
    requires begun { (said : List TreeLine) × IsDraftOf said draft }
    requires last { plan_lines rest.now ≡ rest.now ∷ [] }
    ensures ok { IfOk result (λ plan. IsEnded draft rest.now plan) }
    ensures err { IfErr result (λ e. PlanFaultFrom e line (owing_of draft) rest.now) }
{
    if is_done(&draft, rest) {
        Ok(Plan::new(draft.names.into_list(), draft.tiles))
    } else {
        Err(PlanFault::At { line })
    }
}

/// The plan of the lines after the first.
fn read_lines(alloc: Global, start: &[u8]) -> Result<Plan, PlanFault>
    requires { length start.now + 2 < 2 ^ 64 }
    ensures ok { IfOk result (λ plan. IsPlanOfLines start.now plan) }
    ensures err { IfErr result (λ e. PlanFaultFrom e 2 owing_first start.now) }
{
    let mut draft = Draft::new(alloc)?;
    let mut rest = start;
    let mut line = 2;
    'reading: loop {
        let Some((bytes, after)) = front_line(rest) else {
            return ended(draft, rest, line);
        };
        match draft.grown(alloc, bytes)? {
            Some(grown) => draft = grown,
            None => return Err(PlanFault::At { line }),
        }
        rest = after;
        line += 1;
    }
}

/// The plan of a text, or the text's first fault.
fn read_text(alloc: Global, text: &[u8]) -> Result<Plan, PlanFault>
    ensures found { IfOk result (λ plan. (t : Tree) × IsCountryText text.now t × IsPlanOf t plan) }
    ensures fault { IfErr result (λ e. IsFirstPlanFault e text.now) }
{
    let lines = after_head(text)?;
    read_lines(alloc, lines)
}

/// The plan of a text, or the text's first fault.
pub fn read_plan(alloc: Global, text: &[u8]) -> Result<Plan, PlanFault>
    // What is read is the plan of a tree of which this is the text.
    ensures found { IfOk result (λ plan. (t : Tree) × IsCountryText text.now t × IsPlanOf t plan) }
    // The plan of a tree is read from its text, unless memory runs out.
    ensures only { (t : Tree) → IsCountryText text.now t
        → MatchResult result (λ plan. IsPlanOf t plan) (λ e. e ≡ PlanFault.Memory) }
    // A fault is the first fault of the text.
    ensures fault { IfErr result (λ e. IsFirstPlanFault e text.now) }
{
    read_text(alloc, text)
}
