ghost use Rattle.std.specs.Prelude.{◌≡◌, ◌++◌, IfOk};
ghost use Rattle.judge_core.specs.Outcomes.{outcomes};
ghost use Rattle.desk_core.specs.Judging.{addition, AddsTo};
ghost use Rattle.desk_core.specs.State.{PageState};

use audit::after_judgement;
use judge_core::{Judgement, Outcomes};
use keep_core::Change;
use rule_core::RuleBook;
use snap_tree::{List, OutOfMemory, Text};
use std::alloc::Global;

/// The change by which judgements go to the end of the list of a page, whose outcomes were found under that list.
/// The outcomes under all of them are found from those, and no rule is asked again.
pub fn addition<B: RuleBook>(
    alloc: Global,
    book: &B,
    site: Text,
    page: Text,
    more: List<Judgement>,
    js: List<Judgement>,
    found: &Outcomes,
) -> Result<Change, OutOfMemory>
    ensures is { (kept : PageState) → js ≡ kept.judgements → found.now.rows ≡ outcomes B.book kept.page.tree js
        → IfOk result (λ c. c ≡ addition B.book site page more kept) }
    ensures adds { IfOk result (AddsTo site page) }
{
    let all = joined(alloc, js, &more)?;
    let outcomes = after_judgement(alloc, book, found, all.as_slice())?;
    Ok(Change::AddJudgements {
        site,
        page,
        judgements: more,
        outcomes,
    })
}

fn joined(
    alloc: Global,
    js: List<Judgement>,
    more: &List<Judgement>,
) -> Result<Vec<Judgement>, OutOfMemory>
    ensures { IfOk result (λ all. all.items ≡ js ++ more.now) }
{
    let mut all = js.into_vec();
    let mut more = more.copy(alloc)?.into_vec();
    all.append(&mut more)?;
    Ok(all)
}
