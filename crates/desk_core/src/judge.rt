ghost use Rattle.std.specs.Prelude.{◌≡◌, [], ◌∷◌, reverse, IfOk, IfErr};
ghost use Rattle.std.specs.List.{find};
ghost use Rattle.std.specs.Option.{option_copied};
ghost use Rattle.judge_core.specs.declared.outcomes.OutRow.{OutRow};
ghost use Rattle.judge_core.specs.Composites.{is_open};
ghost use Rattle.judge_core.specs.Judgements.{is_on};
ghost use Rattle.judge_core.specs.Outcomes.{outcomes};
ghost use Rattle.desk_core.specs.Refusals.{Decision};
ghost use Rattle.desk_core.specs.Judging.{is_latest, added};
ghost use Rattle.desk_core.specs.State.{PageState};
ghost use Rattle.desk_core.specs.Steps.{asked_by};
ghost use Rattle.desk_core.specs.Fitting.{AreNames};
ghost use Rattle.desk_core.specs.InHand.{judging, judge_kept, said_of_row, judgement_of};
ghost use Rattle.desk_core.specs.Serving.{Agrees, Decides, IsTrueTo, JudgesOn, Stands};
ghost use Rattle.desk_core.specs.Told.{told_of};

use crate::decided::Decided;
use crate::look::find_kept;
use crate::more_judged::addition;
use crate::refusal::{Needed, Refusal};
use crate::reply::Reply;
use judge_core::{Judgement, OutRow, Outcomes, evidence_digest};
use keep_core::{Keeper, KeptPage};
use rule_core::{Auto, RuleBook, RuleNo};
use snap_tree::{List, NodeId, OutOfMemory, Text};
use std::alloc::Global;

/// A judgement as it is sent: of which rule on which node, by the digest of the evidence that was seen.
#[derive(Drop)]
pub struct Said {
    pub rule: RuleNo,
    pub node: NodeId,
    pub verdict: Auto,
    pub digest: [u8; 32],
    pub note: Text,
}

/// Judges a rule on a node of a page. The page's outcomes are found anew from its kept ones, and no rule
/// is asked again.
pub fn judge<K: Keeper, B: RuleBook>(
    alloc: Global,
    book: &B,
    keeper: &mut K,
    caller: &Text,
    site: Text,
    page: Text,
    said: Said,
) -> Result<Decided, Refusal>
    requires { AreNames site page }
    ensures { Decides B.book (asked_by caller.now (judging site page said))
        (told_of K.Keeper keeper.old) (told_of K.Keeper keeper.new) result }
{
    let kept = find_kept(alloc, keeper, Needed::Judge, caller, &site, &page)?;
    decide(alloc, book, caller, site, page, said, kept)
}

// What is decided on a judgement of a page, whose outcomes are kept.
fn decide<B: RuleBook>(
    alloc: Global,
    book: &B,
    caller: &Text,
    site: Text,
    page: Text,
    said: Said,
    kept: KeptPage,
) -> Result<Decided, Refusal>
    ensures agrees { IsTrueTo B.book kept → Agrees ⊥ result (judge_kept B.book site caller.now page said kept) }
    ensures judges { JudgesOn site page result }
{
    let row = judged_row(&kept.outcomes, &said, caller, &kept.page.head.hand)?;
    let judgement = judgement_of(alloc, caller, said, row)?;
    let KeptPage {
        judgements,
        outcomes,
        ..
    } = kept;
    added(alloc, book, site, page, judgement, judgements, &outcomes)
}

// The row that is judged: an open one whose evidence the judge saw, of a page that another sent.
fn judged_row<'a>(
    outcomes: &'a Outcomes,
    said: &Said,
    caller: &Text,
    hand: &Text,
) -> Result<&'a OutRow, Refusal>
    ensures row { IfOk result (λ row. (next : OutRow → Decision) → said_of_row outcomes.now hand.now caller.now said.now next ≡ next row.now) }
    ensures refused { IfErr result (λ r. (next : OutRow → Decision) → Stands ⊥ r (said_of_row outcomes.now hand.now caller.now said.now next)) }
{
    let Some(row) = outcomes.row(said.rule, said.node) else {
        return Err(Refusal::NoTarget);
    };
    if !is_open(row.auto) {
        return Err(Refusal::NotOpen {
            automatic: row.auto,
        });
    }
    if *caller == *hand {
        return Err(Refusal::SameHand);
    }
    let current = evidence_digest(&row.evidence);
    if said.digest == current {
        Ok(row)
    } else {
        Err(Refusal::EvidenceMoved { current })
    }
}

fn is_open(auto: Auto) -> bool
    ensures { result ≡ is_open auto }
{
    matches!(auto, Auto::CantTell)
}

// The judgement that is given, of the evidence that the row has.
fn judgement_of(
    alloc: Global,
    caller: &Text,
    said: Said,
    row: &OutRow,
) -> Result<Judgement, OutOfMemory>
    ensures { IfOk result (λ j. j ≡ judgement_of caller.now said row.now) }
{
    let hand = caller.copy(alloc)?;
    let evidence = row.evidence.copy(alloc)?;
    Ok(Judgement {
        rule: said.rule,
        node: said.node,
        verdict: said.verdict,
        hand,
        note: said.note,
        evidence,
    })
}

// A judgement goes to the end of the page's list, unless the latest one is the same.
fn added<B: RuleBook>(
    alloc: Global,
    book: &B,
    site: Text,
    page: Text,
    judgement: Judgement,
    js: List<Judgement>,
    found: &Outcomes,
) -> Result<Decided, Refusal>
    ensures agrees { (kept : PageState) → js ≡ kept.judgements → found.now.rows ≡ outcomes B.book kept.page.tree js
        → Agrees ⊥ result (added B.book site page judgement kept) }
    ensures judges { JudgesOn site page result }
{
    let reply = Reply::Judged {
        rule: judgement.rule,
        node: judgement.node,
        outcome: judgement.verdict,
    };
    if is_latest(&judgement, js.as_slice()) {
        return Ok(Decided {
            change: None,
            reply,
        });
    }
    let change = addition(alloc, book, site, page, alone(alloc, judgement)?, js, found)?;
    Ok(Decided {
        change: Some(change),
        reply,
    })
}

fn alone(alloc: Global, judgement: Judgement) -> Result<List<Judgement>, OutOfMemory>
    ensures { IfOk result (λ js. js ≡ judgement ∷ []) }
{
    let mut judgements = Vec::with_capacity(alloc, 1)?;
    judgements.push(judgement)?;
    Ok(List::from_vec(judgements))
}

// Whether the latest judgement of its rule on its node is the same.
fn is_latest(judgement: &Judgement, js: &[Judgement]) -> bool
    ensures { result ≡ is_latest judgement.now js.now }
{
    match latest_on(judgement.rule, judgement.node, js) {
        Some(latest) => *latest == *judgement,
        None => false,
    }
}

fn latest_on(rule: RuleNo, node: NodeId, js: &[Judgement]) -> Option<&Judgement>
    ensures { option_copied result ≡ find (is_on rule node) (reverse js.now) }
{
    js.iter().rev().find(|j| j.is_on(rule, node))
}
