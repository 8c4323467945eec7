//! Judgements whose texts are lent, and which of them stand.

ghost use Rattle.std.specs.Prelude.{◌≡◌, List, IfOk};
ghost use Rattle.judge_core.specs.declared.judgement.Judgement.{Judgement};
ghost use Rattle.earl_in.specs.Standing.{owned, ranked, verdict_of, AreStanding, HasPut};

use judge_core::Judgement;
use rule_core::{Auto, RuleNo};
use snap_tree::{NodeId, OutOfMemory, Text};
use std::alloc::Global;
use std::collections::BTreeSet;

/// A judgement whose texts are lent. The order is by rule and node first.
#[derive(Clone, Copy, PartialEq, Eq, PartialOrd, Ord)]
pub(crate) struct Lent<'a> {
    pub(crate) rule: RuleNo,
    pub(crate) node: NodeId,
    pub(crate) verdict: Rank,
    pub(crate) hand: &'a str,
    pub(crate) note: &'a str,
    pub(crate) evidence: &'a str,
}

/// A verdict, in an order.
#[derive(Clone, Copy, PartialEq, Eq, PartialOrd, Ord)]
pub(crate) enum Rank {
    Passed,
    Failed,
    CantTell,
}

/// Judgements, no two the same.
pub(crate) type Standing<'a> = BTreeSet<Lent<'a>>;

pub(crate) fn ranked(verdict: Auto) -> Rank
    ensures { result ≡ ranked verdict }
{
    match verdict {
        Auto::Passed => Rank::Passed,
        Auto::Failed => Rank::Failed,
        Auto::CantTell => Rank::CantTell,
    }
}

fn verdict_of(rank: Rank) -> Auto
    ensures { result ≡ verdict_of rank }
{
    match rank {
        Rank::Passed => Auto::Passed,
        Rank::Failed => Auto::Failed,
        Rank::CantTell => Auto::CantTell,
    }
}

impl<'a> Lent<'a> {
    /// A judgement that lends its texts.
    fn of(judgement: &'a Judgement) -> Self
        ensures { owned result ≡ judgement.now }
    {
        Lent {
            rule: judgement.rule,
            node: judgement.node,
            verdict: ranked(judgement.verdict),
            hand: judgement.hand.as_str(),
            note: judgement.note.as_str(),
            evidence: judgement.evidence.as_str(),
        }
    }

    /// The judgement, with texts of its own.
    pub(crate) fn owned(self, alloc: Global) -> Result<Judgement, OutOfMemory>
        ensures { IfOk result (λ j. j ≡ owned self.entry) }
    {
        Ok(Judgement {
            rule: self.rule,
            node: self.node,
            verdict: verdict_of(self.verdict),
            hand: Text::from_str(alloc, self.hand)?,
            note: Text::from_str(alloc, self.note)?,
            evidence: Text::from_str(alloc, self.evidence)?,
        })
    }
}

/// The judgements of a list.
pub(crate) fn standing_of<'a>(
    alloc: Global,
    js: &'a [Judgement],
) -> Result<Standing<'a>, OutOfMemory>
    ensures { IfOk result (λ standing. AreStanding standing js.now) }
{
    let mut standing = BTreeSet::new(alloc);
    for judgement in js {
        put(&mut standing, Lent::of(judgement))?;
    }
    Ok(standing)
}

/// Lets a judgement stand: whether it didn't before.
pub(crate) fn put<'a>(standing: &mut Standing<'a>, lent: Lent<'a>) -> Result<bool, OutOfMemory>
    ensures { (js : List Judgement) → AreStanding standing.old js
        → IfOk result (λ fresh. HasPut js (owned lent.entry) fresh standing.new) }
{
    if standing.contains(&lent) {
        return Ok(false);
    }
    standing.insert(lent)?;
    Ok(true)
}
