ghost use Rattle.std.specs.Prelude.{◌≡◌, ◌<◌, ◌≤◌, ◌+◌, ◌++◌, List, Some, length, IfOk, OnOk, option_map};
ghost use Rattle.judge_core.specs.declared.judgement.Judgement.{Judgement};
ghost use Rattle.judge_core.specs.declared.outcomes.OutRow.{OutRow};
ghost use Rattle.judge_core.specs.Composites.{is_open};
ghost use Rattle.earl_in.specs.Taking.{judged, judgement_of, taken_of};
ghost use Rattle.earl_in.specs.Standing.{owned, AreStanding, HasRows};
ghost use Rattle.earl_in.specs.Progressing.{HasTaken};

use crate::claim::Claim;
use crate::lent::{Lent, Standing, put, ranked, standing_of};
use crate::limits::MOST_CLAIMS;
use crate::places::{Places, places_of, row_at};
use judge_core::{Judgement, OutRow, Outcomes, evidence_digest};
use rule_core::Auto;
use snap_tree::{List, OutOfMemory, Text};
use std::alloc::Global;

/// What taking claims comes to: each was added, known already, or skipped.
#[derive(Debug, Drop, PartialEq, Eq)]
pub struct Taken {
    /// The judgements to add at the end of the page's, in the order of their claims.
    pub added: List<Judgement>,
    pub known: u32,
    pub skipped: u32,
}

// What was taken so far.
#[derive(Drop)]
pub(crate) struct Progress {
    pub(crate) added: Vec<Judgement>,
    pub(crate) known: u32,
    pub(crate) skipped: u32,
}

/// Takes claims, in their order, on the page at an address, which has these outcomes and these judgements; each is judged by
/// this hand. An entry is skipped where it is no claim, is of another page, its rule has no open outcome on its node, or its
/// digest isn't that of the outcome's evidence. It is known where its judgement stands, or an earlier entry added it. Else its
/// judgement is added. Fails only for want of memory.
pub fn take_claims(
    alloc: Global,
    address: &Text,
    rows: &Outcomes,
    js: &[Judgement],
    hand: &Text,
    claims: &[Option<Claim>],
) -> Result<Taken, OutOfMemory>
    requires { length claims.now ≤ MOST_CLAIMS }
    ensures { IfOk result (λ taken. taken ≡ taken_of address.now rows.now.rows js.now hand.now claims.now) }
{
    let places = places_of(alloc, rows.rows.as_slice())?;
    let mut standing = standing_of(alloc, js)?;
    let mut progress = Progress {
        added: Vec::new(alloc),
        known: 0,
        skipped: 0,
    };
    for claim in claims {
        let lent = meant(address, &places, hand, claim);
        take_entry(alloc, &mut standing, &mut progress, lent)?;
    }
    Ok(Taken {
        added: List::from_vec(progress.added),
        known: progress.known,
        skipped: progress.skipped,
    })
}

// Takes one entry more, of which the judgements of the page and those added so far stand.
fn take_entry<'a>(
    alloc: Global,
    standing: &mut Standing<'a>,
    progress: &mut Progress,
    lent: Option<Lent<'a>>,
) -> Result<(), OutOfMemory>
    requires { progress.old.known + progress.old.skipped < MOST_CLAIMS }
    ensures { (js : List Judgement) → AreStanding standing.old (js ++ progress.old.added.items)
        → OnOk result (HasTaken js (option_map owned lent.entry) progress.old progress.new standing.new) }
{
    match lent {
        Some(lent) => take_judgement(alloc, standing, progress, lent),
        None => {
            progress.skipped += 1;
            Ok(())
        }
    }
}

// Adds a judgement, unless it stands.
fn take_judgement<'a>(
    alloc: Global,
    standing: &mut Standing<'a>,
    progress: &mut Progress,
    lent: Lent<'a>,
) -> Result<(), OutOfMemory>
    requires { progress.old.known + progress.old.skipped < MOST_CLAIMS }
    ensures { (js : List Judgement) → AreStanding standing.old (js ++ progress.old.added.items)
        → OnOk result (HasTaken js (Some (owned lent.entry)) progress.old progress.new standing.new) }
{
    if put(standing, lent)? {
        progress.added.push(lent.owned(alloc)?)?;
        return Ok(());
    }
    progress.known += 1;
    Ok(())
}

// The judgement that an entry is, unless it is skipped.
fn meant<'a>(
    address: &Text,
    places: &Places<'a>,
    hand: &'a Text,
    claim: &'a Option<Claim>,
) -> Option<Lent<'a>>
    ensures { (rows : List OutRow) → HasRows places.now rows
        → option_map owned result ≡ judgement_of address.now rows hand.now claim.now }
{
    let claim = claim.as_ref()?;
    if claim.subject != *address {
        return None;
    }
    judged(hand, claim, row_at(places, claim.rule, claim.node)?)
}

// The judgement of a row that a claim is, where the row is open and the person saw its evidence.
fn judged<'a>(hand: &'a Text, claim: &'a Claim, row: &'a OutRow) -> Option<Lent<'a>>
    ensures { option_map owned result ≡ judged hand.now claim.now row.now }
{
    if is_open(row.auto) && claim.digest == evidence_digest(&row.evidence) {
        Some(Lent {
            rule: claim.rule,
            node: claim.node,
            verdict: ranked(claim.verdict),
            hand: hand.as_str(),
            note: claim.note.as_str(),
            evidence: row.evidence.as_str(),
        })
    } else {
        None
    }
}

fn is_open(auto: Auto) -> bool
    ensures { result ≡ is_open auto }
{
    matches!(auto, Auto::CantTell)
}
