//! As many entries as are read at once, and one more; and as many claims on as many rows with as many judgements.

use crate::book::{ADDRESS, HAND};
use crate::showing::shown_body;
use crate::takings::{Scene, row};
use crate::tally::Tally;
use earl_in::Claim;
use judge_core::{Judgement, evidence_digest};
use rule_core::{Auto, RuleNo};
use snap_tree::{NodeId, OutOfMemory, Text};
use std::alloc::Global;

const MANY: u32 = 10_000;

// A body of so many entries that are no claims.
fn body(alloc: Global, count: u32) -> Result<String, OutOfMemory> {
    let mut text = String::from_str(alloc, "{\"@graph\":[7")?;
    for _ in 1..count {
        text.push_str(",7")?;
    }
    text.push_str("]}")?;
    Ok(text)
}

fn try_counts(tally: &mut Tally) -> Result<(), OutOfMemory> {
    let alloc = tally.alloc;
    let most = shown_body(alloc, body(alloc, MANY)?.as_str())?;
    let skips = most.split(", ").filter(|entry| *entry == "skipped").count();
    let skips = format!(in alloc; "{skips}")?;
    tally.expect("large", 10_000, "10000", skips.as_str())?;
    let more = shown_body(alloc, body(alloc, MANY.saturating_add(1))?.as_str())?;
    tally.expect("large", 10_001, "Graph", more.as_str())
}

fn judgement(alloc: Global, node: u32, hand: &str) -> Result<Judgement, OutOfMemory> {
    Ok(Judgement {
        rule: RuleNo(3),
        node: NodeId(node),
        verdict: Auto::Passed,
        hand: Text::from_str(alloc, hand)?,
        note: Text::new(alloc),
        evidence: Text::from_str(alloc, "x")?,
    })
}

fn claim(alloc: Global, node: u32) -> Result<Claim, OutOfMemory> {
    let evidence = Text::from_str(alloc, "x")?;
    let digest = evidence_digest(&evidence);
    Ok(Claim {
        subject: Text::from_str(alloc, ADDRESS)?,
        rule: RuleNo(3),
        node: NodeId(node),
        verdict: Auto::Passed,
        digest,
        note: Text::new(alloc),
    })
}

// Half of the judgements are by who sends the claims.
fn scene(alloc: Global) -> Result<Scene, OutOfMemory> {
    let mut scene = Scene::new(alloc);
    for node in 1..=MANY {
        let hand = if node <= 5000 { HAND } else { "bob" };
        scene
            .rows
            .push(row(alloc, RuleNo(3), NodeId(node), "cantTell", "x")?)?;
        scene.judgements.push(judgement(alloc, node, hand)?)?;
        scene.entries.push(Some(claim(alloc, node)?))?;
    }
    Ok(scene)
}

/// Tries bodies with 10,000 and 10,001 entries, and 10,000 claims that are taken.
pub(crate) fn try_large(tally: &mut Tally) -> Result<(), OutOfMemory> {
    try_counts(tally)?;
    let alloc = tally.alloc;
    let counts = match scene(alloc)?.taken(alloc)? {
        Some((taken, again)) => {
            let added = taken.added.len();
            let known = taken.known;
            let more = again.added.len();
            let all = again.known;
            format!(in alloc; "added {added} known {known} again {more} known {all}")?
        }
        None => String::from_str(alloc, "too many entries")?,
    };
    let wanted = "added 5000 known 5000 again 0 known 10000";
    tally.expect("large", 10_000, wanted, counts.as_str())
}
