//! The file `takings`: what taking claims comes to on a page, and that the same taken again adds nothing.

use crate::book::{ADDRESS, HAND, outcome};
use crate::showing::shown_taken;
use crate::tally::Tally;
use earl_in::{Claim, Taken, take_claims};
use judge_core::{Judgement, OutRow, Outcomes, evidence_digest};
use rule_core::{Reason, RuleNo};
use snap_tree::{List, NodeId, OutOfMemory, Text};
use std::alloc::Global;

/// A page, and what was sent of it.
#[derive(Drop)]
pub(crate) struct Scene {
    pub rows: Vec<OutRow>,
    pub judgements: Vec<Judgement>,
    pub entries: Vec<Option<Claim>>,
}

impl Scene {
    /// A page with nothing.
    pub fn new(alloc: Global) -> Self {
        Scene {
            rows: Vec::new(alloc),
            judgements: Vec::new(alloc),
            entries: Vec::new(alloc),
        }
    }

    /// Takes what was sent; None where there are too many entries.
    pub fn taken(self, alloc: Global) -> Result<Option<(Taken, Taken)>, OutOfMemory> {
        let address = Text::from_str(alloc, ADDRESS)?;
        let hand = Text::from_str(alloc, HAND)?;
        let rows = Outcomes {
            rows: List::from_vec(self.rows),
        };
        let entries = self.entries;
        let mut judgements = self.judgements;
        if entries.len() > 10_000 {
            return Ok(None);
        }
        let claims = entries.as_slice();
        let taken = take_claims(alloc, &address, &rows, judgements.as_slice(), &hand, claims)?;
        for added in taken.added.as_slice() {
            judgements.push(added.copy(alloc)?)?;
        }
        let again = take_claims(alloc, &address, &rows, judgements.as_slice(), &hand, claims)?;
        Ok(Some((taken, again)))
    }
}

// The next word of a text, and what follows it.
fn next(text: &str) -> (&str, &str) {
    text.split_once(' ').unwrap_or((text, ""))
}

fn rule_of(word: &str) -> RuleNo {
    RuleNo(word.parse::<u16>().unwrap_or(0))
}

fn node_of(word: &str) -> NodeId {
    NodeId(word.parse::<u32>().unwrap_or(0))
}

/// The row of a rule on a node, with this outcome and evidence.
pub(crate) fn row(
    alloc: Global,
    rule: RuleNo,
    node: NodeId,
    auto: &str,
    evidence: &str,
) -> Result<OutRow, OutOfMemory> {
    Ok(OutRow {
        rule,
        node,
        auto: outcome(auto),
        reason: Reason::Met,
        evidence: Text::from_str(alloc, evidence)?,
        last: outcome(auto),
        hand: Text::new(alloc),
    })
}

// A row of `RULE NODE OUTCOME EVIDENCE`.
fn row_in(alloc: Global, text: &str) -> Result<OutRow, OutOfMemory> {
    let (rule, text) = next(text);
    let (node, text) = next(text);
    let (auto, evidence) = next(text);
    row(alloc, rule_of(rule), node_of(node), auto, evidence)
}

// A judgement of `RULE NODE OUTCOME HAND EVIDENCE NOTE`.
fn judgement_in(alloc: Global, text: &str) -> Result<Judgement, OutOfMemory> {
    let (rule, text) = next(text);
    let (node, text) = next(text);
    let (verdict, text) = next(text);
    let (hand, text) = next(text);
    let (evidence, note) = next(text);
    Ok(Judgement {
        rule: rule_of(rule),
        node: node_of(node),
        verdict: outcome(verdict),
        hand: Text::from_str(alloc, hand)?,
        note: Text::from_str(alloc, note)?,
        evidence: Text::from_str(alloc, evidence)?,
    })
}

// A claim of `RULE NODE OUTCOME EVIDENCE NOTE`, by the digest of the evidence.
fn claim_in(alloc: Global, subject: &str, text: &str) -> Result<Claim, OutOfMemory> {
    let (rule, text) = next(text);
    let (node, text) = next(text);
    let (verdict, text) = next(text);
    let (evidence, note) = next(text);
    let evidence = Text::from_str(alloc, evidence)?;
    let digest = evidence_digest(&evidence);
    Ok(Claim {
        subject: Text::from_str(alloc, subject)?,
        rule: rule_of(rule),
        node: node_of(node),
        verdict: outcome(verdict),
        digest,
        note: Text::from_str(alloc, note)?,
    })
}

// Adds what a line says to the scene, or to what is expected.
fn put_line(
    alloc: Global,
    scene: &mut Scene,
    wanted: &mut String,
    line: &str,
) -> Result<(), OutOfMemory> {
    let (kind, text) = next(line);
    if kind == "row" {
        scene.rows.push(row_in(alloc, text)?)?;
    } else if kind == "judged" {
        scene.judgements.push(judgement_in(alloc, text)?)?;
    } else if kind == "claim" {
        scene.entries.push(Some(claim_in(alloc, ADDRESS, text)?))?;
    } else if kind == "elsewhere" {
        let claim = claim_in(alloc, "https://example.org/b", text)?;
        scene.entries.push(Some(claim))?;
    } else if kind == "none" {
        scene.entries.push(None)?;
    } else {
        wanted.push_str(line)?;
        wanted.push('\n')?;
    }
    Ok(())
}

// How many entries weren't skipped, of which all are known when they are taken again.
fn shown_again(alloc: Global, first: &Taken) -> Result<String, OutOfMemory> {
    let known = (first.added.len() as u64).saturating_add(u64::from(first.known));
    let skipped = first.skipped;
    Ok(format!(in alloc; "known {known} skipped {skipped}\n")?)
}

/// Takes what was sent of a page, and again after that; both have to be as expected.
pub(crate) fn try_scene(
    tally: &mut Tally,
    place: &str,
    number: usize,
    scene: Scene,
    wanted: &str,
) -> Result<(), OutOfMemory> {
    let alloc = tally.alloc;
    let Some((taken, again)) = scene.taken(alloc)? else {
        return tally.expect(place, number, wanted, "too many entries");
    };
    let came = shown_taken(alloc, &taken)?;
    tally.expect(place, number, wanted, came.as_str())?;
    let came = shown_taken(alloc, &again)?;
    let wanted = shown_again(alloc, &taken)?;
    tally.expect(place, number, wanted.as_str(), came.as_str())
}

/// Tries each case of the file: a case ends with an empty line.
pub(crate) fn try_takings(tally: &mut Tally, text: &str) -> Result<(), OutOfMemory> {
    let alloc = tally.alloc;
    let mut scene = Scene::new(alloc);
    let mut wanted = String::new(alloc);
    let mut number = 0usize;
    for line in text.lines() {
        number = number.saturating_add(1);
        if line.starts_with("#") {
            continue;
        }
        if !line.is_empty() {
            put_line(alloc, &mut scene, &mut wanted, line)?;
        } else if !wanted.is_empty() {
            try_scene(tally, "takings", number, scene, wanted.as_str())?;
            scene = Scene::new(alloc);
            wanted = String::new(alloc);
        }
    }
    Ok(())
}
