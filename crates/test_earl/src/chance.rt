//! Bodies and pages at random, held against the plain program.

use crate::book::{HAND, infos, word};
use crate::plain;
use crate::showing::{shown_entries, shown_taken};
use crate::takings::{Scene, row, try_scene};
use crate::tally::Tally;
use earl_in::{Claim, read_earl};
use fixture_dice::Dice;
use judge_core::{Judgement, evidence_digest};
use rule_core::{Auto, RuleNo};
use serde_json::Value;
use snap_tree::{List, NodeId, OutOfMemory, Text};
use std::alloc::Global;

const ROUNDS: usize = 1000;

// What members may be: each is JSON, or nothing where the member is absent.
static SUBJECTS: [&str; 9] = [
    "\"https://example.org/\"",
    "\"https://example.org/\"",
    "{\"@id\":\"https://example.org/\"}",
    "{\"@id\":\"https://example.org/\"}",
    "\"https://example.org/b\"",
    "\"http://www.w3.org/ns/earl#x\"",
    "{\"@id\":5}",
    "7",
    "",
];

static TESTS: [&str; 9] = [
    "\"urn:act-rule:aaaaaa\"",
    "{\"@id\":\"urn:act-rule:aaaaaa\"}",
    "\"urn:act-rule:b4b4b4\"",
    "{\"@id\":\"urn:act-rule:b4b4b4\"}",
    "\"urn:act-rule:cccccc\"",
    "\"urn:act-rule:zzzzzz\"",
    "\"aaaaaa\"",
    "[]",
    "",
];

static MODES: [&str; 8] = [
    "\"earl:manual\"",
    "{\"@id\":\"earl:manual\"}",
    "\"http://www.w3.org/ns/earl#semiAuto\"",
    "{\"@id\":\"http://www.w3.org/ns/earl#semiAuto\"}",
    "\"earl:semiAuto\"",
    "\"earl:automatic\"",
    "\"manual\"",
    "",
];

static OUTCOMES: [&str; 9] = [
    "\"earl:passed\"",
    "\"earl:failed\"",
    "\"earl:cantTell\"",
    "{\"@id\":\"earl:passed\"}",
    "{\"@id\":\"http://www.w3.org/ns/earl#failed\"}",
    "\"http://www.w3.org/ns/earl#cantTell\"",
    "\"earl:untested\"",
    "null",
    "",
];

static POINTERS: [&str; 12] = [
    "\"node 1\"",
    "\"node 2\"",
    "\"node 1\"",
    "\"node 2\"",
    "\"node 4294967295\"",
    "\"node 4294967296\"",
    "\"node 0\"",
    "\"node 01\"",
    "\"node  1\"",
    "\"node +1\"",
    "1",
    "",
];

static NOTES: [&str; 8] = ["", "", " ", " seen", " seen twice", "seen", "  ", "0"];

static NODES: [u32; 3] = [1, 2, 4_294_967_295];

static RULES: [u16; 3] = [3, 9, 1];

static EVIDENCES: [&str; 3] = ["", "x", "y"];

static HANDS: [&str; 2] = [HAND, "bob"];

static STOOD_NOTES: [&str; 3] = ["", "seen", "seen twice"];

static VERDICTS: [Auto; 3] = [Auto::Passed, Auto::Failed, Auto::CantTell];

fn rule(dice: &mut Dice) -> RuleNo {
    RuleNo(dice.pick(RULES.as_slice(), 3))
}

fn node(dice: &mut Dice) -> NodeId {
    NodeId(dice.pick(NODES.as_slice(), 1))
}

// Adds a member, unless it is absent.
fn member(text: &mut String, key: &str, value: &str) -> Result<(), OutOfMemory> {
    if value.is_empty() {
        return Ok(());
    }
    if !text.ends_with("{") {
        text.push(',')?;
    }
    text.push('"')?;
    text.push_str(key)?;
    text.push_str("\":")?;
    text.push_str(value)?;
    Ok(())
}

// The digest of some evidence, mostly in lower case and whole, and a note.
fn info(alloc: Global, dice: &mut Dice) -> Result<String, OutOfMemory> {
    let evidence = Text::from_str(alloc, dice.pick(EVIDENCES.as_slice(), ""))?;
    let digest = evidence_digest(&evidence);
    let digits = match dice.below(8) {
        0 => hex::encode_upper(alloc, digest)?,
        1 => String::from_str(alloc, "00")?,
        _ => hex::encode(alloc, digest)?,
    };
    let note = dice.pick(NOTES.as_slice(), "");
    Ok(format!(in alloc; "\"{digits}{note}\"")?)
}

fn result(alloc: Global, dice: &mut Dice) -> Result<String, OutOfMemory> {
    let mut text = String::from_str(alloc, "{")?;
    member(
        &mut text,
        "earl:outcome",
        dice.pick(OUTCOMES.as_slice(), ""),
    )?;
    member(
        &mut text,
        "earl:pointer",
        dice.pick(POINTERS.as_slice(), ""),
    )?;
    member(&mut text, "earl:info", info(alloc, dice)?.as_str())?;
    text.push('}')?;
    Ok(text)
}

fn entry(alloc: Global, dice: &mut Dice) -> Result<String, OutOfMemory> {
    let mut text = String::from_str(alloc, "{")?;
    member(
        &mut text,
        "earl:subject",
        dice.pick(SUBJECTS.as_slice(), ""),
    )?;
    member(&mut text, "earl:test", dice.pick(TESTS.as_slice(), ""))?;
    member(&mut text, "earl:mode", dice.pick(MODES.as_slice(), ""))?;
    member(&mut text, "earl:result", result(alloc, dice)?.as_str())?;
    text.push('}')?;
    Ok(text)
}

// A list of up to eleven entries.
fn graph(alloc: Global, dice: &mut Dice) -> Result<String, OutOfMemory> {
    let mut text = String::from_str(alloc, "[7")?;
    for _ in 0..dice.below(12) {
        text.push(',')?;
        text.push_str(entry(alloc, dice)?.as_str())?;
    }
    text.push(']')?;
    Ok(text)
}

// A page with the rows of a rule or two on the nodes, and some judgements.
fn page(alloc: Global, dice: &mut Dice) -> Result<Scene, OutOfMemory> {
    let mut scene = Scene::new(alloc);
    for _ in 0..dice.below(9) {
        let auto = word(dice.pick(VERDICTS.as_slice(), Auto::CantTell));
        let auto = if dice.below(2) == 0 { "cantTell" } else { auto };
        let evidence = dice.pick(EVIDENCES.as_slice(), "");
        scene
            .rows
            .push(row(alloc, rule(dice), node(dice), auto, evidence)?)?;
    }
    for _ in 0..dice.below(12) {
        scene.judgements.push(Judgement {
            rule: rule(dice),
            node: node(dice),
            verdict: dice.pick(VERDICTS.as_slice(), Auto::Passed),
            hand: Text::from_str(alloc, dice.pick(HANDS.as_slice(), ""))?,
            note: Text::from_str(alloc, dice.pick(STOOD_NOTES.as_slice(), ""))?,
            evidence: Text::from_str(alloc, dice.pick(EVIDENCES.as_slice(), ""))?,
        })?;
    }
    Ok(scene)
}

// The claims of a list's entries, by the plain program.
fn plainly(alloc: Global, graph: &Value) -> Result<Vec<Option<Claim>>, OutOfMemory> {
    let infos = infos();
    let mut claims = Vec::new(alloc);
    if let Some(entries) = graph.as_array() {
        for entry in entries {
            claims.push(plain::claim(alloc, infos.as_slice(), entry)?)?;
        }
    }
    Ok(claims)
}

// The claims of a body.
fn read(alloc: Global, body: &Value) -> Result<List<Option<Claim>>, OutOfMemory> {
    match read_earl(alloc, infos().as_slice(), body) {
        Ok(claims) => Ok(claims),
        Err(_) => Ok(List::from_vec(Vec::new(alloc))),
    }
}

fn try_round(tally: &mut Tally, dice: &mut Dice, round: usize) -> Result<(), OutOfMemory> {
    let alloc = tally.alloc;
    let graph = graph(alloc, dice)?;
    let body = format!(in alloc; "{{\"@graph\":{graph}}}")?;
    let (Ok(body), Ok(graph)) = (
        Value::from_str(alloc, body.as_str()),
        Value::from_str(alloc, graph.as_str()),
    ) else {
        return tally.expect("chance", round, "JSON", body.as_str());
    };
    let claims = plainly(alloc, &graph)?;
    let came = read(alloc, &body)?.into_vec();
    let wanted = shown_entries(alloc, claims.as_slice())?;
    let shown = shown_entries(alloc, came.as_slice())?;
    tally.expect("chance", round, wanted.as_str(), shown.as_str())?;
    let mut scene = page(alloc, dice)?;
    let rows = scene.rows.as_slice();
    let taken = plain::take(alloc, rows, scene.judgements.as_slice(), claims.as_slice())?;
    let wanted = shown_taken(alloc, &taken)?;
    scene.entries = came;
    try_scene(tally, "chance", round, scene, wanted.as_str())
}

/// Tries a thousand bodies on pages at random.
pub(crate) fn try_at_random(tally: &mut Tally) -> Result<(), OutOfMemory> {
    let mut dice = Dice::new(58);
    for round in 0..ROUNDS {
        try_round(tally, &mut dice, round)?;
    }
    Ok(())
}
