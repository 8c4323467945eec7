use judge_core::{
    Judgement, OutRow, Outcomes, laws_of_equality, laws_of_judgements, laws_of_merging,
};
use rule_core::{Auto, Reason, RuleNo};
use snap_tree::{List, NodeId, OutOfMemory, Text};
use std::alloc::Global;
use std::test::Fail;

fn row(alloc: Global, rule: u16, node: u32, hand: &str) -> Result<OutRow, OutOfMemory> {
    Ok(OutRow {
        rule: RuleNo(rule),
        node: NodeId(node),
        auto: Auto::CantTell,
        reason: Reason::JudgeHeading,
        evidence: Text::from_str(alloc, "Hours")?,
        last: Auto::Passed,
        hand: Text::from_str(alloc, hand)?,
    })
}

fn outcomes_of(row: OutRow, alloc: Global) -> Result<Outcomes, Fail> {
    let mut rows = Vec::new(alloc);
    rows.push(row)?;
    Ok(Outcomes {
        rows: List::from_vec(rows),
    })
}

// The rule, the node and the hand of rows that differ from `row(16, 7, "bob")`.
static OTHERS: [(u16, u32, &str); 3] = [(15, 7, "bob"), (16, 8, "bob"), (16, 7, "ann")];

// Whether outcomes of one other row differ.
fn differ(alloc: Global, outcomes: &Outcomes, other: &(u16, u32, &str)) -> Result<bool, Fail> {
    let (rule, node, hand) = *other;
    let other = outcomes_of(row(alloc, rule, node, hand)?, alloc)?;
    Ok(other != *outcomes)
}

fn all_differ(alloc: Global, outcomes: &Outcomes) -> Result<bool, Fail> {
    for other in OTHERS.as_slice() {
        if !differ(alloc, outcomes, other)? {
            return Ok(false);
        }
    }
    Ok(true)
}

// Whether outcomes have the row of rule 16 on node 7, and no other of these.
fn has_its_row(outcomes: &Outcomes) -> bool {
    outcomes.row(RuleNo(16), NodeId(7)).is_some()
        && outcomes.row(RuleNo(16), NodeId(8)).is_none()
        && outcomes.row(RuleNo(15), NodeId(7)).is_none()
}

fn copy_equals(alloc: Global) -> Result<bool, Fail> {
    let outcomes = outcomes_of(row(alloc, 16, 7, "bob")?, alloc)?;
    let copy = outcomes.copy(alloc)?;
    Ok(copy == outcomes && has_its_row(&copy) && all_differ(alloc, &copy)?)
}

fn judgement(alloc: Global) -> Result<Judgement, OutOfMemory> {
    Ok(Judgement {
        rule: RuleNo(16),
        node: NodeId(7),
        verdict: Auto::Passed,
        hand: Text::from_str(alloc, "bob")?,
        note: Text::from_str(alloc, "It says when.")?,
        evidence: Text::from_str(alloc, "Hours")?,
    })
}

fn judgement_equals(alloc: Global) -> Result<bool, OutOfMemory> {
    let judgement = judgement(alloc)?;
    Ok(judgement.copy(alloc)? == judgement)
}

#[test]
fn a_copy_equals_what_was_copied(rt: HostRuntime) -> Result<(), Fail> {
    assert!(rt; copy_equals(rt.alloc())? && judgement_equals(rt.alloc())?);
    laws_of_equality();
    laws_of_judgements();
    laws_of_merging();
    Ok(())
}
