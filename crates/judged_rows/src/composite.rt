ghost use Rattle.std.specs.Prelude.{◌≡◌, ◌≢◌, ◌==◌, if◌then◌else◌, Option, None, Some, map, IfOk};
ghost use Rattle.std.specs.List.{filter_map, AllByRecursion};
ghost use Rattle.snap_tree.specs.declared.row.NodeId.{NodeId};
ghost use Rattle.rule_core.specs.declared.info.RuleNo.{RuleNo};
ghost use Rattle.judge_core.specs.declared.outcomes.OutRow.{OutRow};
ghost use Rattle.judge_core.specs.Outcomes.{merged_row, inputs_of};
ghost use Rattle.judged_rows.specs.Merging.{with_row, head_on, AreOn, filled_by, slot_of, slot_row};
ghost use Rattle.judged_rows.specs.Parts.{rows_found};

use crate::leading::{after, head_on};
use crate::parts::{RulePart, rows_found};
use crate::rows::push_row;
use judge_core::{OutRow, merge_composite};
use rule_core::{Auto, Reason, RuleInfo, RuleNo};
use snap_tree::{NodeId, OutOfMemory, Text};
use std::alloc::Global;

/// What some inputs of a composite rule come to on a node: their outcomes that were found
/// automatically, and their final ones.
#[derive(Clone, Copy)]
pub(crate) struct Found {
    pub(crate) auto: Auto,
    pub(crate) last: Auto,
}

/// A node, and what the inputs so far come to there.
#[derive(Clone, Copy)]
pub(crate) struct Slot {
    pub(crate) node: NodeId,
    pub(crate) found: Option<Found>,
}

fn with_row(found: Option<Found>, row: &OutRow) -> Option<Found>
    ensures { result ≡ with_row found (Some row.now) }
{
    match found {
        None => Some(Found {
            auto: row.auto,
            last: row.last,
        }),
        Some(found) => Some(Found {
            auto: merge_composite([found.auto, row.auto].as_slice()),
            last: merge_composite([found.last, row.last].as_slice()),
        }),
    }
}

// A slot with the leading row, where it is on the slot's node.
fn with_head(slot: Slot, rows: &[OutRow]) -> Slot
    ensures { result ≡ record { node = slot.node; found = with_row slot.found (head_on slot.node rows.now) } }
{
    match head_on(rows, slot.node) {
        Some(row) => Slot {
            node: slot.node,
            found: with_row(slot.found, row),
        },
        None => slot,
    }
}

// The slots with the rows of one more input, which stand in the order of the slots.
fn with_input(alloc: Global, slots: &[Slot], rows: &[OutRow]) -> Result<Vec<Slot>, OutOfMemory>
    ensures { (f : NodeId → Option OutRow) → AreOn f
        → rows.now ≡ filter_map f (map (λ s. s.node) slots.now)
        → IfOk result (λ filled. filled.items ≡ map (filled_by f) slots.now) }
{
    let mut filled = Vec::with_capacity(alloc, slots.len())?;
    let mut left = rows;
    for slot in slots {
        filled.push(with_head(*slot, left))?;
        left = after(left, slot.node);
    }
    Ok(filled)
}

// The slots with the rows of the input of a number; 0 is no input.
fn with_number(
    alloc: Global,
    slots: Vec<Slot>,
    parts: &[RulePart],
    number: u16,
) -> Result<Vec<Slot>, OutOfMemory>
    ensures { (f : NodeId → Option OutRow) → AreOn f
        → (number ≢ 0 → rows_found parts.now number ≡ filter_map f (map (λ s. s.node) slots.items))
        → IfOk result (λ now. now.items ≡ (if number == 0 then slots.items else map (filled_by f) slots.items)) }
{
    if number == 0 {
        Ok(slots)
    } else {
        with_input(alloc, slots.as_slice(), rows_found(parts, number))
    }
}

fn empty_slots(alloc: Global, nodes: &[NodeId]) -> Result<Vec<Slot>, OutOfMemory>
    ensures { IfOk result (λ slots. slots.items ≡ map (λ n. record { node = n; found = None }) nodes.now) }
{
    let mut slots = Vec::with_capacity(alloc, nodes.len())?;
    for node in nodes {
        slots.push(Slot {
            node: *node,
            found: None,
        })?;
    }
    Ok(slots)
}

// The slots with the rows of all inputs of a composite rule.
fn all_slots(
    alloc: Global,
    info: &RuleInfo,
    nodes: &[NodeId],
    parts: &[RulePart],
) -> Result<Vec<Slot>, OutOfMemory>
    ensures { (f : RuleNo → NodeId → Option OutRow) → ((rule : RuleNo) → AreOn (f rule))
        → AllByRecursion (λ input. rows_found parts.now input.0 ≡ filter_map (f input) nodes.now) (inputs_of info.now)
        → IfOk result (λ slots. slots.items ≡ map (slot_of f (inputs_of info.now)) nodes.now) }
{
    let mut slots = empty_slots(alloc, nodes)?;
    for number in info.inputs.as_slice() {
        slots = with_number(alloc, slots, parts, *number)?;
    }
    Ok(slots)
}

fn slot_row(alloc: Global, rule: RuleNo, slot: Slot) -> Option<OutRow>
    ensures { result ≡ slot_row rule slot }
{
    let found = slot.found?;
    Some(OutRow {
        rule,
        node: slot.node,
        auto: found.auto,
        reason: Reason::Merged,
        evidence: Text::new(alloc),
        last: found.last,
        hand: Text::new(alloc),
    })
}

fn slot_rows(alloc: Global, rule: RuleNo, slots: &[Slot]) -> Result<Vec<OutRow>, OutOfMemory>
    ensures { IfOk result (λ rows. rows.items ≡ filter_map (slot_row rule) slots.now) }
{
    let mut rows = Vec::new(alloc);
    for slot in slots {
        push_row(&mut rows, slot_row(alloc, rule, *slot))?;
    }
    Ok(rows)
}

/// The rows of a composite rule on some nodes in document order, on which its inputs have all their rows.
pub(crate) fn composite_rows(
    alloc: Global,
    info: &RuleInfo,
    nodes: &[NodeId],
    parts: &[RulePart],
) -> Result<Vec<OutRow>, OutOfMemory>
    ensures { (f : RuleNo → NodeId → Option OutRow) → ((rule : RuleNo) → AreOn (f rule))
        → AllByRecursion (λ input. rows_found parts.now input.0 ≡ filter_map (f input) nodes.now) (inputs_of info.now)
        → IfOk result (λ rows. rows.items
        ≡ filter_map (λ n. merged_row info.now.no n (filter_map (λ input. f input n) (inputs_of info.now))) nodes.now) }
{
    let slots = all_slots(alloc, info, nodes, parts)?;
    let rows = slot_rows(alloc, info.no, slots.as_slice())?;
    Ok(rows)
}
