ghost use Rattle.std.specs.Prelude.{◌≡◌, ◌++◌, List, IfOk, OnOk};
ghost use Rattle.std.specs.Option.{option_to_list};
ghost use Rattle.judge_core.specs.declared.judgement.Judgement.{Judgement};
ghost use Rattle.judge_core.specs.Outcomes.{row_of};
ghost use Rattle.judged_rows.specs.Again.{again};
ghost use Rattle.judged_rows.specs.ByNode.{IsByNode};

use crate::finals::final_of;
use crate::on_node::ByNode;
use judge_core::OutRow;
use rule_core::{RuleNo, Verdict};
use snap_tree::{NodeId, OutOfMemory};
use std::alloc::Global;

/// The row of a rule's verdict on a node, with its final outcome under the judgements that the map has. Fails only
/// for want of memory.
pub fn row_of(
    alloc: Global,
    by_node: &ByNode<'_>,
    rule: RuleNo,
    node: NodeId,
    verdict: Verdict,
) -> Result<OutRow, OutOfMemory>
    ensures { (js : List Judgement) → IsByNode js by_node.now
        → IfOk result (λ row. row ≡ row_of rule node js verdict) }
{
    let judged = final_of(alloc, by_node, verdict.auto, rule, node, &verdict.evidence)?;
    Ok(OutRow {
        rule,
        node,
        auto: verdict.auto,
        reason: verdict.reason,
        evidence: verdict.evidence,
        last: judged.last,
        hand: judged.hand,
    })
}

/// A row of an atomic rule, with its final outcome anew under the judgements that the map has. Fails only for want of
/// memory.
pub fn row_again(alloc: Global, row: &OutRow, by_node: &ByNode<'_>) -> Result<OutRow, OutOfMemory>
    ensures { (js : List Judgement) → IsByNode js by_node.now
        → IfOk result (λ now. now ≡ again js row.now) }
{
    let judged = final_of(alloc, by_node, row.auto, row.rule, row.node, &row.evidence)?;
    Ok(OutRow {
        rule: row.rule,
        node: row.node,
        auto: row.auto,
        reason: row.reason,
        evidence: row.evidence.copy(alloc)?,
        last: judged.last,
        hand: judged.hand,
    })
}

/// Adds a row at the end, where there is one. Fails only for want of memory.
pub fn push_row(rows: &mut Vec<OutRow>, row: Option<OutRow>) -> Result<(), OutOfMemory>
    ensures { OnOk result (rows.new.items ≡ rows.old.items ++ option_to_list row) }
{
    if let Some(row) = row {
        rows.push(row)?;
    }
    Ok(())
}
