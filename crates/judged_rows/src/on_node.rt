ghost use Rattle.std.specs.Prelude.{◌≡◌, map, IfOk, OnOk};
ghost use Rattle.std.specs.Option.{option_copied};
ghost use Rattle.judge_core.specs.Judgements.{latest};
ghost use Rattle.judged_rows.specs.ByNode.{at, HasPut, IsByNode};

use judge_core::Judgement;
use rule_core::RuleNo;
use snap_tree::{NodeId, OutOfMemory, Text};
use std::alloc::Global;
use std::collections::BTreeMap;

/// The judgements on each node, in the order of the list that they are of.
pub type ByNode<'a> = BTreeMap<u32, Vec<&'a Judgement>>;

fn put<'a>(by_node: &mut ByNode<'a>, judgement: &'a Judgement) -> Result<(), OutOfMemory>
    ensures { OnOk result (HasPut by_node.old by_node.new judgement.now) }
{
    by_node
        .entry(judgement.node.0)?
        .or_default()
        .push(judgement)?;
    Ok(())
}

/// The judgements of a list by the node that they are on. Fails only for want of memory.
pub fn by_node<'a>(alloc: Global, js: &'a [Judgement]) -> Result<ByNode<'a>, OutOfMemory>
    ensures { IfOk result (λ by_node. IsByNode js.now by_node) }
{
    let mut by_node: ByNode<'a> = BTreeMap::new(alloc);
    for judgement in js {
        put(&mut by_node, judgement)?;
    }
    Ok(by_node)
}

fn latest_among<'a>(
    judgements: &[&'a Judgement],
    rule: RuleNo,
    node: NodeId,
    evidence: &Text,
) -> Option<&'a Judgement>
    ensures { option_copied result ≡ latest rule node evidence.now (map (λ j. j.now) judgements.now) }
{
    let mut latest = None;
    for judgement in judgements {
        if judgement.is_of(rule, node, evidence) {
            latest = Some(*judgement);
        }
    }
    latest
}

/// The latest judgement of a rule on a node with this evidence.
pub(crate) fn latest<'a>(
    by_node: &ByNode<'a>,
    rule: RuleNo,
    node: NodeId,
    evidence: &Text,
) -> Option<&'a Judgement>
    ensures { option_copied result ≡ latest rule node evidence.now (at by_node.now node.0) }
{
    match by_node.get(&node.0) {
        Some(judgements) => latest_among(judgements.as_slice(), rule, node, evidence),
        None => None,
    }
}
