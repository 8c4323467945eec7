ghost use Rattle.std.specs.Prelude.{◌≡◌, List, IfOk};
ghost use Rattle.std.specs.Option.{option_copied};
ghost use Rattle.judge_core.specs.declared.judgement.Judgement.{Judgement};
ghost use Rattle.judge_core.specs.Judgements.{final, counting};
ghost use Rattle.judged_rows.specs.ByNode.{IsByNode};

use crate::on_node::{ByNode, latest};
use judge_core::{Final, Judgement};
use rule_core::{Auto, RuleNo};
use snap_tree::{NodeId, OutOfMemory, Text};
use std::alloc::Global;

/// The judgement that counts for an outcome of a rule on a node, found with this evidence.
fn counting<'a>(
    by_node: &ByNode<'a>,
    auto: Auto,
    rule: RuleNo,
    node: NodeId,
    evidence: &Text,
) -> Option<&'a Judgement>
    ensures { (js : List Judgement) → IsByNode js by_node.now
        → option_copied result ≡ counting auto rule node evidence.now js }
{
    match auto {
        Auto::CantTell => latest(by_node, rule, node, evidence),
        _ => None,
    }
}

/// The final outcome of a rule on a node, where this outcome was found with this evidence.
pub(crate) fn final_of(
    alloc: Global,
    by_node: &ByNode<'_>,
    auto: Auto,
    rule: RuleNo,
    node: NodeId,
    evidence: &Text,
) -> Result<Final, OutOfMemory>
    ensures { (js : List Judgement) → IsByNode js by_node.now
        → IfOk result (λ f. f ≡ final auto rule node evidence.now js) }
{
    match counting(by_node, auto, rule, node, evidence) {
        Some(judgement) => Ok(Final {
            last: judgement.verdict,
            hand: judgement.hand.copy(alloc)?,
        }),
        None => Ok(Final {
            last: auto,
            hand: Text::new(alloc),
        }),
    }
}
