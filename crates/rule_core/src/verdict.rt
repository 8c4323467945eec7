ghost use Rattle.std.specs.Prelude.{◌≡◌, ◌++◌, OnOk};
ghost use Rattle.std.specs.Option.{option_to_list};
ghost use Rattle.rule_core.specs.Pages.{on_node};

use crate::reason::Reason;
use snap_tree::{NodeId, OutOfMemory, Text};

/// The outcome of a rule on a target, as it is found automatically (ACT Rules Format 1.1, EARL 1.0).
#[derive(Clone, Copy, Debug, PartialEq, Eq, Hash)]
pub enum Auto {
    Passed,
    Failed,
    /// A person has to judge.
    CantTell,
}

/// What a rule says of a target.
#[derive(Debug, Drop)]
pub struct Verdict {
    pub auto: Auto,
    pub reason: Reason,
    /// What the verdict rests on, of at most 4,096 bytes: by `brief` where it is longer.
    pub evidence: Text,
}

/// What a rule says of a node of a page.
#[derive(Debug, Drop)]
pub struct NodeVerdict {
    pub node: NodeId,
    pub verdict: Verdict,
}

/// Adds the verdict on a node, where there is one. Fails only for want of memory.
pub fn push_verdict(
    verdicts: &mut Vec<NodeVerdict>,
    node: NodeId,
    verdict: Option<Verdict>,
) -> Result<(), OutOfMemory>
    ensures { OnOk result (verdicts.new.items ≡ verdicts.old.items ++ option_to_list (on_node node verdict)) }
{
    if let Some(verdict) = verdict {
        verdicts.push(NodeVerdict { node, verdict })?;
    }
    Ok(())
}
