ghost use Rattle.std.specs.Prelude.{◌≡◌};
ghost use Rattle.judge_core.specs.Judgements.{is_on, is_of};

use rule_core::{Auto, RuleNo};
use snap_tree::{NodeId, Text};

/// What a person said of a rule on a node, where the rule alone can't tell.
#[derive(Debug, Drop, PartialEq, Eq)]
pub struct Judgement {
    pub rule: RuleNo,
    pub node: NodeId,
    pub verdict: Auto,
    /// Who judged.
    pub hand: Text,
    pub note: Text,
    /// The evidence that was judged: the judgement counts for no other.
    pub evidence: Text,
}

impl Judgement {
    /// Whether it judges this rule on this node.
    pub fn is_on(&self, rule: RuleNo, node: NodeId) -> bool
        ensures { result ≡ is_on rule node self.now }
    {
        self.rule == rule && self.node == node
    }

    /// Whether it judges this rule on this node, and this evidence.
    pub fn is_of(&self, rule: RuleNo, node: NodeId, evidence: &Text) -> bool
        ensures { result ≡ is_of rule node evidence.now self.now }
    {
        self.is_on(rule, node) && self.evidence.as_str() == evidence.as_str()
    }
}
