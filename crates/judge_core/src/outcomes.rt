ghost use Rattle.std.specs.Prelude.{◌≡◌};
ghost use Rattle.std.specs.Option.{option_copied};
ghost use Rattle.judge_core.specs.RowLookups.{is_row_on, row_at};

use rule_core::{Auto, Reason, RuleNo};
use snap_tree::{List, NodeId, Text};

/// The outcome of a rule on a node.
#[derive(Debug, Drop, PartialEq, Eq)]
pub struct OutRow {
    pub rule: RuleNo,
    pub node: NodeId,
    /// The outcome that was found automatically.
    pub auto: Auto,
    pub reason: Reason,
    pub evidence: Text,
    /// The final outcome.
    pub last: Auto,
    /// Who judged, where a judgement counts; else empty.
    pub hand: Text,
}

/// A final outcome, and who judged: nobody, an empty text, where no judgement counts.
#[derive(Debug, Drop, PartialEq, Eq)]
pub struct Final {
    pub last: Auto,
    pub hand: Text,
}

/// The outcomes of a page: the rows of each rule of a book in the order of their numbers, and of each
/// rule in document order. A rule without a row is inapplicable.
#[derive(Debug, Drop, PartialEq, Eq)]
pub struct Outcomes {
    pub rows: List<OutRow>,
}

impl OutRow {
    /// Whether it is the row of this rule on this node.
    pub fn is_on(&self, rule: RuleNo, node: NodeId) -> bool
        ensures { result ≡ is_row_on rule node self.now }
    {
        self.rule == rule && self.node == node
    }
}

impl Outcomes {
    /// The row of a rule on a node, of which there is one at the most in the outcomes of a page; None
    /// where there is none.
    pub fn row(&self, rule: RuleNo, node: NodeId) -> Option<&OutRow>
        ensures { option_copied result ≡ row_at rule node self.now.rows }
    {
        row_among(self.rows.as_slice(), rule, node)
    }
}

fn row_among(rows: &[OutRow], rule: RuleNo, node: NodeId) -> Option<&OutRow>
    ensures { option_copied result ≡ row_at rule node rows.now }
{
    rows.iter().find(|row| row.is_on(rule, node))
}
