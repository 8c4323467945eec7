ghost use Rattle.snap_tree.specs.Trees.{Document};
ghost use Rattle.snap_tree.specs.declared.row.NodeId.{NodeId};
ghost use Rattle.rule_sights.specs.Targets.{JudgesRows};
ghost use Rattle.acc_tree.specs.Seen.{seen};
ghost use Rattle.rules_bypass.specs.Bypass.{has_collapse, has_collapse_info, has_collapse_target};

use crate::bypass::Bypass;
use rule_core::{Class, Rule, RuleInfo, RuleNo, Verdict};
use rule_sights::page_root;
use snap_tree::{NodeId, OutOfMemory, Tree};
use std::alloc::Global;

/// ACT rule 3e12e1, Block of repeated content is collapsible
/// (<https://www.w3.org/WAI/standards-guidelines/act/rules/3e12e1/>). Its target is the root of a page
/// in which the Tab key stops somewhere. It fails where the Tab key reaches no included `summary`, nor
/// a button with aria-expanded; else a person has to judge. The evidence is the name of each such node,
/// a line each.
#[derive(Clone, Copy, Debug, PartialEq, Eq)]
pub struct HasCollapse;

impl HasCollapse {
    /// Its number.
    pub const NO: u16 = 29;

    /// What the rule says of itself.
    pub const INFO: RuleInfo = RuleInfo {
        no: RuleNo(Self::NO),
        id: *b"3e12e1",
        applies: Class::Whole,
        expects: Class::Whole,
        inputs: [0; 4],
    };

    /// The law of its targets: on each page it has a verdict exactly where the node is one. It does nothing: the clause
    /// is what it is for.
    #[tactic(auto, using(crate::proofs::Local::collapses))]
    pub fn law_of_targets()
        ensures { (page : Document) (n : NodeId) → JudgesRows has_collapse (has_collapse_target (seen page.trees)) page n }
    {}
}

impl Rule for HasCollapse {
    ghost means = { has_collapse };

    ghost described = { has_collapse_info };

    fn info(&self) -> RuleInfo {
        Self::INFO
    }

    fn judge(&self, alloc: Global, tree: &Tree, n: NodeId) -> Result<Option<Verdict>, OutOfMemory> {
        match page_root(tree, n) {
            Some(_root) => Bypass::Collapse.verdict(alloc, tree),
            None => Ok(None),
        }
    }

    #[tactic(auto, using(crate::proofs::Local::collapse_local))]
    fn law_of_locality(&self) {}
}
