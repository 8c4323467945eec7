ghost use Rattle.snap_tree.specs.Trees.{Document};
ghost use Rattle.snap_tree.specs.declared.row.NodeId.{NodeId};
ghost use Rattle.rule_sights.specs.Targets.{JudgesRows};
ghost use Rattle.acc_tree.specs.Seen.{seen};
ghost use Rattle.rules_bypass.specs.Bypass.{has_landmark, has_landmark_info, has_landmark_target};

use crate::bypass::Bypass;
use rule_core::{Class, Rule, RuleInfo, RuleNo, Verdict};
use rule_sights::page_root;
use snap_tree::{NodeId, OutOfMemory, Tree};
use std::alloc::Global;

/// ACT rule b40fd1, Document has a landmark with non-repeated content
/// (<https://www.w3.org/WAI/standards-guidelines/act/rules/b40fd1/>). Its target is the root of a page
/// in which the Tab key stops somewhere. It fails where there is no included landmark; else a person
/// has to judge. The evidence is the role and the name of each landmark, a line each.
#[derive(Clone, Copy, Debug, PartialEq, Eq)]
pub struct HasLandmark;

impl HasLandmark {
    /// Its number.
    pub const NO: u16 = 27;

    /// What the rule says of itself.
    pub const INFO: RuleInfo = RuleInfo {
        no: RuleNo(Self::NO),
        id: *b"b40fd1",
        applies: Class::Whole,
        expects: Class::Whole,
        inputs: [0; 4],
    };

    /// The law of its targets: on each page it has a verdict exactly where the node is one. It does nothing: the clause
    /// is what it is for.
    #[tactic(auto, using(crate::proofs::Local::landmarks))]
    pub fn law_of_targets()
        ensures { (page : Document) (n : NodeId) → JudgesRows has_landmark (has_landmark_target (seen page.trees)) page n }
    {}
}

impl Rule for HasLandmark {
    ghost means = { has_landmark };

    ghost described = { has_landmark_info };

    fn info(&self) -> RuleInfo {
        Self::INFO
    }

    fn judge(&self, alloc: Global, tree: &Tree, n: NodeId) -> Result<Option<Verdict>, OutOfMemory> {
        match page_root(tree, n) {
            Some(_root) => Bypass::Landmark.verdict(alloc, tree),
            None => Ok(None),
        }
    }

    #[tactic(auto, using(crate::proofs::Local::landmark_local))]
    fn law_of_locality(&self) {}
}
