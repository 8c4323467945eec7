ghost use Rattle.snap_tree.specs.Trees.{Document};
ghost use Rattle.snap_tree.specs.declared.row.NodeId.{NodeId};
ghost use Rattle.rule_sights.specs.Targets.{JudgesRows};
ghost use Rattle.acc_tree.specs.Seen.{seen};
ghost use Rattle.rules_bypass.specs.Bypass.{has_skip_link, has_skip_link_info, has_skip_link_target};

use crate::bypass::Bypass;
use rule_core::{Class, Rule, RuleInfo, RuleNo, Verdict};
use rule_sights::page_root;
use snap_tree::{NodeId, OutOfMemory, Tree};
use std::alloc::Global;

/// ACT rule ye5d6e, Document has an instrument to move focus to non-repeated content
/// (<https://www.w3.org/WAI/standards-guidelines/act/rules/ye5d6e/>). Its target is the root of a page
/// in which the Tab key stops somewhere. It fails where the Tab key reaches no included link whose href
/// is `#` and the id of an element; else a person has to judge. The evidence is the href and the name
/// of each such link, a line each.
#[derive(Clone, Copy, Debug, PartialEq, Eq)]
pub struct HasSkipLink;

impl HasSkipLink {
    /// Its number.
    pub const NO: u16 = 28;

    /// What the rule says of itself.
    pub const INFO: RuleInfo = RuleInfo {
        no: RuleNo(Self::NO),
        id: *b"ye5d6e",
        applies: Class::Whole,
        expects: Class::Whole,
        inputs: [0; 4],
    };

    /// The law of its targets: on each page it has a verdict exactly where the node is one. It does nothing: the clause
    /// is what it is for.
    #[tactic(auto, using(crate::proofs::Local::skip_links))]
    pub fn law_of_targets()
        ensures { (page : Document) (n : NodeId) → JudgesRows has_skip_link (has_skip_link_target (seen page.trees)) page n }
    {}
}

impl Rule for HasSkipLink {
    ghost means = { has_skip_link };

    ghost described = { has_skip_link_info };

    fn info(&self) -> RuleInfo {
        Self::INFO
    }

    fn judge(&self, alloc: Global, tree: &Tree, n: NodeId) -> Result<Option<Verdict>, OutOfMemory> {
        match page_root(tree, n) {
            Some(_root) => Bypass::SkipLink.verdict(alloc, tree),
            None => Ok(None),
        }
    }

    #[tactic(auto, using(crate::proofs::Local::skip_link_local))]
    fn law_of_locality(&self) {}
}
