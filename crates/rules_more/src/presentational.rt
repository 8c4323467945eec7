ghost use Rattle.std.specs.Prelude.{◌≡◌, IfOk};
ghost use Rattle.acc_tree.specs.Seen.{seen};
ghost use Rattle.acc_tree.specs.Sights.{seen_sight};
ghost use Rattle.snap_tree.specs.Trees.{Document};
ghost use Rattle.snap_tree.specs.declared.row.NodeId.{NodeId};
ghost use Rattle.rule_sights.specs.Targets.{JudgesRows};
ghost use Rattle.rules_more.specs.Presentational.{stops_below, holder_verdict, presentational_holds_no_focus, presentational_holds_no_focus_info, presentational_holds_no_focus_target};

use acc_tree::{Sight, included_at};
use aria_tables::Role;
use rule_core::{Class, Rule, RuleInfo, RuleNo, Verdict};
use rule_sights::sight_as;
use rules_aria::{focus_finding, number_words, stops_among};
use snap_tree::{Branches, NodeId, OutOfMemory, Tree};
use std::alloc::Global;

/// ACT rule 307n5z, Element with presentational children has no focusable content
/// (<https://www.w3.org/WAI/standards-guidelines/act/rules/307n5z/>). Its target is an included node of a role whose
/// children are presentational. It fails where the Tab key stops at a node below it. The evidence is the numbers of those
/// nodes.
#[derive(Clone, Copy, Debug, PartialEq, Eq)]
pub struct PresentationalHoldsNoFocus;

impl PresentationalHoldsNoFocus {
    /// Its number.
    pub const NO: u16 = 39;

    /// What the rule says of itself.
    pub const INFO: RuleInfo = RuleInfo {
        no: RuleNo(Self::NO),
        id: *b"307n5z",
        applies: Class::SelfOnly,
        expects: Class::Sub,
        inputs: [0; 4],
    };

    /// The law of its targets: on each page it has a verdict exactly where the node is one. It does nothing: the clause
    /// is what it is for.
    #[tactic(auto, using(crate::proofs::Local::holders))]
    pub fn law_of_targets()
        ensures { (page : Document) (n : NodeId) → JudgesRows presentational_holds_no_focus presentational_holds_no_focus_target page n }
    {}
}

/// The roles whose children are presentational (WAI-ARIA 1.2, "Presentational Children").
const PRESENTATIONAL_ROLES: [Role; 14] = [
    Role::Button,
    Role::Checkbox,
    Role::Img,
    Role::Menuitemcheckbox,
    Role::Menuitemradio,
    Role::Meter,
    Role::OptionRole,
    Role::Progressbar,
    Role::Radio,
    Role::Scrollbar,
    Role::Separator,
    Role::Slider,
    Role::Switch,
    Role::Tab,
];

#[tactic(auto, using(rules_aria::proofs::Stopping::stops_seen))]
fn stops_below(alloc: Global, below: &Branches<'_>) -> Result<Vec<NodeId>, OutOfMemory>
    ensures { IfOk result (λ nodes. nodes.items ≡ stops_below (seen below.now)) }
{
    stops_among(alloc, below.rows())
}

fn verdict(alloc: Global, sight: &Sight<'_>) -> Result<Option<Verdict>, OutOfMemory>
    ensures { IfOk result (λ verdict. verdict ≡ holder_verdict (seen_sight sight.now)) }
{
    if !included_at(&sight.above, sight.row) {
        return Ok(None);
    }
    let nodes = stops_below(alloc, &sight.below)?;
    let words = number_words(alloc, nodes.as_slice())?;
    Ok(Some(focus_finding(nodes.as_slice()).verdict(alloc, &words)?))
}

impl Rule for PresentationalHoldsNoFocus {
    ghost means = { presentational_holds_no_focus };

    ghost described = { presentational_holds_no_focus_info };

    fn info(&self) -> RuleInfo {
        Self::INFO
    }

    fn judge(&self, alloc: Global, tree: &Tree, n: NodeId) -> Result<Option<Verdict>, OutOfMemory> {
        match sight_as(tree, n, &PRESENTATIONAL_ROLES) {
            Some(sight) => verdict(alloc, &sight),
            None => Ok(None),
        }
    }

    #[tactic(auto, using(crate::proofs::Local::presentational_local))]
    fn law_of_locality(&self) {}
}
