ghost use Rattle.std.specs.Prelude.{◌≡◌};
ghost use Rattle.acc_tree.specs.Seen.{seen_row};
ghost use Rattle.snap_tree.specs.Trees.{Document};
ghost use Rattle.snap_tree.specs.declared.row.NodeId.{NodeId};
ghost use Rattle.rule_sights.specs.Targets.{JudgesRows};
ghost use Rattle.rules_names.specs.ImageButton.{is_image_button_target, image_button_has_name, image_button_has_name_info, image_button_has_name_target};

use crate::by_name::{JudgesByName, judge_alone, judge_in_turn};
use crate::elements::is_image_input;
use crate::named::wants_name;
use acc_tree::{Above, Attribute, included_at};
use rule_core::{Class, LastLong, NodeVerdict, Rule, RuleInfo, RuleNo, Verdict};
use rule_sights::sight_with;
use snap_tree::{NodeId, OutOfMemory, Row, Tree};
use std::alloc::Global;

/// ACT rule 59796f, Image button has non-empty accessible name
/// (<https://www.w3.org/WAI/standards-guidelines/act/rules/59796f/>). Its target is an included
/// HTML `input` of type image. It fails where the name is empty. The evidence is the role and the name.
#[derive(Clone, Copy, Debug, PartialEq, Eq)]
pub struct ImageButtonHasName;

impl ImageButtonHasName {
    /// Its number.
    pub const NO: u16 = 11;

    /// What the rule says of itself.
    pub const INFO: RuleInfo = RuleInfo {
        no: RuleNo(Self::NO),
        id: *b"59796f",
        applies: Class::SelfOnly,
        expects: Class::Sub,
        inputs: [0; 4],
    };

    /// The law of its targets: on each page it has a verdict exactly where the node is one. It does nothing: the clause
    /// is what it is for.
    #[tactic(auto, using(crate::proofs::Local::image_buttons))]
    pub fn law_of_targets()
        ensures { (page : Document) (n : NodeId) → JudgesRows image_button_has_name image_button_has_name_target page n }
    {}
}

fn is_target(above: &Above, row: &Row) -> bool
    ensures { result ≡ is_image_button_target above.now (seen_row row.now) }
{
    is_image_input(row) && included_at(above, row)
}

impl JudgesByName for ImageButtonHasName {
    ghost says = { image_button_has_name };

    fn judge_by(
        &self,
        alloc: Global,
        last: &mut LastLong,
        tree: &Tree,
        n: NodeId,
    ) -> Result<Option<Verdict>, OutOfMemory> {
        let Some(sight) = sight_with(tree, n, Attribute::TypeAttr) else {
            return Ok(None);
        };
        if !is_target(&sight.above, sight.row) {
            return Ok(None);
        }
        wants_name(alloc, last, tree, n, &sight)
    }
}

impl Rule for ImageButtonHasName {
    ghost means = { image_button_has_name };

    ghost described = { image_button_has_name_info };

    fn info(&self) -> RuleInfo {
        Self::INFO
    }

    fn judge(&self, alloc: Global, tree: &Tree, n: NodeId) -> Result<Option<Verdict>, OutOfMemory> {
        judge_alone(self, alloc, tree, n)
    }

    fn judge_page(&self, alloc: Global, tree: &Tree) -> Result<Vec<NodeVerdict>, OutOfMemory> {
        judge_in_turn(self, alloc, tree)
    }

    #[tactic(auto, using(crate::proofs::Local::image_button_local))]
    fn law_of_locality(&self) {}
}
