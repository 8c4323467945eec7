ghost use Rattle.snap_tree.specs.Trees.{Document};
ghost use Rattle.snap_tree.specs.declared.row.NodeId.{NodeId};
ghost use Rattle.rule_sights.specs.Targets.{JudgesRows};
ghost use Rattle.rules_names.specs.FormField.{form_field_has_name, form_field_has_name_info, form_field_has_name_target};

use crate::by_name::{JudgesByName, judge_alone, judge_in_turn};
use crate::named::wants_name;
use acc_tree::included_at;
use aria_tables::Role;
use rule_core::{Class, LastLong, NodeVerdict, Rule, RuleInfo, RuleNo, Verdict};
use rule_sights::sight_as;
use snap_tree::{NodeId, OutOfMemory, Tree};
use std::alloc::Global;

/// ACT rule e086e5, Form field has non-empty accessible name
/// (<https://www.w3.org/WAI/standards-guidelines/act/rules/e086e5/>). Its target is an included
/// node of one of the roles of form fields. It fails where the name is empty. The evidence is the role and
/// the name.
#[derive(Clone, Copy, Debug, PartialEq, Eq)]
pub struct FormFieldHasName;

impl FormFieldHasName {
    /// Its number.
    pub const NO: u16 = 12;

    /// What the rule says of itself.
    pub const INFO: RuleInfo = RuleInfo {
        no: RuleNo(Self::NO),
        id: *b"e086e5",
        applies: Class::SelfOnly,
        expects: Class::Sub,
        inputs: [0; 4],
    };

    /// The law of its targets: on each page it has a verdict exactly where the node is one. It does nothing: the clause
    /// is what it is for.
    #[tactic(auto, using(crate::proofs::Local::fields))]
    pub fn law_of_targets()
        ensures { (page : Document) (n : NodeId) → JudgesRows form_field_has_name form_field_has_name_target page n }
    {}
}

/// The roles of form fields.
pub const FORM_FIELDS: [Role; 11] = [
    Role::Checkbox,
    Role::Combobox,
    Role::Listbox,
    Role::Menuitemcheckbox,
    Role::Menuitemradio,
    Role::Radio,
    Role::Searchbox,
    Role::Slider,
    Role::Spinbutton,
    Role::Switch,
    Role::Textbox,
];

impl JudgesByName for FormFieldHasName {
    ghost says = { form_field_has_name };

    fn judge_by(
        &self,
        alloc: Global,
        last: &mut LastLong,
        tree: &Tree,
        n: NodeId,
    ) -> Result<Option<Verdict>, OutOfMemory> {
        let Some(sight) = sight_as(tree, n, &FORM_FIELDS) else {
            return Ok(None);
        };
        if !included_at(&sight.above, sight.row) {
            return Ok(None);
        }
        wants_name(alloc, last, tree, n, &sight)
    }
}

impl Rule for FormFieldHasName {
    ghost means = { form_field_has_name };

    ghost described = { form_field_has_name_info };

    fn info(&self) -> RuleInfo {
        Self::INFO
    }

    fn judge(&self, alloc: Global, tree: &Tree, n: NodeId) -> Result<Option<Verdict>, OutOfMemory> {
        judge_alone(self, alloc, tree, n)
    }

    fn judge_page(&self, alloc: Global, tree: &Tree) -> Result<Vec<NodeVerdict>, OutOfMemory> {
        judge_in_turn(self, alloc, tree)
    }

    #[tactic(auto, using(crate::proofs::Local::form_field_local))]
    fn law_of_locality(&self) {}
}
