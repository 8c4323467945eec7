//! The members of a case.

ghost use Rattle.std.specs.Prelude.{◌≡◌, IfOk, option_copied};
ghost use Rattle.std.specs.List.{find, list_any};
ghost use Rattle.serde_json.specs.View.{view};
ghost use Rattle.snap_json.specs.Seen.{seen};
ghost use Rattle.snap_json.specs.Pages.{built};
ghost use Rattle.case_run.specs.Faults.{Gives, in_shape};
ghost use Rattle.case_run.specs.Snapshots.{in_case, tree_of};
ghost use Rattle.case_run.specs.Cases.{is_case, is_new, new_id, id_of, has_id, rule_named, rule_of, expected_of, case_at};

use crate::case::{Case, Expected};
use crate::fault::{CaseField, CasesFault};
use keep_core::is_name;
use rule_core::{RuleInfo, RuleNo};
use serde_json::Value;
use snap_json::{SnapFault, lent_text, raw_of, text_of};
use snap_tree::{BuildFault, OutOfMemory, Raw, Text, Tree};
use std::alloc::Global;

/// What a field means, or the fault that it is out of shape.
pub(crate) fn in_shape<T>(place: u32, field: CaseField, meaning: Option<T>) -> Result<T, CasesFault>
    ensures { result ≡ in_shape place field meaning }
{
    match meaning {
        Some(value) => Ok(value),
        None => Err(CasesFault::Shape { place, field }),
    }
}

/// The case that is the value at a place of the list, after earlier ones.
#[tactic(auto, unfolding(crate::specs::Cases::case_at))]
pub(crate) fn case_at(
    alloc: Global,
    infos: &[RuleInfo],
    earlier: &[Case],
    place: u32,
    value: &Value,
) -> Result<Case, CasesFault>
    ensures { Gives result (case_at infos.now earlier.now place (view value.now)) }
{
    in_shape(place, CaseField::Case, value.as_object())?;
    let id = id_of(alloc, earlier, value.get("id"))?;
    let id = in_shape(place, CaseField::Id, id)?;
    let rule = rule_of(infos, value.get("rule"));
    let rule = in_shape(place, CaseField::Rule, rule)?;
    let expected = expected_of(value.get("expected"));
    let expected = in_shape(place, CaseField::Expected, expected)?;
    let snapshot = in_shape(place, CaseField::Snapshot, value.get("snapshot"))?;
    let tree = tree_of(alloc, place, snapshot)?;
    Ok(Case {
        id,
        rule,
        expected,
        tree,
    })
}

// A name that no earlier case has.
fn id_of(
    alloc: Global,
    earlier: &[Case],
    member: Option<&Value>,
) -> Result<Option<Text>, OutOfMemory>
    ensures { IfOk result (λ id. id ≡ id_of earlier.now (seen member.entry)) }
{
    match text_of(alloc, member)? {
        Some(id) => Ok(new_id(earlier, id)),
        None => Ok(None),
    }
}

/// The id, where it is a name that no earlier case has.
pub(crate) fn new_id(earlier: &[Case], id: Text) -> Option<Text>
    ensures { result ≡ new_id earlier.now id }
{
    if is_name(&id) && is_new(earlier, &id) {
        Some(id)
    } else {
        None
    }
}

/// Whether none of earlier cases has an id.
pub(crate) fn is_new(earlier: &[Case], id: &Text) -> bool
    ensures { result ≡ is_new earlier.now id.now }
{
    !is_taken(earlier, id)
}

fn is_taken(earlier: &[Case], id: &Text) -> bool
    ensures { result ≡ list_any (is_case id.now) earlier.now }
{
    earlier.iter().any(|case| is_case(case, id))
}

fn is_case(case: &Case, id: &Text) -> bool
    ensures { result ≡ is_case id.now case.now }
{
    case.id == *id
}

// The number of the rule that the member has the id of.
fn rule_of(infos: &[RuleInfo], member: Option<&Value>) -> Option<RuleNo>
    ensures { result ≡ rule_of infos.now (seen member.entry) }
{
    rule_named(infos, lent_text(member)?)
}

/// The number of the rule of an id.
pub(crate) fn rule_named(infos: &[RuleInfo], id: &str) -> Option<RuleNo>
    ensures { result ≡ rule_named infos.now id.now }
{
    Some(info_of(infos, id)?.no)
}

fn info_of<'a>(infos: &'a [RuleInfo], id: &str) -> Option<&'a RuleInfo>
    ensures { option_copied result ≡ find (has_id id.now) infos.now }
{
    infos.iter().find(|info| has_id(info, id))
}

fn has_id(info: &RuleInfo, id: &str) -> bool
    ensures { result ≡ has_id id.now info.now }
{
    info.id.as_slice() == id.as_bytes()
}

fn expected_of(member: Option<&Value>) -> Option<Expected>
    ensures { result ≡ expected_of (seen member.entry) }
{
    Expected::named(lent_text(member)?)
}

// The tree of the snapshot of the case at a place.
fn tree_of(alloc: Global, place: u32, snapshot: &Value) -> Result<Tree, CasesFault>
    ensures { Gives result (tree_of place (view snapshot.now)) }
{
    match raw_of(alloc, snapshot) {
        Ok(raw) => built(alloc, place, raw),
        Err(SnapFault::OutOfMemory) => Err(CasesFault::OutOfMemory),
        Err(fault) => Err(CasesFault::Snapshot { place, fault }),
    }
}

fn built(alloc: Global, place: u32, raw: Raw) -> Result<Tree, CasesFault>
    ensures { Gives result (in_case place (built raw)) }
{
    match Tree::build(alloc, raw) {
        Ok(tree) => Ok(tree),
        Err(BuildFault::Tree(fault)) => Err(CasesFault::Snapshot {
            place,
            fault: SnapFault::Tree(fault),
        }),
        Err(BuildFault::OutOfMemory) => Err(CasesFault::OutOfMemory),
    }
}
