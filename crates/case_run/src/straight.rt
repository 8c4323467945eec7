//! A case that is read straight from the texts of its members.

ghost use Rattle.std.specs.Prelude.{◌≡◌, Ok, IfOk, IfSome};
ghost use Rattle.case_run.specs.Apart.{alone};
ghost use Rattle.case_run.specs.Straight.{Snaps, HasMembers};

use crate::case::{Case, Expected};
use crate::members::{new_id, rule_named};
use json_parts::{Keys, Members, cut_object, is_inner};
use rule_core::RuleInfo;
use snap_json::{SnapFault, read_snapshot};
use snap_tree::{OutOfMemory, Text, Tree};
use std::alloc::Global;

/// The case that a text is by itself, where its members stand in the order id, rule, expected, snapshot and none but the snapshot
/// has an escape; None for another text, and where the case has a fault.
pub(crate) fn case_straight(
    alloc: Global,
    infos: &[RuleInfo],
    part: &[u8],
) -> Result<Option<Case>, OutOfMemory>
    ensures { IfOk result (λ r. IfSome r (λ c. alone infos.now part.now ≡ Ok c)) }
{
    let keys = Keys {
        first: "id",
        second: "rule",
        third: "expected",
        last: "snapshot",
    };
    match cut_object(&keys, part) {
        Some(members) => case_of(alloc, infos, &members),
        None => Ok(None),
    }
}

// The case of these members.
fn case_of(
    alloc: Global,
    infos: &[RuleInfo],
    members: &Members<'_>,
) -> Result<Option<Case>, OutOfMemory>
    ensures { IfOk result (λ r. IfSome r (λ c. HasMembers infos.now members.now c)) }
{
    let Some(id) = new_id(&[], Text::from_str(alloc, members.first)?) else {
        return Ok(None);
    };
    let Some(rule) = rule_named(infos, members.second) else {
        return Ok(None);
    };
    let Some(expected) = Expected::named(members.third) else {
        return Ok(None);
    };
    match tree_inner(alloc, members.last)? {
        Some(tree) => Ok(Some(Case {
            id,
            rule,
            expected,
            tree,
        })),
        None => Ok(None),
    }
}

// The tree of a snapshot that may stand in a case; None where it has a fault.
fn tree_inner(alloc: Global, bytes: &[u8]) -> Result<Option<Tree>, OutOfMemory>
    ensures { IfOk result (λ r. IfSome r (λ tree. Snaps bytes.now tree)) }
{
    if !is_inner(alloc, bytes)? {
        return Ok(None);
    }
    match read_snapshot(alloc, bytes) {
        Ok(tree) => Ok(Some(tree)),
        Err(SnapFault::OutOfMemory) => Err(OutOfMemory),
        Err(_) => Ok(None),
    }
}
