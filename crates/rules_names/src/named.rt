ghost use Rattle.std.specs.Prelude.{◌≡◌, IfOk};
ghost use Rattle.acc_tree.specs.Roles.{role_at};
ghost use Rattle.acc_tree.specs.Seen.{seen_row, seen};
ghost use Rattle.acc_name.specs.Names.{name_of};
ghost use Rattle.rules_names.specs.Named.{named_verdict, name_finding, wants_name, asks_a_person};

use crate::role_and_name::role_and_name;
use acc_name::name;
use acc_tree::{Sight, role_at};
use aria_tables::Role;
use rule_core::{Finding, LastLong, Reason, Verdict};
use snap_tree::{NodeId, OutOfMemory, Text, Tree};
use std::alloc::Global;

/// The verdict that rests on a role and a name: its evidence is the role's word, or `-` where there is no role, a
/// line feed, and `brief` of the name. Fails only for want of memory.
pub fn named_verdict(
    alloc: Global,
    last: &mut LastLong,
    finding: Finding,
    role: Option<Role>,
    name: &Text,
) -> Result<Verdict, OutOfMemory>
    ensures { IfOk result (λ verdict. verdict ≡ named_verdict finding role name.now) }
{
    let evidence = role_and_name(alloc, last, role, name)?;
    finding.verdict(alloc, &evidence)
}

/// What is found where a name is wanted: it fails where the name is empty.
pub(crate) fn name_finding(name: &Text) -> Finding
    ensures { result ≡ name_finding name.now }
{
    if name.is_empty() {
        Finding::failed(Reason::NoName)
    } else {
        Finding::met()
    }
}

/// What a rule says of a target that wants a name: it fails where the name is empty. The name is computed here, and
/// only here. Fails only for want of memory.
pub fn wants_name(
    alloc: Global,
    last: &mut LastLong,
    tree: &Tree,
    n: NodeId,
    sight: &Sight<'_>,
) -> Result<Option<Verdict>, OutOfMemory>
    ensures { IfOk result (λ verdict. verdict ≡ wants_name (role_at sight.now.above (seen_row sight.now.row.now)) (name_of (seen tree.now.trees) n).text) }
{
    let role = role_at(&sight.above, sight.row);
    let name = name(alloc, tree, n)?;
    Ok(Some(named_verdict(alloc, last, name_finding(&name.text), role, &name.text)?))
}

/// What a rule says of an element whose name a person has to judge, for this reason; nothing where the name is
/// empty. Fails only for want of memory.
pub fn asks_a_person(
    alloc: Global,
    last: &mut LastLong,
    reason: Reason,
    role: Option<Role>,
    name: &Text,
) -> Result<Option<Verdict>, OutOfMemory>
    ensures { IfOk result (λ verdict. verdict ≡ asks_a_person reason role name.now) }
{
    if name.is_empty() {
        return Ok(None);
    }
    let finding = Finding::cant_tell(reason);
    Ok(Some(named_verdict(alloc, last, finding, role, name)?))
}
