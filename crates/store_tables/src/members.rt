//! The table of members: how a row is read, and what is written for its values.

ghost use Rattle.std.specs.Prelude.{◌≡◌, pos, Some, IfOk, IsTrue};
ghost use Rattle.sqlite_value.specs.Order.{column};
ghost use Rattle.keep_core.specs.Names.{is_name};
ghost use Rattle.store_tables.specs.Reading.{read_each};
ghost use Rattle.store_tables.specs.Cells.{role_in, role_number};
ghost use Rattle.store_tables.specs.Members.{member_from, membership_from, memberships_shown};

use crate::cells;
use crate::fault::StoreFault;
use keep_core::{Member, MemberRole, Membership};
use snap_tree::List;
use sqlite::Row;
use std::alloc::Global;

/// The number that is written for a role.
pub fn role_number(role: MemberRole) -> i64
    ensures { result ≡ pos (role_number role) }
{
    match role {
        MemberRole::Owner => 0,
        MemberRole::Editor => 1,
        MemberRole::Judge => 2,
        MemberRole::Reader => 3,
    }
}

fn role(row: &Row, at: usize) -> Result<MemberRole, StoreFault>
    ensures { IfOk result (λ r. role_in (column row.now at) ≡ Some r) }
{
    let number: u64 = row.get(at)?;
    match number {
        0 => Ok(MemberRole::Owner),
        1 => Ok(MemberRole::Editor),
        2 => Ok(MemberRole::Judge),
        3 => Ok(MemberRole::Reader),
        _ => Err(StoreFault::Failed),
    }
}

#[tactic(auto, unfolding(crate::specs::Members::member_from))]
fn member(row: &Row) -> Result<Member, StoreFault>
    ensures reads { IfOk result (λ m. member_from row.now ≡ Some m) }
    ensures names { IfOk result (λ m. IsTrue (is_name m.user)) }
{
    let user = cells::name(row, 0)?;
    let role = role(row, 1)?;
    Ok(Member { user, role })
}

/// The members of a site.
pub fn read_members(alloc: Global, rows: &[Row]) -> Result<List<Member>, StoreFault>
    ensures { IfOk result (λ ms. read_each member_from rows.now ≡ Some ms) }
{
    let mut members = Vec::new(alloc);
    for row in rows {
        members.push(member(row)?)?;
    }
    Ok(List::from_vec(members))
}

#[tactic(auto, unfolding(crate::specs::Members::membership_from))]
fn membership(row: &Row) -> Result<Membership, StoreFault>
    ensures { IfOk result (λ m. membership_from row.now ≡ Some m) }
{
    let site = cells::name(row, 0)?;
    let role = role(row, 1)?;
    Ok(Membership { site, role })
}

/// The sites of which a user is a member, with the role in each.
pub fn read_memberships(alloc: Global, rows: &[Row]) -> Result<List<Membership>, StoreFault>
    ensures { IfOk result (λ ms. memberships_shown rows.now ≡ Some ms) }
{
    let mut memberships = Vec::new(alloc);
    for row in rows {
        memberships.push(membership(row)?)?;
    }
    Ok(List::from_vec(memberships))
}
