ghost use Rattle.std.specs.Prelude.{◌≡◌, map, IfOk};
ghost use Rattle.serde_json.specs.View.{view};
ghost use Rattle.serde_json.specs.Written.{compact_text};
ghost use Rattle.http_replies.specs.MemberList.{member_data, members_data, membership_data, memberships_data};

use crate::members::put_word;
use crate::words::role_word;
use keep_core::{Member, Membership};
use serde_json::{Map, Value, put};
use snap_tree::OutOfMemory;
use std::alloc::Global;

// The body of the reply that tells the members of a site.
#[tactic(auto, using(crate::proofs::NoFloats::members_have_no_float))]
pub(crate) fn members_body(alloc: Global, members: &[Member]) -> Result<Vec<u8>, OutOfMemory>
    ensures { IfOk result (λ b. b.items ≡ compact_text (members_data members.now)) }
{
    let value = members_value(alloc, members)?;
    Ok(value.to_vec(alloc)?)
}

#[tactic(auto, unfolding(crate::specs::MemberList::members_data))]
fn members_value(alloc: Global, members: &[Member]) -> Result<Value, OutOfMemory>
    ensures { IfOk result (λ v. view v ≡ members_data members.now) }
{
    let values = member_values(alloc, members)?;
    let mut body = Map::new(alloc);
    put(&mut body, alloc, "members", Value::Array(values))?;
    Ok(Value::Object(body))
}

fn member_values(alloc: Global, members: &[Member]) -> Result<Vec<Value>, OutOfMemory>
    ensures { IfOk result (λ v. map view v.items ≡ map member_data members.now) }
{
    let mut values = Vec::with_capacity(alloc, members.len())?;
    for member in members {
        values.push(member_value(alloc, member)?)?;
    }
    Ok(values)
}

#[tactic(auto, unfolding(crate::specs::MemberList::member_data))]
fn member_value(alloc: Global, member: &Member) -> Result<Value, OutOfMemory>
    ensures { IfOk result (λ v. view v ≡ member_data member.now) }
{
    let mut body = Map::new(alloc);
    put_word(&mut body, alloc, "member", member.user.as_str())?;
    put_word(&mut body, alloc, "role", role_word(Some(member.role)))?;
    Ok(Value::Object(body))
}

// The body of the reply that tells the sites of a member.
#[tactic(auto, using(crate::proofs::NoFloats::memberships_have_no_float))]
pub(crate) fn memberships_body(
    alloc: Global,
    memberships: &[Membership],
) -> Result<Vec<u8>, OutOfMemory>
    ensures { IfOk result (λ b. b.items ≡ compact_text (memberships_data memberships.now)) }
{
    let value = memberships_value(alloc, memberships)?;
    Ok(value.to_vec(alloc)?)
}

#[tactic(auto, unfolding(crate::specs::MemberList::memberships_data))]
fn memberships_value(alloc: Global, memberships: &[Membership]) -> Result<Value, OutOfMemory>
    ensures { IfOk result (λ v. view v ≡ memberships_data memberships.now) }
{
    let values = membership_values(alloc, memberships)?;
    let mut body = Map::new(alloc);
    put(&mut body, alloc, "memberships", Value::Array(values))?;
    Ok(Value::Object(body))
}

fn membership_values(alloc: Global, memberships: &[Membership]) -> Result<Vec<Value>, OutOfMemory>
    ensures { IfOk result (λ v. map view v.items ≡ map membership_data memberships.now) }
{
    let mut values = Vec::with_capacity(alloc, memberships.len())?;
    for membership in memberships {
        values.push(membership_value(alloc, membership)?)?;
    }
    Ok(values)
}

#[tactic(auto, unfolding(crate::specs::MemberList::membership_data))]
fn membership_value(alloc: Global, membership: &Membership) -> Result<Value, OutOfMemory>
    ensures { IfOk result (λ v. view v ≡ membership_data membership.now) }
{
    let mut body = Map::new(alloc);
    put_word(&mut body, alloc, "role", role_word(Some(membership.role)))?;
    put_word(&mut body, alloc, "site", membership.site.as_str())?;
    Ok(Value::Object(body))
}
