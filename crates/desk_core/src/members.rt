ghost use Rattle.std.specs.Prelude.{◌≡◌, None, IsTrue, IfOk};
ghost use Rattle.named_rows.specs.ByName.{IsInOrder};
ghost use Rattle.keep_core.specs.Names.{is_name};
ghost use Rattle.keep_core.specs.Fits.{FitsSite};
ghost use Rattle.desk_core.specs.declared.command.Command.TheVariants.{PutSite, PutMember};
ghost use Rattle.desk_core.specs.Members.{user_of, members_with, put_site, put_member};
ghost use Rattle.desk_core.specs.Serving.{Agrees, DecidesByAny};
ghost use Rattle.desk_core.specs.Told.{told_of};

use crate::decided::Decided;
use crate::enter::enter;
use crate::refusal::{Needed, Refusal};
use crate::reply::Reply;
use keep_core::{Change, Keeper, Member, MemberRole, Site};
use named_rows::Rows;
use snap_tree::{List, OutOfMemory, Text};
use std::alloc::Global;

/// Makes a site, with the caller as its owner.
pub fn put_site<K: Keeper>(
    alloc: Global,
    keeper: &mut K,
    caller: &Text,
    name: Text,
) -> Result<Decided, Refusal>
    requires site { IsTrue (is_name name) }
    requires caller { IsTrue (is_name caller.now) }
    ensures { DecidesByAny caller.now (PutSite name) (told_of K.Keeper keeper.old) (told_of K.Keeper keeper.new) result }
{
    match keeper.site(alloc, &name)? {
        Some(_) => Err(Refusal::SiteExists),
        None => new_site(alloc, caller, name),
    }
}

// What is decided on a site that isn't kept.
fn new_site(alloc: Global, caller: &Text, name: Text) -> Result<Decided, Refusal>
    ensures { Agrees ⊥ result (put_site name caller.now None) }
{
    let user = caller.copy(alloc)?;
    let site = name.copy(alloc)?;
    let mut members = Vec::with_capacity(alloc, 1)?;
    members.push(Member {
        user,
        role: MemberRole::Owner,
    })?;
    Ok(Decided {
        change: Some(Change::PutSite {
            site: Site {
                name: site,
                counter: 0,
                members: List::from_vec(members),
                languages: List::from_vec(Vec::new(alloc)),
            },
        }),
        reply: Reply::Site { site: name },
    })
}

/// Gives a user a role in a site, or takes the user out of it.
pub fn put_member<K: Keeper>(
    alloc: Global,
    keeper: &mut K,
    caller: &Text,
    name: Text,
    user: Text,
    role: Option<MemberRole>,
) -> Result<Decided, Refusal>
    requires site { IsTrue (is_name name) }
    requires user { IsTrue (is_name user) }
    ensures { DecidesByAny caller.now (PutMember name user role)
        (told_of K.Keeper keeper.old) (told_of K.Keeper keeper.new) result }
{
    let site = enter(alloc, keeper, Needed::Owner, caller, &name)?;
    decide(alloc, caller, name, user, role, site)
}

fn decide(
    alloc: Global,
    caller: &Text,
    name: Text,
    user: Text,
    role: Option<MemberRole>,
    site: Site,
) -> Result<Decided, Refusal>
    requires { FitsSite site }
    ensures { Agrees ⊥ result (put_member name caller.now user role site) }
{
    if user == *caller {
        return Err(Refusal::NotAllowed {
            needed: Needed::AnotherOwner,
        });
    }
    let Site {
        counter,
        members,
        languages,
        ..
    } = site;
    let members = members_with(alloc, &user, role, members)?;
    Ok(Decided {
        change: Some(Change::PutSite {
            site: Site {
                name,
                counter,
                members,
                languages,
            },
        }),
        reply: Reply::Member { user, role },
    })
}

// The members with a user in this role, or without the user.
fn members_with(
    alloc: Global,
    user: &Text,
    role: Option<MemberRole>,
    members: List<Member>,
) -> Result<List<Member>, OutOfMemory>
    requires { IsInOrder user_of members }
    ensures { IfOk result (λ new. new ≡ members_with user.now role members) }
{
    let mut rows = Rows::from_vec(members.into_vec());
    match role {
        Some(role) => {
            let user = user.copy(alloc)?;
            rows.put(Member { user, role })?;
        }
        None => rows.take(user),
    }
    Ok(List::from_vec(rows.into_vec()))
}
