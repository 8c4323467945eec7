ghost use Rattle.std.specs.Prelude.{◌≡◌, None};
ghost use Rattle.desk_core.specs.declared.command.Command.TheVariants.{GetMemberships};
ghost use Rattle.desk_core.specs.declared.reply.Reply.TheVariants as reply;
ghost use Rattle.desk_core.specs.Serving.{DecidesByAny};
ghost use Rattle.desk_core.specs.Told.{told_of};

use crate::decided::Decided;
use crate::refusal::Refusal;
use crate::reply::Reply;
use keep_core::{Keeper, Membership};
use snap_tree::{List, Text};
use std::alloc::Global;

fn memberships_reply(memberships: List<Membership>) -> Decided
    ensures { result ≡ record { change = None; reply = reply.Memberships memberships } }
{
    Decided {
        change: None,
        reply: Reply::Memberships { memberships },
    }
}

/// The sites of which the caller is a member, with the role in each, in byte order of their names.
pub fn get_memberships<K: Keeper>(
    alloc: Global,
    keeper: &mut K,
    caller: &Text,
) -> Result<Decided, Refusal>
    ensures { DecidesByAny caller.now GetMemberships (told_of K.Keeper keeper.old) (told_of K.Keeper keeper.new) result }
{
    let memberships = keeper.memberships(alloc, caller)?;
    Ok(memberships_reply(memberships))
}
