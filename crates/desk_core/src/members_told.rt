ghost use Rattle.std.specs.Prelude.{◌≡◌, None};
ghost use Rattle.desk_core.specs.declared.command.Command.TheVariants.{GetMembers};
ghost use Rattle.desk_core.specs.declared.reply.Reply.TheVariants as reply;
ghost use Rattle.desk_core.specs.Serving.{DecidesByAny};
ghost use Rattle.desk_core.specs.Told.{told_of};

use crate::decided::Decided;
use crate::enter::enter;
use crate::refusal::{Needed, Refusal};
use crate::reply::Reply;
use keep_core::{Keeper, Site};
use snap_tree::Text;
use std::alloc::Global;

fn members_reply(site: Site) -> Decided
    ensures { result ≡ record { change = None; reply = reply.Members site.members } }
{
    Decided {
        change: None,
        reply: Reply::Members {
            members: site.members,
        },
    }
}

/// The members of a site with their roles, in byte order of their names.
pub fn get_members<K: Keeper>(
    alloc: Global,
    keeper: &mut K,
    caller: &Text,
    site: &Text,
) -> Result<Decided, Refusal>
    ensures { DecidesByAny caller.now (GetMembers site.now) (told_of K.Keeper keeper.old) (told_of K.Keeper keeper.new) result }
{
    let entered = enter(alloc, keeper, Needed::Reader, caller, site)?;
    Ok(members_reply(entered))
}
