ghost use Rattle.std.specs.Prelude.{◌≡◌};
ghost use Rattle.keep_core.specs.Members.{role_of};
ghost use Rattle.desk_core.specs.Rights.{gives, may};

use crate::refusal::Needed;
use keep_core::{MemberRole, Site, role_of};
use snap_tree::Text;

/// Whether a role gives this leave.
fn gives(needed: Needed, held: MemberRole) -> bool
    ensures { result ≡ gives needed held }
{
    match needed {
        Needed::Owner | Needed::AnotherOwner => matches!(held, MemberRole::Owner),
        Needed::Editor => matches!(held, MemberRole::Owner | MemberRole::Editor),
        Needed::Judge => matches!(held, MemberRole::Owner | MemberRole::Judge),
        Needed::Reader => true,
    }
}

/// Whether a caller has this leave in a site.
pub fn is_allowed(needed: Needed, caller: &Text, site: &Site) -> bool
    ensures { result ≡ may needed (role_of caller.now site.now.members) }
{
    match role_of(caller, site.members.as_slice()) {
        Some(held) => gives(needed, held),
        None => false,
    }
}
