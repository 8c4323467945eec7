ghost use Rattle.desk_core.specs.Serving.{Admits, Enters};
ghost use Rattle.desk_core.specs.Told.{told_of};

use crate::refusal::{Needed, Refusal};
use crate::rights::is_allowed;
use keep_core::{Keeper, Site};
use snap_tree::Text;
use std::alloc::Global;

/// The row of a site that is kept, and in which the caller has this leave.
pub fn enter<K: Keeper>(
    alloc: Global,
    keeper: &mut K,
    needed: Needed,
    caller: &Text,
    name: &Text,
) -> Result<Site, Refusal>
    ensures { Enters needed caller.now name.now (told_of K.Keeper keeper.old) (told_of K.Keeper keeper.new) result }
{
    match keeper.site(alloc, name)? {
        Some(site) => admit(needed, caller, site),
        None => Err(Refusal::NoSite),
    }
}

// The row of a site, where the caller has this leave in it.
fn admit(needed: Needed, caller: &Text, site: Site) -> Result<Site, Refusal>
    ensures { Admits needed caller.now site result }
{
    if is_allowed(needed, caller, &site) {
        Ok(site)
    } else {
        Err(Refusal::NotAllowed { needed })
    }
}
