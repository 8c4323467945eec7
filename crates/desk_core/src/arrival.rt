ghost use Rattle.desk_core.specs.Told.{told_of};
ghost use Rattle.desk_core.specs.Placing.{Arrives};

use crate::command::Entry;
use crate::enter::enter;
use crate::placed::{Placed, place_all};
use crate::refusal::{Needed, Refusal};
use keep_core::Keeper;
use snap_tree::{List, Text};
use std::alloc::Global;

/// What is to be known before pages are imported: the counter and the languages of the site, how many pages it
/// has, and the entries with what is kept in their places.
#[derive(Drop)]
pub struct Arrival {
    pub counter: u64,
    pub languages: List<Text>,
    pub pages: usize,
    pub placed: List<Placed>,
}

/// A site in which the caller may put pages, before these are imported.
pub fn arrive<K: Keeper>(
    alloc: Global,
    keeper: &mut K,
    caller: &Text,
    site: &Text,
    entries: List<Entry>,
) -> Result<Arrival, Refusal>
    ensures { Arrives caller.now site.now entries (told_of K.Keeper keeper.old) (told_of K.Keeper keeper.new) result }
{
    let entered = enter(alloc, keeper, Needed::Editor, caller, site)?;
    let heads = keeper.list(alloc, site)?;
    let placed = place_all(alloc, keeper, site, &heads, entries)?;
    Ok(Arrival {
        counter: entered.counter,
        languages: entered.languages,
        pages: heads.len(),
        placed,
    })
}
