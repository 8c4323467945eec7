ghost use Rattle.std.specs.Prelude.{◌≡◌};
ghost use Rattle.named_rows.specs.ByName.{IsInOrder};
ghost use Rattle.keep_core.specs.Fits.{FitsHeads};
ghost use Rattle.desk_core.specs.Told.{told_of};
ghost use Rattle.desk_core.specs.Placing.{head_name, current_in, Places, PlacesAll};

use crate::command::Entry;
use crate::refusal::Refusal;
use judge_core::Judgement;
use keep_core::{Keeper, PageHead};
use named_rows::{Place, place_of};
use snap_tree::{List, Text};
use std::alloc::Global;

/// An entry of an import with what is kept in its place.
#[derive(Drop)]
pub struct Placed {
    pub entry: Entry,
    /// The current revision of the page of its name; None for a new page.
    pub current: Option<u64>,
    pub judgements: List<Judgement>,
}

/// The revision of a page among those of a site; None where it isn't there.
pub fn current_in(heads: &[PageHead], page: &Text) -> Option<u64>
    requires { IsInOrder head_name heads.now }
    ensures { result ≡ current_in heads.now page.now }
{
    match place_of(heads, page) {
        Place::Found(i) => Some(heads[i].rev),
        Place::Vacant(_) => None,
    }
}

fn place<K: Keeper>(
    alloc: Global,
    keeper: &mut K,
    site: &Text,
    heads: &List<PageHead>,
    entry: Entry,
) -> Result<Placed, Refusal>
    requires { FitsHeads heads.now }
    ensures { Places site.now heads.now entry (told_of K.Keeper keeper.old) (told_of K.Keeper keeper.new) result }
{
    let current = current_in(heads.as_slice(), &entry.page);
    let judgements = keeper.judgements(alloc, site, &entry.page)?;
    Ok(Placed {
        entry,
        current,
        judgements,
    })
}

/// The entries of an import with what is kept in their places. The heads are those of the site's pages.
pub fn place_all<K: Keeper>(
    alloc: Global,
    keeper: &mut K,
    site: &Text,
    heads: &List<PageHead>,
    entries: List<Entry>,
) -> Result<List<Placed>, Refusal>
    requires { FitsHeads heads.now }
    ensures { PlacesAll site.now heads.now entries (told_of K.Keeper keeper.old) (told_of K.Keeper keeper.new) result }
{
    let mut all = Vec::with_capacity(alloc, entries.len())?;
    for entry in entries.into_vec() {
        all.push(place(alloc, keeper, site, heads, entry)?)?;
    }
    Ok(List::from_vec(all))
}
