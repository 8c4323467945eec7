//! The table of sites: how a row is read. Of its values only the counter is a number, which `column_number` gives.

ghost use Rattle.std.specs.Prelude.{◌≡◌, Some, IfOk};
ghost use Rattle.keep_core.specs.Fits.{FitNames};
ghost use Rattle.store_tables.specs.Sites.{site_shown, names_shown};

use crate::cells;
use crate::fault::StoreFault;
use crate::languages::read_languages;
use crate::members::read_members;
use keep_core::{MOST_REVISION, Site, is_name};
use snap_tree::{List, Text};
use sqlite::Row;
use std::alloc::Global;

/// The site of a name, by what is shown of its row, if there is one, of its members and of its languages.
#[tactic(auto, unfolding(crate::specs::Sites::site_from))]
pub fn read_site(
    alloc: Global,
    name: &Text,
    counters: &[Row],
    member_rows: &[Row],
    language_rows: &[Row],
) -> Result<Option<Site>, StoreFault>
    ensures { IfOk result (λ found. site_shown name.now counters.now member_rows.now language_rows.now ≡ Some found) }
{
    let Some(row) = counters.first() else {
        return Ok(None);
    };
    if !is_name(name) {
        return Err(StoreFault::Failed);
    }
    let counter = cells::number(row, 0, MOST_REVISION)?;
    let members = read_members(alloc, member_rows)?;
    let languages = read_languages(alloc, language_rows)?;
    let name = name.copy(alloc)?;
    Ok(Some(Site {
        name,
        counter,
        members,
        languages,
    }))
}

/// The names of all sites.
pub fn read_names(alloc: Global, rows: &[Row]) -> Result<List<Text>, StoreFault>
    ensures reads { IfOk result (λ names. names_shown rows.now ≡ Some names) }
    ensures fits { IfOk result (λ names. FitNames names) }
{
    let mut names = Vec::new(alloc);
    for row in rows {
        names.push(cells::name(row, 0)?)?;
    }
    Ok(List::from_vec(names))
}
