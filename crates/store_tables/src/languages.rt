//! The table of languages: how its rows are read. What is written is a place and a text as they stand.

ghost use Rattle.std.specs.Prelude.{◌≡◌, Some, IfOk};
ghost use Rattle.snap_tree.specs.Langs.{AreLangs};
ghost use Rattle.store_tables.specs.Reading.{read_counted};
ghost use Rattle.store_tables.specs.Languages.{language_from, languages_shown};

use crate::cells;
use crate::fault::StoreFault;
use snap_tree::{List, Text, langs_fault};
use sqlite::Row;
use std::alloc::Global;

#[tactic(auto, unfolding(crate::specs::Languages::language_from))]
fn language(row: &Row, place: u64) -> Result<Text, StoreFault>
    ensures { IfOk result (λ tag. language_from place row.now ≡ Some tag) }
{
    cells::place(row, 0, place)?;
    cells::text(row, 1)
}

fn tags(alloc: Global, rows: &[Row]) -> Result<List<Text>, StoreFault>
    ensures { IfOk result (λ tags. read_counted language_from 1 rows.now ≡ Some tags) }
{
    let mut tags = Vec::new(alloc);
    let mut place = 1u64;
    for row in rows {
        tags.push(language(row, place)?)?;
        place += 1;
    }
    Ok(List::from_vec(tags))
}

/// The languages of a site, whose places count from 1: a list of the form.
pub fn read_languages(alloc: Global, rows: &[Row]) -> Result<List<Text>, StoreFault>
    ensures reads { IfOk result (λ langs. languages_shown rows.now ≡ Some langs) }
    ensures form { IfOk result (λ langs. AreLangs langs) }
{
    let langs = tags(alloc, rows)?;
    match langs_fault(&langs) {
        Some(_) => Err(StoreFault::Failed),
        None => Ok(langs),
    }
}
