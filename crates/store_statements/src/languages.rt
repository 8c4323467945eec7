//! The table of sites' languages.

ghost use Rattle.std.specs.Prelude.{◌≡◌, IsTrue};
ghost use Rattle.sql_rows.specs.Inside.{Steps};
ghost use Rattle.store_statements.specs.Schema.{key_index, languages_table};
ghost use Rattle.store_statements.specs.Stored.{languages_at};
ghost use Rattle.store_statements.specs.Changes.{ShowsInside, MakesInside, DropsLanguages, AddsLanguage};
ghost use Rattle.store_statements.specs.Making.{MakesTableInside};

use crate::ours::{is_index, is_table};
use sqlite::{Alter, Error, Row, Transaction, params};
use sqlite_schema::schema::{Index, Kind, Table};

/// Makes the last table, `languages`, in a store that has those before it and no other.
///
/// # Errors
///
/// Those of a statement of `sqlite`, after which the transaction may have been rolled back.
pub fn make_languages<S: Alter>(tx: &mut Transaction<'_, S>) -> Result<usize, Error>
    ensures steps { Steps S.Store tx.old.conn tx.new.conn result }
    ensures makes { MakesTableInside S.Store 6 languages_table tx.old.conn tx.new.conn result }
{
    tx.execute(
        "CREATE TABLE languages (site TEXT NOT NULL, seq INTEGER NOT NULL, tag TEXT NOT NULL, PRIMARY KEY (site, seq)) STRICT",
        &[],
    )
}

/// Whether it is this table.
pub(crate) fn is_languages(table: &Table) -> bool
    ensures { IsTrue result → table.now ≡ languages_table }
{
    is_table(
        table,
        "languages",
        12,
        &[
            ("site", Kind::Text),
            ("seq", Kind::Integer),
            ("tag", Kind::Text),
        ],
        &[1, 2],
    )
}

/// Whether it is the index of its key.
pub(crate) fn is_languages_index(index: &Index) -> bool
    ensures { IsTrue result → index.now ≡ key_index languages_table }
{
    is_index(index, "sqlite_autoindex_languages_1", 13, 12, &[1, 2])
}

/// The places and tags of a site's languages, in order of the places.
///
/// # Errors
///
/// Those of a query of `sqlite`.
pub fn site_languages<S: Alter>(tx: &mut Transaction<'_, S>, site: &str) -> Result<Vec<Row>, Error>
    ensures steps { Steps S.Store tx.old.conn tx.new.conn result }
    ensures shown { ShowsInside S.Store (λ rows s. rows.items ≡ languages_at site.now s) tx.old.conn tx.new.conn result }
{
    tx.query_all(
        "SELECT seq, tag FROM languages WHERE site = ?1 ORDER BY site, seq",
        params![site],
    )
}

/// Takes the languages of a site out.
///
/// # Errors
///
/// Those of a statement of `sqlite`, after which the transaction may have been rolled back.
pub fn drop_languages<S: Alter>(tx: &mut Transaction<'_, S>, site: &str) -> Result<usize, Error>
    ensures steps { Steps S.Store tx.old.conn tx.new.conn result }
    ensures makes { MakesInside S.Store (DropsLanguages site.now) tx.old.conn tx.new.conn result }
{
    tx.execute("DELETE FROM languages WHERE site = ?1", params![site])
}

/// Adds a language of a site at a place where none is.
///
/// # Errors
///
/// Those of a statement of `sqlite`, after which the transaction may have been rolled back.
pub fn add_language<S: Alter>(
    tx: &mut Transaction<'_, S>,
    site: &str,
    seq: i64,
    tag: &str,
) -> Result<usize, Error>
    ensures steps { Steps S.Store tx.old.conn tx.new.conn result }
    ensures makes { MakesInside S.Store (AddsLanguage site.now seq tag.now) tx.old.conn tx.new.conn result }
{
    tx.execute(
        "INSERT INTO languages (site, seq, tag) VALUES (?1, ?2, ?3)",
        params![site, seq, tag],
    )
}
