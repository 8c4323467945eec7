//! The table of the store's edition.

ghost use Rattle.std.specs.Prelude.{◌≡◌, IsTrue};
ghost use Rattle.sql_rows.specs.Inside.{Steps};
ghost use Rattle.store_statements.specs.Schema.{key_index, edition_table};
ghost use Rattle.store_statements.specs.Stored.{editions_at};
ghost use Rattle.store_statements.specs.Changes.{ShowsInside, MakesInside, DropsEditions, AddsEdition};
ghost use Rattle.store_statements.specs.Making.{MakesTableInside};

use crate::ours::{is_index, is_table};
use sqlite::{Alter, Error, Row, Transaction, params};
use sqlite_schema::schema::{Index, Kind, Table};

/// Makes the sixth table, `edition`, in a store that has those before it and no other.
///
/// # Errors
///
/// Those of a statement of `sqlite`, after which the transaction may have been rolled back.
pub fn make_edition<S: Alter>(tx: &mut Transaction<'_, S>) -> Result<usize, Error>
    ensures steps { Steps S.Store tx.old.conn tx.new.conn result }
    ensures makes { MakesTableInside S.Store 5 edition_table tx.old.conn tx.new.conn result }
{
    tx.execute(
        "CREATE TABLE edition (number INT NOT NULL, PRIMARY KEY (number)) STRICT",
        &[],
    )
}

/// Whether it is this table.
pub(crate) fn is_edition(table: &Table) -> bool
    ensures { IsTrue result → table.now ≡ edition_table }
{
    is_table(table, "edition", 10, &[("number", Kind::Integer)], &[1])
}

/// Whether it is the index of its key.
pub(crate) fn is_edition_index(index: &Index) -> bool
    ensures { IsTrue result → index.now ≡ key_index edition_table }
{
    is_index(index, "sqlite_autoindex_edition_1", 11, 10, &[1])
}

/// The numbers of the editions that are noted, from the least.
///
/// # Errors
///
/// Those of a query of `sqlite`.
pub fn edition_rows<S: Alter>(tx: &mut Transaction<'_, S>) -> Result<Vec<Row>, Error>
    ensures steps { Steps S.Store tx.old.conn tx.new.conn result }
    ensures shown { ShowsInside S.Store (λ rows s. rows.items ≡ editions_at s) tx.old.conn tx.new.conn result }
{
    tx.query_all("SELECT number FROM edition ORDER BY number", params![])
}

/// Takes all editions out.
///
/// # Errors
///
/// Those of a statement of `sqlite`, after which the transaction may have been rolled back.
pub fn drop_editions<S: Alter>(tx: &mut Transaction<'_, S>) -> Result<usize, Error>
    ensures steps { Steps S.Store tx.old.conn tx.new.conn result }
    ensures makes { MakesInside S.Store DropsEditions tx.old.conn tx.new.conn result }
{
    tx.execute("DELETE FROM edition", params![])
}

/// Notes an edition, which isn't there yet.
///
/// # Errors
///
/// Those of a statement of `sqlite`, after which the transaction may have been rolled back.
pub fn add_edition<S: Alter>(tx: &mut Transaction<'_, S>, number: i64) -> Result<usize, Error>
    ensures steps { Steps S.Store tx.old.conn tx.new.conn result }
    ensures makes { MakesInside S.Store (AddsEdition number) tx.old.conn tx.new.conn result }
{
    tx.execute("INSERT INTO edition (number) VALUES (?1)", params![number])
}
