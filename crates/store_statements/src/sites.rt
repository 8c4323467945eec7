//! The table of sites.

ghost use Rattle.std.specs.Prelude.{◌≡◌, IsTrue};
ghost use Rattle.sql_rows.specs.Inside.{Steps};
ghost use Rattle.store_statements.specs.Schema.{key_index, sites_table};
ghost use Rattle.store_statements.specs.Stored.{names_at, site_at};
ghost use Rattle.store_statements.specs.Changes.{ShowsInside, MakesInside, PutsSite};
ghost use Rattle.store_statements.specs.Making.{MakesTableInside};

use crate::ours::{is_index, is_table};
use sqlite::{Alter, Error, Row, Transaction, params};
use sqlite_schema::schema::{Index, Kind, Table};

/// Makes the first table, `sites`, in a store that has none.
///
/// # Errors
///
/// Those of a statement of `sqlite`, after which the transaction may have been rolled back.
pub fn make_sites<S: Alter>(tx: &mut Transaction<'_, S>) -> Result<usize, Error>
    ensures steps { Steps S.Store tx.old.conn tx.new.conn result }
    ensures makes { MakesTableInside S.Store 0 sites_table tx.old.conn tx.new.conn result }
{
    tx.execute(
        "CREATE TABLE sites (name TEXT NOT NULL, counter INTEGER NOT NULL, PRIMARY KEY (name)) STRICT",
        &[],
    )
}

/// Whether it is this table.
pub(crate) fn is_sites(table: &Table) -> bool
    ensures { IsTrue result → table.now ≡ sites_table }
{
    is_table(
        table,
        "sites",
        0,
        &[("name", Kind::Text), ("counter", Kind::Integer)],
        &[1],
    )
}

/// Whether it is the index of its key.
pub(crate) fn is_sites_index(index: &Index) -> bool
    ensures { IsTrue result → index.now ≡ key_index sites_table }
{
    is_index(index, "sqlite_autoindex_sites_1", 1, 0, &[1])
}

/// The names of all sites, in byte order.
///
/// # Errors
///
/// Those of a query of `sqlite`.
pub fn site_names<S: Alter>(tx: &mut Transaction<'_, S>) -> Result<Vec<Row>, Error>
    ensures steps { Steps S.Store tx.old.conn tx.new.conn result }
    ensures shown { ShowsInside S.Store (λ rows s. rows.items ≡ names_at s) tx.old.conn tx.new.conn result }
{
    tx.query_all("SELECT name FROM sites ORDER BY name", params![])
}

/// The counter of a site, or no row.
///
/// # Errors
///
/// Those of a query of `sqlite`; the transaction goes on, unless the disk failed.
pub fn site_row<S: Alter>(tx: &mut Transaction<'_, S>, site: &str) -> Result<Vec<Row>, Error>
    ensures steps { Steps S.Store tx.old.conn tx.new.conn result }
    ensures shown { ShowsInside S.Store (λ rows s. rows.items ≡ site_at site.now s) tx.old.conn tx.new.conn result }
{
    tx.query_all("SELECT counter FROM sites WHERE name = ?1", params![site])
}

/// Puts the row of a site, in place of the one of its name.
///
/// # Errors
///
/// Those of a statement of `sqlite`.
pub fn put_site<S: Alter>(
    tx: &mut Transaction<'_, S>,
    site: &str,
    counter: i64,
) -> Result<usize, Error>
    ensures steps { Steps S.Store tx.old.conn tx.new.conn result }
    ensures makes { MakesInside S.Store (PutsSite site.now counter) tx.old.conn tx.new.conn result }
{
    tx.execute(
        "INSERT OR REPLACE INTO sites (name, counter) VALUES (?1, ?2)",
        params![site, counter],
    )
}
