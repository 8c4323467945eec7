//! The table of pages.

ghost use Rattle.std.specs.Prelude.{◌≡◌, IsTrue};
ghost use Rattle.sql_rows.specs.Inside.{Steps};
ghost use Rattle.store_statements.specs.Schema.{key_index, pages_table};
ghost use Rattle.store_statements.specs.Stored.{page_at, heads_at};
ghost use Rattle.store_statements.specs.Changes.{ShowsInside, MakesInside, PutsPage, DropsPage};
ghost use Rattle.store_statements.specs.Making.{MakesTableInside};

use crate::ours::{is_index, is_table};
use sqlite::{Alter, Error, Row, Transaction, params};
use sqlite_schema::schema::{Index, Kind, Table};

/// Makes the third table, `pages`, in a store that has those before it and no other.
///
/// # Errors
///
/// Those of a statement of `sqlite`, after which the transaction may have been rolled back.
pub fn make_pages<S: Alter>(tx: &mut Transaction<'_, S>) -> Result<usize, Error>
    ensures steps { Steps S.Store tx.old.conn tx.new.conn result }
    ensures makes { MakesTableInside S.Store 2 pages_table tx.old.conn tx.new.conn result }
{
    tx.execute(
        "CREATE TABLE pages (site TEXT NOT NULL, page TEXT NOT NULL, rev INTEGER NOT NULL, hand TEXT NOT NULL, snapshot BLOB NOT NULL, PRIMARY KEY (site, page)) STRICT",
        &[],
    )
}

/// Whether it is this table.
pub(crate) fn is_pages(table: &Table) -> bool
    ensures { IsTrue result → table.now ≡ pages_table }
{
    is_table(
        table,
        "pages",
        4,
        &[
            ("site", Kind::Text),
            ("page", Kind::Text),
            ("rev", Kind::Integer),
            ("hand", Kind::Text),
            ("snapshot", Kind::Blob),
        ],
        &[1, 2],
    )
}

/// Whether it is the index of its key.
pub(crate) fn is_pages_index(index: &Index) -> bool
    ensures { IsTrue result → index.now ≡ key_index pages_table }
{
    is_index(index, "sqlite_autoindex_pages_1", 5, 4, &[1, 2])
}

/// The revision, hand and snapshot of a page, or no row.
///
/// # Errors
///
/// Those of a query of `sqlite`.
pub fn page_row<S: Alter>(
    tx: &mut Transaction<'_, S>,
    site: &str,
    page: &str,
) -> Result<Vec<Row>, Error>
    ensures steps { Steps S.Store tx.old.conn tx.new.conn result }
    ensures shown { ShowsInside S.Store (λ rows s. rows.items ≡ page_at site.now page.now s) tx.old.conn tx.new.conn result }
{
    tx.query_all(
        "SELECT rev, hand, snapshot FROM pages WHERE site = ?1 AND page = ?2",
        params![site, page],
    )
}

/// The names, revisions and hands of a site's pages, in byte order of the names.
///
/// # Errors
///
/// Those of a query of `sqlite`.
pub fn heads<S: Alter>(tx: &mut Transaction<'_, S>, site: &str) -> Result<Vec<Row>, Error>
    ensures steps { Steps S.Store tx.old.conn tx.new.conn result }
    ensures shown { ShowsInside S.Store (λ rows s. rows.items ≡ heads_at site.now s) tx.old.conn tx.new.conn result }
{
    tx.query_all(
        "SELECT page, rev, hand FROM pages WHERE site = ?1 ORDER BY site, page",
        params![site],
    )
}

/// Puts the row of a page, in place of the one of its site and name.
///
/// # Errors
///
/// Those of a statement of `sqlite`, after which the transaction may have been rolled back.
pub fn put_page<S: Alter>(
    tx: &mut Transaction<'_, S>,
    site: &str,
    page: &str,
    rev: i64,
    hand: &str,
    snapshot: &[u8],
) -> Result<usize, Error>
    ensures steps { Steps S.Store tx.old.conn tx.new.conn result }
    ensures makes { MakesInside S.Store (PutsPage site.now page.now rev hand.now snapshot.now) tx.old.conn tx.new.conn result }
{
    tx.execute(
        "INSERT OR REPLACE INTO pages (site, page, rev, hand, snapshot) VALUES (?1, ?2, ?3, ?4, ?5)",
        params![site, page, rev, hand, snapshot],
    )
}

/// Takes the row of a page out. Its judgements and outcomes stay.
///
/// # Errors
///
/// Those of a statement of `sqlite`, after which the transaction may have been rolled back.
pub fn drop_page<S: Alter>(
    tx: &mut Transaction<'_, S>,
    site: &str,
    page: &str,
) -> Result<usize, Error>
    ensures steps { Steps S.Store tx.old.conn tx.new.conn result }
    ensures makes { MakesInside S.Store (DropsPage site.now page.now) tx.old.conn tx.new.conn result }
{
    tx.execute(
        "DELETE FROM pages WHERE site = ?1 AND page = ?2",
        params![site, page],
    )
}
