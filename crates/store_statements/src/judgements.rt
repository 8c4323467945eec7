//! The table of judgements.

ghost use Rattle.std.specs.Prelude.{◌≡◌, IsTrue};
ghost use Rattle.sql_rows.specs.Inside.{Steps};
ghost use Rattle.store_statements.specs.Schema.{key_index, judgements_table};
ghost use Rattle.store_statements.specs.Stored.{judgements_at};
ghost use Rattle.store_statements.specs.Changes.{ShowsInside, MakesInside, DropsJudgements, AddsJudgement};
ghost use Rattle.store_statements.specs.Making.{MakesTableInside};

use crate::ours::{is_index, is_table};
use sqlite::{Alter, Error, Row, Transaction, params};
use sqlite_schema::schema::{Index, Kind, Table};

/// A row of the judgements of a page.
#[derive(Clone, Copy)]
pub struct JudgementRow<'a> {
    /// Its place in the list, counted from 1.
    pub seq: i64,
    pub rule: i64,
    pub node: i64,
    pub verdict: i64,
    pub hand: &'a str,
    pub note: &'a str,
    pub evidence: &'a str,
}

/// Makes the fourth table, `judgements`, in a store that has those before it and no other.
///
/// # Errors
///
/// Those of a statement of `sqlite`, after which the transaction may have been rolled back.
pub fn make_judgements<S: Alter>(tx: &mut Transaction<'_, S>) -> Result<usize, Error>
    ensures steps { Steps S.Store tx.old.conn tx.new.conn result }
    ensures makes { MakesTableInside S.Store 3 judgements_table tx.old.conn tx.new.conn result }
{
    tx.execute(
        "CREATE TABLE judgements (site TEXT NOT NULL, page TEXT NOT NULL, seq INTEGER NOT NULL, rule INTEGER NOT NULL, node INTEGER NOT NULL, verdict INTEGER NOT NULL, hand TEXT NOT NULL, note TEXT NOT NULL, evidence TEXT NOT NULL, PRIMARY KEY (site, page, seq)) STRICT",
        &[],
    )
}

/// Whether it is this table.
pub(crate) fn is_judgements(table: &Table) -> bool
    ensures { IsTrue result → table.now ≡ judgements_table }
{
    is_table(
        table,
        "judgements",
        6,
        &[
            ("site", Kind::Text),
            ("page", Kind::Text),
            ("seq", Kind::Integer),
            ("rule", Kind::Integer),
            ("node", Kind::Integer),
            ("verdict", Kind::Integer),
            ("hand", Kind::Text),
            ("note", Kind::Text),
            ("evidence", Kind::Text),
        ],
        &[1, 2, 3],
    )
}

/// Whether it is the index of its key.
pub(crate) fn is_judgements_index(index: &Index) -> bool
    ensures { IsTrue result → index.now ≡ key_index judgements_table }
{
    is_index(index, "sqlite_autoindex_judgements_1", 7, 6, &[1, 2, 3])
}

/// The judgements of a page, each from its `seq` on, in order of their `seq`.
///
/// # Errors
///
/// Those of a query of `sqlite`.
pub fn page_judgements<S: Alter>(
    tx: &mut Transaction<'_, S>,
    site: &str,
    page: &str,
) -> Result<Vec<Row>, Error>
    ensures steps { Steps S.Store tx.old.conn tx.new.conn result }
    ensures shown { ShowsInside S.Store (λ rows s. rows.items ≡ judgements_at site.now page.now s) tx.old.conn tx.new.conn result }
{
    tx.query_all(
        "SELECT seq, rule, node, verdict, hand, note, evidence FROM judgements WHERE site = ?1 AND page = ?2 ORDER BY site, page, seq",
        params![site, page],
    )
}

/// Takes the judgements of a page out.
///
/// # Errors
///
/// Those of a statement of `sqlite`, after which the transaction may have been rolled back.
pub fn drop_judgements<S: Alter>(
    tx: &mut Transaction<'_, S>,
    site: &str,
    page: &str,
) -> Result<usize, Error>
    ensures steps { Steps S.Store tx.old.conn tx.new.conn result }
    ensures makes { MakesInside S.Store (DropsJudgements site.now page.now) tx.old.conn tx.new.conn result }
{
    tx.execute(
        "DELETE FROM judgements WHERE site = ?1 AND page = ?2",
        params![site, page],
    )
}

/// Adds a judgement of a page, whose `seq` isn't there yet.
///
/// # Errors
///
/// Those of a statement of `sqlite`, after which the transaction may have been rolled back.
pub fn add_judgement<S: Alter>(
    tx: &mut Transaction<'_, S>,
    site: &str,
    page: &str,
    row: &JudgementRow<'_>,
) -> Result<usize, Error>
    ensures steps { Steps S.Store tx.old.conn tx.new.conn result }
    ensures makes { MakesInside S.Store (AddsJudgement site.now page.now row.now) tx.old.conn tx.new.conn result }
{
    tx.execute(
        "INSERT INTO judgements (site, page, seq, rule, node, verdict, hand, note, evidence) VALUES (?1, ?2, ?3, ?4, ?5, ?6, ?7, ?8, ?9)",
        params![
            site,
            page,
            row.seq,
            row.rule,
            row.node,
            row.verdict,
            row.hand,
            row.note,
            row.evidence
        ],
    )
}
