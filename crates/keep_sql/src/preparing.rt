//! A store that gets the tables that it lacks, and the edition 0, where none is noted.

ghost use Rattle.std.specs.Prelude.{◌≡◌, ◌≤◌, true, false, IfOk, IfErr, OnOk, IsTrue, [], take, pos, Some};
ghost use Rattle.sqlite_trees.specs.Tree.{Trees};
ghost use Rattle.sqlite_trees.specs.View.{doubt};
ghost use Rattle.sqlite.specs.Held.{state};
ghost use Rattle.sqlite.specs.State.{HasCleanDisk, Survives};
ghost use Rattle.sql_rows.specs.Inside.{Steps};
ghost use Rattle.store_statements.specs.Schema.{schema_of, the_tables};
ghost use Rattle.store_statements.specs.Changes.{IsStore, IsReady, AddsEdition};
ghost use Rattle.store_statements.specs.Making.{HasTables, nothing};
ghost use Rattle.store_statements.specs.Opening.{OpensAgain};
ghost use Rattle.keep_sql.specs.Reading.{ReadsInside, LeavesInside, edition_in, rows_in};
ghost use Rattle.keep_sql.specs.Preparing.{KeepsOnErr, IsBare, IsOlder, IsSound, IsPrepared, Prepares, IsRenewed, Renews, Notes, NotesOurs, MakesOurs, RenewsOurs, NotesInside, StaysFound, NotesStore, is_taken};

use sqlite::{Alter, Connection, Transaction};
use sqlite_schema::schema::Schema;
use std::alloc::Global;
use store_statements::{
    add_edition, edition_rows, is_older, is_ours, make_last, make_tables, reopen,
};
use store_tables::StoreFault;

// The edition of rows whose outcomes no known rules found.
const NO_EDITION: u64 = 0;

/// Whether rows of this edition are taken: of none, or of the rules of one of the desk's editions.
pub fn is_taken(number: u64) -> bool
    ensures { result ≡ is_taken number }
{
    matches!(number, 0 | 1 | 2 | 3_003 | 4_003)
}

/// Opens the store of a connection anew, which is given back where that fails. Its rows stay, and a crash leaves what it
/// could leave before.
pub fn open_anew<S: Alter + Drop>(
    alloc: Global,
    conn: Connection<S>,
) -> Result<Connection<S>, (StoreFault, S)>
    requires idle { conn.in_transaction ≡ false }
    ensures idle { IfOk result (λ c. c.in_transaction ≡ false) }
    ensures sound { IfOk result (λ c. HasCleanDisk (state S.Store c) → IsSound (state S.Store c)) }
    ensures again { IfOk result (λ c. OpensAgain (state S.Store conn) (state S.Store c)) }
    ensures rows { IfOk result (λ c. HasCleanDisk (state S.Store c) → (state S.Store c).now.trees ≡ (state S.Store conn).now.trees) }
    ensures given_back { IfErr result (λ e. (doubt (state S.Store conn).is_clean ≤ doubt (S.Store.view e.1).is_clean) × ((db : Trees) → S.Store.recovers e.1 db → (state S.Store conn).may_leave db)) }
{
    let _idle = conn.is_autocommit();
    match reopen(alloc, conn) {
        Ok(conn) => Ok(conn),
        Err((error, store)) => Err((StoreFault::from(error), store)),
    }
}

fn is_bare(schema: &Schema) -> bool
    ensures { IsTrue result → schema.now ≡ schema_of [] }
{
    schema.tables.len() == 0 && schema.indexes.len() == 0 && schema.views.len() == 0
}

fn make_inside<S: Alter>(tx: &mut Transaction<'_, S>) -> Result<(), StoreFault>
    ensures steps { Steps S.Store tx.old.conn tx.new.conn result }
    ensures makes { HasCleanDisk (state S.Store tx.new.conn.now) → HasTables [] (state S.Store tx.old.conn.now)
        → OnOk result (IsReady (state S.Store tx.new.conn.now) × AddsEdition (pos 0) nothing (rows_in (state S.Store tx.new.conn.now))) }
{
    make_tables(tx)?;
    add_edition(tx, 0)?;
    Ok(())
}

// Makes the tables of a store that has none, and notes its edition, as one transaction.
#[tactic(auto, using(crate::proofs::Noting::makes_left))]
fn make_store<S: Alter>(conn: &mut Connection<S>) -> Result<(), StoreFault>
    requires idle { conn.old.in_transaction ≡ false }
    ensures idle { conn.new.in_transaction ≡ false }
    ensures made { HasCleanDisk (state S.Store conn.new) → IsBare (state S.Store conn.old)
        → OnOk result (IsStore (state S.Store conn.new) × AddsEdition (pos 0) nothing (rows_in (state S.Store conn.new))) }
    ensures kept { KeepsOnErr S.Store conn.old conn.new result }
    ensures crash { Survives (state S.Store conn.old) (state S.Store conn.new) (λ db. IsBare (state S.Store conn.old) → MakesOurs db) }
{
    let _idle = conn.is_autocommit();
    let mut tx = conn.transaction();
    make_inside(&mut tx)?;
    tx.commit()?;
    Ok(())
}

// The edition that is noted, if one is.
fn noted_inside<S: Alter>(tx: &mut Transaction<'_, S>) -> Result<Option<u64>, StoreFault>
    ensures steps { Steps S.Store tx.old.conn tx.new.conn result }
    ensures reads { ReadsInside S.Store edition_in tx.old.conn tx.new.conn result }
    ensures same { LeavesInside S.Store tx.old.conn tx.new.conn result }
{
    let rows = edition_rows(tx)?;
    store_tables::read_edition(rows.as_slice())
}

// The edition that is noted; None where none was, after which 0 is.
fn note_inside<S: Alter>(tx: &mut Transaction<'_, S>) -> Result<Option<u64>, StoreFault>
    ensures steps { Steps S.Store tx.old.conn tx.new.conn result }
    ensures notes { HasCleanDisk (state S.Store tx.new.conn.now) → IsReady (state S.Store tx.old.conn.now)
        → IfOk result (NotesInside (rows_in (state S.Store tx.old.conn.now)) (state S.Store tx.new.conn.now)) }
    ensures stays { HasCleanDisk (state S.Store tx.new.conn.now) → IsReady (state S.Store tx.old.conn.now)
        → IfOk result (StaysFound (state S.Store tx.old.conn.now) (state S.Store tx.new.conn.now)) }
{
    if let Some(number) = noted_inside(tx)? {
        return Ok(Some(number));
    }
    add_edition(tx, 0)?;
    Ok(None)
}

// The same as one transaction.
#[tactic(auto, using(crate::proofs::Noting::ours_left))]
fn found_or_noted<S: Alter>(conn: &mut Connection<S>) -> Result<Option<u64>, StoreFault>
    requires idle { conn.old.in_transaction ≡ false }
    ensures idle { conn.new.in_transaction ≡ false }
    ensures notes { HasCleanDisk (state S.Store conn.new) → IsTrue (state S.Store conn.new).is_open → IsStore (state S.Store conn.old)
        → IfOk result (NotesStore (state S.Store conn.old) (state S.Store conn.new)) }
    ensures kept { KeepsOnErr S.Store conn.old conn.new result }
    ensures crash { Survives (state S.Store conn.old) (state S.Store conn.new) (λ db. IsStore (state S.Store conn.old) → NotesOurs (state S.Store conn.old) db) }
{
    let _idle = conn.is_autocommit();
    let mut tx = conn.transaction();
    if let Some(number) = note_inside(&mut tx)? {
        return Ok(Some(number));
    }
    tx.commit()?;
    Ok(None)
}

// The edition of a store with all tables, which notes 0 where none is noted.
#[tactic(auto, using(crate::proofs::Noting::notes_found, crate::proofs::Noting::notes_ours))]
fn note<S: Alter>(conn: &mut Connection<S>) -> Result<u64, StoreFault>
    requires idle { conn.old.in_transaction ≡ false }
    ensures idle { conn.new.in_transaction ≡ false }
    ensures notes { HasCleanDisk (state S.Store conn.new) → IsTrue (state S.Store conn.new).is_open → IsStore (state S.Store conn.old)
        → IfOk result (Notes (state S.Store conn.old) (state S.Store conn.new)) }
    ensures kept { KeepsOnErr S.Store conn.old conn.new result }
    ensures crash { Survives (state S.Store conn.old) (state S.Store conn.new) (λ db. IsStore (state S.Store conn.old) → NotesOurs (state S.Store conn.old) db) }
{
    match found_or_noted(conn)? {
        Some(number) => Ok(number),
        None => Ok(NO_EDITION),
    }
}

// Makes the last table of an older store, and gives the edition, which is 0 where none was noted.
fn renew_inside<S: Alter>(tx: &mut Transaction<'_, S>) -> Result<u64, StoreFault>
    ensures steps { Steps S.Store tx.old.conn tx.new.conn result }
    ensures makes { HasCleanDisk (state S.Store tx.new.conn.now) → HasTables (take 6 the_tables) (state S.Store tx.old.conn.now)
        → IfOk result (IsRenewed (state S.Store tx.old.conn.now) (state S.Store tx.new.conn.now)) }
{
    make_last(tx)?;
    match note_inside(tx)? {
        Some(number) => Ok(number),
        None => Ok(NO_EDITION),
    }
}

// The same as one transaction, where rows of that edition are taken; else the store is left as it was.
#[tactic(auto, using(crate::proofs::Renewing::renews_taken, crate::proofs::Renewing::renews_untaken, crate::proofs::Renewing::renewed_left))]
fn renew<S: Alter>(conn: &mut Connection<S>) -> Result<u64, StoreFault>
    requires idle { conn.old.in_transaction ≡ false }
    ensures idle { conn.new.in_transaction ≡ false }
    ensures renews { HasCleanDisk (state S.Store conn.new) → IsTrue (state S.Store conn.new).is_open → IsOlder (state S.Store conn.old)
        → IfOk result (Renews (state S.Store conn.old) (state S.Store conn.new)) }
    ensures kept { KeepsOnErr S.Store conn.old conn.new result }
    ensures crash { Survives (state S.Store conn.old) (state S.Store conn.new) (λ db. IsOlder (state S.Store conn.old) → RenewsOurs (state S.Store conn.old) db) }
{
    let _idle = conn.is_autocommit();
    let mut tx = conn.transaction();
    let number = renew_inside(&mut tx)?;
    if !is_taken(number) {
        return Ok(number);
    }
    tx.commit()?;
    Ok(number)
}

/// The edition of a store that was opened anew: of one that has the tables, or gets those that it lacks now. Where rows of
/// the edition aren't taken nothing is changed.
///
/// # Errors
///
/// `Failed` where the store has other tables, which stay as they are, where a noted edition doesn't read, or where a
/// statement was refused for another cause than memory.
#[tactic(auto, using(crate::proofs::Noting::ours_noted, crate::proofs::PrepareLemmas::prepares_none, crate::proofs::PrepareLemmas::left_of_none))]
pub fn prepare<S: Alter>(conn: &mut Connection<S>) -> Result<u64, StoreFault>
    requires idle { conn.old.in_transaction ≡ false }
    requires sound { HasCleanDisk (state S.Store conn.old) → IsSound (state S.Store conn.old) }
    ensures idle { conn.new.in_transaction ≡ false }
    ensures store { HasCleanDisk (state S.Store conn.new) → IsTrue (state S.Store conn.new).is_open
        → IfOk result (λ number. (is_taken number ≡ true → IsStore (state S.Store conn.new)) × (edition_in (state S.Store conn.new) ≡ Some (Some number))) }
    ensures made { HasCleanDisk (state S.Store conn.new) → IsTrue (state S.Store conn.new).is_open
        → IfOk result (λ number. Prepares number (state S.Store conn.old).now.trees (state S.Store conn.new).now.trees) }
    ensures kept { KeepsOnErr S.Store conn.old conn.new result }
    ensures crash { Survives (state S.Store conn.old) (state S.Store conn.new) (IsPrepared (state S.Store conn.old).now.trees) }
{
    if is_bare(conn.schema()) {
        make_store(conn)?;
        return Ok(NO_EDITION);
    }
    if is_older(conn.schema()) {
        return renew(conn);
    }
    if !is_ours(conn.schema()) {
        return Err(StoreFault::Failed);
    }
    note(conn)
}
