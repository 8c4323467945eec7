//! The tables, made in one call; and the last one, of a store that has the others.

ghost use Rattle.std.specs.Prelude.{◌≡◌, [], take, OnOk};
ghost use Rattle.sqlite.specs.Held.{state};
ghost use Rattle.sqlite.specs.State.{HasCleanDisk};
ghost use Rattle.sql_rows.specs.Inside.{Steps};
ghost use Rattle.store_statements.specs.Schema.{the_tables};
ghost use Rattle.store_statements.specs.Stored.{stored};
ghost use Rattle.store_statements.specs.Changes.{IsReady};
ghost use Rattle.store_statements.specs.Making.{HasTables, MakesLast, nothing};

use crate::editions::make_edition;
use crate::judgements::make_judgements;
use crate::languages::make_languages;
use crate::members::make_members;
use crate::outcomes::make_outcomes;
use crate::pages::make_pages;
use crate::sites::make_sites;
use sqlite::{Alter, Error, Transaction};

/// Makes all seven tables, in a store that has none.
///
/// # Errors
///
/// Those of a statement of `sqlite`, after which the transaction may have been rolled back.
pub fn make_tables<S: Alter>(tx: &mut Transaction<'_, S>) -> Result<(), Error>
    ensures steps { Steps S.Store tx.old.conn tx.new.conn result }
    ensures makes { HasCleanDisk (state S.Store tx.new.conn.now) → HasTables [] (state S.Store tx.old.conn.now)
        → OnOk result (IsReady (state S.Store tx.new.conn.now) × (stored (state S.Store tx.new.conn.now).now.trees ≡ nothing)) }
{
    make_sites(tx)?;
    make_members(tx)?;
    make_pages(tx)?;
    make_judgements(tx)?;
    make_outcomes(tx)?;
    make_edition(tx)?;
    make_languages(tx)?;
    Ok(())
}

/// Makes the last table, in a store that has the six others.
///
/// # Errors
///
/// Those of a statement of `sqlite`, after which the transaction may have been rolled back.
pub fn make_last<S: Alter>(tx: &mut Transaction<'_, S>) -> Result<(), Error>
    ensures steps { Steps S.Store tx.old.conn tx.new.conn result }
    ensures makes { HasCleanDisk (state S.Store tx.new.conn.now) → HasTables (take 6 the_tables) (state S.Store tx.old.conn.now)
        → OnOk result (IsReady (state S.Store tx.new.conn.now)
        × MakesLast (stored (state S.Store tx.old.conn.now).now.trees) (stored (state S.Store tx.new.conn.now).now.trees)) }
{
    make_languages(tx)?;
    Ok(())
}
