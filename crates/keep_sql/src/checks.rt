//! What has to read before it is replaced or dropped. Each call fails with `Failed` where it doesn't.

ghost use Rattle.std.specs.Prelude.{◌≡◌, [], suc, length, IfOk, OnOk, IsTrue, Some, None, true, IsSome};
ghost use Rattle.sqlite.specs.Held.{state};
ghost use Rattle.sqlite.specs.State.{HasCleanDisk, IsUnchanged};
ghost use Rattle.sql_rows.specs.Inside.{Steps};
ghost use Rattle.store_statements.specs.Stored.{site_at, members_at, heads_at, judgements_at, languages_at, editions_at};
ghost use Rattle.store_statements.specs.Changes.{IsReady, ShowsInside};
ghost use Rattle.store_tables.specs.Batches.{ReadsSite, ReadsPage, ReadsJudged};
ghost use Rattle.store_tables.specs.Sites.{site_shown};
ghost use Rattle.store_tables.specs.Editions.{edition_shown};
ghost use Rattle.store_tables.specs.Judgements.{judgements_shown};
ghost use Rattle.store_tables.specs.Told.{is_site, is_page};
ghost use Rattle.keep_sql.specs.Reading.{outcomes_in, Recalls, ReadsKnowing};
ghost use Rattle.keep_sql.specs.Writing.{FindsInside, FindsKnowing, ShowsKnowing};

use crate::known::{Known, known_of};
use crate::reads;
use judge_core::{Judgement, Outcomes};
use keep_core::Page;
use snap_tree::{List, Text};
use sqlite::{Alter, Transaction};
use std::alloc::Global;
use store_statements::{heads, page_judgements, page_row, site_languages, site_members, site_row};
use store_tables::{Memo, StoreFault};

/// Whether there is a site of this name.
pub fn has_site<S: Alter>(tx: &mut Transaction<'_, S>, site: &str) -> Result<bool, StoreFault>
    ensures steps { Steps S.Store tx.old.conn tx.new.conn result }
    ensures finds { ShowsInside S.Store (λ found s. is_site s site.now ≡ found) tx.old.conn tx.new.conn result }
{
    let rows = site_row(tx, site)?;
    Ok(rows.len() != 0)
}

/// Whether there is a page of this name.
pub fn has_page<S: Alter>(
    tx: &mut Transaction<'_, S>,
    site: &str,
    page: &str,
) -> Result<bool, StoreFault>
    ensures steps { Steps S.Store tx.old.conn tx.new.conn result }
    ensures finds { ShowsInside S.Store (λ found s. is_page s site.now page.now ≡ found) tx.old.conn tx.new.conn result }
{
    let rows = page_row(tx, site, page)?;
    Ok(rows.len() != 0)
}

// Fails where there are members, languages or pages of a site.
fn check_none<S: Alter>(tx: &mut Transaction<'_, S>, site: &str) -> Result<(), StoreFault>
    ensures steps { Steps S.Store tx.old.conn tx.new.conn result }
    ensures finds { FindsInside S.Store (λ s. (members_at site.now s ≡ []) × (languages_at site.now s ≡ []) × (heads_at site.now s ≡ [])) tx.old.conn tx.new.conn result }
{
    let members = site_members(tx, site)?;
    let languages = site_languages(tx, site)?;
    let pages = heads(tx, site)?;
    if members.len() != 0 || languages.len() != 0 || pages.len() != 0 {
        return Err(StoreFault::Failed);
    }
    Ok(())
}

/// A site's row, its members and its languages read; without the row there are none and no pages of its name.
pub fn check_site<S: Alter>(
    alloc: Global,
    tx: &mut Transaction<'_, S>,
    site: &Text,
) -> Result<(), StoreFault>
    ensures steps { Steps S.Store tx.old.conn tx.new.conn result }
    ensures finds { FindsInside S.Store (ReadsSite site.now) tx.old.conn tx.new.conn result }
{
    match reads::site_in(alloc, tx, site)? {
        Some(_) => Ok(()),
        None => check_none(tx, site.as_str()),
    }
}

/// A site is there, and its row, its members and its languages read.
pub fn check_kept<S: Alter>(
    alloc: Global,
    tx: &mut Transaction<'_, S>,
    site: &Text,
) -> Result<(), StoreFault>
    ensures steps { Steps S.Store tx.old.conn tx.new.conn result }
    ensures finds { FindsInside S.Store (λ s. (is_site s site.now ≡ true) × IsSome (site_shown site.now (site_at site.now s) (members_at site.now s) (languages_at site.now s))) tx.old.conn tx.new.conn result }
{
    match reads::site_in(alloc, tx, site)? {
        Some(_) => Ok(()),
        None => Err(StoreFault::Failed),
    }
}

// Without a page there are no judgements and no outcomes.
fn are_housed(page: &Option<Page>, judgements: &List<Judgement>, outcomes: &Outcomes) -> bool
    ensures { IsTrue result → page.now ≡ None → (judgements.now ≡ []) × (outcomes.now.rows ≡ []) }
{
    page.is_some() || (judgements.len() == 0 && outcomes.rows.len() == 0)
}

// The outcomes of a page, which are read where they aren't those that are known.
#[tactic(auto, using(crate::proofs::Checking::recalled, crate::proofs::Checking::unchanged_itself))]
fn kept_outcomes<S: Alter>(
    alloc: Global,
    tx: &mut Transaction<'_, S>,
    site: &Text,
    page: &Text,
    known: Option<Known>,
) -> Result<Outcomes, StoreFault>
    ensures steps { Steps S.Store tx.old.conn tx.new.conn result }
    ensures reads { HasCleanDisk (state S.Store tx.new.conn.now) → IsReady (state S.Store tx.old.conn.now) → IsTrue (state S.Store tx.old.conn.now).is_open → Recalls known (state S.Store tx.old.conn.now)
        → IfOk result (λ outcomes. outcomes_in site.now page.now (state S.Store tx.old.conn.now) ≡ Some outcomes) }
    ensures same { HasCleanDisk (state S.Store tx.new.conn.now) → IsReady (state S.Store tx.old.conn.now) → IsTrue (state S.Store tx.old.conn.now).is_open
        → OnOk result (IsUnchanged (state S.Store tx.old.conn.now) (state S.Store tx.new.conn.now)) }
{
    match known_of(known, site, page) {
        Some(outcomes) => Ok(outcomes),
        None => reads::outcomes_in(alloc, tx, site, page),
    }
}

/// The outcomes of a page. Its row, its judgements and its outcomes read; without the row there are none of its name.
/// Those that are known aren't read again.
pub fn check_page<S: Alter>(
    alloc: Global,
    memo: &mut Memo,
    tx: &mut Transaction<'_, S>,
    site: &Text,
    page: &Text,
    known: Option<Known>,
) -> Result<Outcomes, StoreFault>
    ensures steps { Steps S.Store tx.old.conn tx.new.conn result }
    ensures reads { ReadsKnowing S.Store known (λ outcomes s. outcomes_in site.now page.now s ≡ Some outcomes) tx.old.conn tx.new.conn result }
    ensures finds { FindsKnowing S.Store known (ReadsPage site.now page.now) tx.old.conn tx.new.conn result }
{
    let found = reads::page_in(alloc, memo, tx, site, page)?;
    let judgements = reads::judgements_in(alloc, tx, site, page)?;
    let outcomes = kept_outcomes(alloc, tx, site, page, known)?;
    if !are_housed(&found, &judgements, &outcomes) {
        return Err(StoreFault::Failed);
    }
    Ok(outcomes)
}

// The place that comes behind the judgements of a page, which read.
fn next_place<S: Alter>(
    alloc: Global,
    tx: &mut Transaction<'_, S>,
    site: &str,
    page: &str,
) -> Result<u64, StoreFault>
    ensures steps { Steps S.Store tx.old.conn tx.new.conn result }
    ensures finds { ShowsInside S.Store (λ place s. (place ≡ suc (length (judgements_at site.now page.now s))) × IsSome (judgements_shown (judgements_at site.now page.now s))) tx.old.conn tx.new.conn result }
{
    let rows = page_judgements(tx, site, page)?;
    store_tables::read_judgements(alloc, rows.as_slice())?;
    Ok(rows.len() as u64 + 1)
}

// Fails unless the site and the page are there.
fn check_there<S: Alter>(
    tx: &mut Transaction<'_, S>,
    site: &str,
    page: &str,
) -> Result<(), StoreFault>
    ensures steps { Steps S.Store tx.old.conn tx.new.conn result }
    ensures finds { FindsInside S.Store (λ s. (is_site s site.now ≡ true) × (is_page s site.now page.now ≡ true)) tx.old.conn tx.new.conn result }
{
    let has_site = has_site(tx, site)?;
    let has_page = has_page(tx, site, page)?;
    if !has_site || !has_page {
        return Err(StoreFault::Failed);
    }
    Ok(())
}

/// The place that comes behind the judgements of a page, and its outcomes. The page is there, and its judgements and
/// its outcomes read. Those that are known aren't read again.
pub fn check_judged<S: Alter>(
    alloc: Global,
    tx: &mut Transaction<'_, S>,
    site: &Text,
    page: &Text,
    known: Option<Known>,
) -> Result<(u64, Outcomes), StoreFault>
    ensures steps { Steps S.Store tx.old.conn tx.new.conn result }
    ensures reads { ReadsKnowing S.Store known (λ found s. outcomes_in site.now page.now s ≡ Some found.1) tx.old.conn tx.new.conn result }
    ensures finds { ShowsKnowing S.Store known (λ found s. (found.0 ≡ suc (length (judgements_at site.now page.now s))) × ReadsJudged site.now page.now s) tx.old.conn tx.new.conn result }
{
    check_there(tx, site.as_str(), page.as_str())?;
    let place = next_place(alloc, tx, site.as_str(), page.as_str())?;
    let outcomes = kept_outcomes(alloc, tx, site, page, known)?;
    Ok((place, outcomes))
}

/// The editions that are noted read.
pub fn check_editions<S: Alter>(tx: &mut Transaction<'_, S>) -> Result<(), StoreFault>
    ensures steps { Steps S.Store tx.old.conn tx.new.conn result }
    ensures finds { FindsInside S.Store (λ s. IsSome (edition_shown (editions_at s))) tx.old.conn tx.new.conn result }
{
    reads::kept_in(tx)?;
    Ok(())
}
