//! What is read in a transaction. Each call fails with `Failed` where a statement was refused for another cause than
//! memory, or a row doesn't read.

ghost use Rattle.std.specs.Prelude.{IfOk, IfSome};
ghost use Rattle.sql_rows.specs.Inside.{Steps};
ghost use Rattle.keep_core.specs.Fits.{FitsSite, FitsPage, FitsHeads, FitNames};
ghost use Rattle.keep_sql.specs.Reading.{kept_in, names_in, site_in, memberships_in, page_in, heads_in, judgements_in, outcomes_in, ReadsInside, LeavesInside};

use crate::fitting;
use judge_core::{Judgement, Outcomes};
use keep_core::{Membership, Page, PageHead, Site};
use snap_tree::{List, Text};
use sqlite::{Alter, Transaction};
use std::alloc::Global;
use store_statements::{
    edition_rows, heads, page_judgements, page_outcomes, page_row, site_languages, site_members,
    site_names, site_row, user_sites,
};
use store_tables::{Memo, StoreFault};

/// The edition that is kept.
pub fn kept_in<S: Alter>(tx: &mut Transaction<'_, S>) -> Result<u64, StoreFault>
    ensures steps { Steps S.Store tx.old.conn tx.new.conn result }
    ensures reads { ReadsInside S.Store kept_in tx.old.conn tx.new.conn result }
    ensures same { LeavesInside S.Store tx.old.conn tx.new.conn result }
{
    let rows = edition_rows(tx)?;
    store_tables::read_kept_edition(rows.as_slice())
}

/// The names of all sites, in byte order.
pub fn names_in<S: Alter>(
    alloc: Global,
    tx: &mut Transaction<'_, S>,
) -> Result<List<Text>, StoreFault>
    ensures steps { Steps S.Store tx.old.conn tx.new.conn result }
    ensures reads { ReadsInside S.Store names_in tx.old.conn tx.new.conn result }
    ensures fits { IfOk result FitNames }
    ensures same { LeavesInside S.Store tx.old.conn tx.new.conn result }
{
    let rows = site_names(tx)?;
    store_tables::read_names(alloc, rows.as_slice())
}

/// The site of a name with its members and its languages; None where there is none.
pub fn site_in<S: Alter>(
    alloc: Global,
    tx: &mut Transaction<'_, S>,
    site: &Text,
) -> Result<Option<Site>, StoreFault>
    ensures steps { Steps S.Store tx.old.conn tx.new.conn result }
    ensures reads { ReadsInside S.Store (site_in site.now) tx.old.conn tx.new.conn result }
    ensures fits { IfOk result (λ found. IfSome found FitsSite) }
    ensures same { LeavesInside S.Store tx.old.conn tx.new.conn result }
{
    let counters = site_row(tx, site.as_str())?;
    let members = site_members(tx, site.as_str())?;
    let languages = site_languages(tx, site.as_str())?;
    fitting::site(
        alloc,
        site,
        counters.as_slice(),
        members.as_slice(),
        languages.as_slice(),
    )
}

/// The sites of which a user is a member, with the role in each, in byte order of their names.
pub fn memberships_in<S: Alter>(
    alloc: Global,
    tx: &mut Transaction<'_, S>,
    user: &Text,
) -> Result<List<Membership>, StoreFault>
    ensures steps { Steps S.Store tx.old.conn tx.new.conn result }
    ensures reads { ReadsInside S.Store (memberships_in user.now) tx.old.conn tx.new.conn result }
    ensures same { LeavesInside S.Store tx.old.conn tx.new.conn result }
{
    let rows = user_sites(tx, user.as_str())?;
    store_tables::read_memberships(alloc, rows.as_slice())
}

/// A page of a site; None where there is none.
pub fn page_in<S: Alter>(
    alloc: Global,
    memo: &mut Memo,
    tx: &mut Transaction<'_, S>,
    site: &Text,
    page: &Text,
) -> Result<Option<Page>, StoreFault>
    ensures steps { Steps S.Store tx.old.conn tx.new.conn result }
    ensures reads { ReadsInside S.Store (page_in site.now page.now) tx.old.conn tx.new.conn result }
    ensures fits { IfOk result (λ found. IfSome found FitsPage) }
    ensures same { LeavesInside S.Store tx.old.conn tx.new.conn result }
{
    let rows = page_row(tx, site.as_str(), page.as_str())?;
    store_tables::read_page(alloc, memo, page, rows.as_slice())
}

/// The heads of a site's pages, in byte order of their names.
pub fn heads_in<S: Alter>(
    alloc: Global,
    tx: &mut Transaction<'_, S>,
    site: &Text,
) -> Result<List<PageHead>, StoreFault>
    ensures steps { Steps S.Store tx.old.conn tx.new.conn result }
    ensures reads { ReadsInside S.Store (heads_in site.now) tx.old.conn tx.new.conn result }
    ensures fits { IfOk result FitsHeads }
    ensures same { LeavesInside S.Store tx.old.conn tx.new.conn result }
{
    let rows = heads(tx, site.as_str())?;
    fitting::heads(alloc, rows.as_slice())
}

/// The judgements of a page in order of acceptance.
pub fn judgements_in<S: Alter>(
    alloc: Global,
    tx: &mut Transaction<'_, S>,
    site: &Text,
    page: &Text,
) -> Result<List<Judgement>, StoreFault>
    ensures steps { Steps S.Store tx.old.conn tx.new.conn result }
    ensures reads { ReadsInside S.Store (judgements_in site.now page.now) tx.old.conn tx.new.conn result }
    ensures same { LeavesInside S.Store tx.old.conn tx.new.conn result }
{
    let rows = page_judgements(tx, site.as_str(), page.as_str())?;
    store_tables::read_judgements(alloc, rows.as_slice())
}

/// The outcomes of a page.
pub fn outcomes_in<S: Alter>(
    alloc: Global,
    tx: &mut Transaction<'_, S>,
    site: &Text,
    page: &Text,
) -> Result<Outcomes, StoreFault>
    ensures steps { Steps S.Store tx.old.conn tx.new.conn result }
    ensures reads { ReadsInside S.Store (outcomes_in site.now page.now) tx.old.conn tx.new.conn result }
    ensures same { LeavesInside S.Store tx.old.conn tx.new.conn result }
{
    let rows = page_outcomes(tx, site.as_str(), page.as_str())?;
    store_tables::read_outcomes(alloc, rows.as_slice())
}
