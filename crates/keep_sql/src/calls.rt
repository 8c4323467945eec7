//! What is read of a store, each in a transaction of its own that is dropped.

ghost use Rattle.std.specs.Prelude.{◌≡◌, false, IfOk, IfSome};
ghost use Rattle.keep_core.specs.Fits.{FitsSite, FitsPage, FitsHeads, FitNames};
ghost use Rattle.keep_sql.specs.Reading.{kept_in, names_in, site_in, memberships_in, page_in, heads_in, judgements_in, outcomes_in, ReadsStore, OnlyReads};

use crate::reads;
use judge_core::{Judgement, Outcomes};
use keep_core::{Membership, Page, PageHead, Site};
use snap_tree::{List, Text};
use sqlite::{Alter, Connection};
use std::alloc::Global;
use store_tables::{Memo, StoreFault};

/// The edition that is kept.
pub fn read_edition<S: Alter>(conn: &mut Connection<S>) -> Result<u64, StoreFault>
    requires idle { conn.old.in_transaction ≡ false }
    ensures only { OnlyReads S.Store conn.old conn.new }
    ensures reads { ReadsStore S.Store kept_in conn.old conn.new result }
{
    let _idle = conn.is_autocommit();
    let mut tx = conn.transaction();
    reads::kept_in(&mut tx)
}

/// The names of all sites, in byte order.
pub fn read_names<S: Alter>(
    alloc: Global,
    conn: &mut Connection<S>,
) -> Result<List<Text>, StoreFault>
    requires idle { conn.old.in_transaction ≡ false }
    ensures only { OnlyReads S.Store conn.old conn.new }
    ensures reads { ReadsStore S.Store names_in conn.old conn.new result }
    ensures fits { IfOk result FitNames }
{
    let _idle = conn.is_autocommit();
    let mut tx = conn.transaction();
    reads::names_in(alloc, &mut tx)
}

/// The site of a name with its members and its languages; None where there is none.
pub fn read_site<S: Alter>(
    alloc: Global,
    conn: &mut Connection<S>,
    site: &Text,
) -> Result<Option<Site>, StoreFault>
    requires idle { conn.old.in_transaction ≡ false }
    ensures only { OnlyReads S.Store conn.old conn.new }
    ensures reads { ReadsStore S.Store (site_in site.now) conn.old conn.new result }
    ensures fits { IfOk result (λ found. IfSome found FitsSite) }
{
    let _idle = conn.is_autocommit();
    let mut tx = conn.transaction();
    reads::site_in(alloc, &mut tx, site)
}

/// The sites of which a user is a member, with the role in each, in byte order of their names.
pub fn read_memberships<S: Alter>(
    alloc: Global,
    conn: &mut Connection<S>,
    user: &Text,
) -> Result<List<Membership>, StoreFault>
    requires idle { conn.old.in_transaction ≡ false }
    ensures only { OnlyReads S.Store conn.old conn.new }
    ensures reads { ReadsStore S.Store (memberships_in user.now) conn.old conn.new result }
{
    let _idle = conn.is_autocommit();
    let mut tx = conn.transaction();
    reads::memberships_in(alloc, &mut tx, user)
}

/// A page of a site; None where there is none.
pub fn read_page<S: Alter>(
    alloc: Global,
    memo: &mut Memo,
    conn: &mut Connection<S>,
    site: &Text,
    page: &Text,
) -> Result<Option<Page>, StoreFault>
    requires idle { conn.old.in_transaction ≡ false }
    ensures only { OnlyReads S.Store conn.old conn.new }
    ensures reads { ReadsStore S.Store (page_in site.now page.now) conn.old conn.new result }
    ensures fits { IfOk result (λ found. IfSome found FitsPage) }
{
    let _idle = conn.is_autocommit();
    let mut tx = conn.transaction();
    reads::page_in(alloc, memo, &mut tx, site, page)
}

/// The heads of a site's pages, in byte order of their names.
pub fn read_heads<S: Alter>(
    alloc: Global,
    conn: &mut Connection<S>,
    site: &Text,
) -> Result<List<PageHead>, StoreFault>
    requires idle { conn.old.in_transaction ≡ false }
    ensures only { OnlyReads S.Store conn.old conn.new }
    ensures reads { ReadsStore S.Store (heads_in site.now) conn.old conn.new result }
    ensures fits { IfOk result FitsHeads }
{
    let _idle = conn.is_autocommit();
    let mut tx = conn.transaction();
    reads::heads_in(alloc, &mut tx, site)
}

/// The judgements of a page in order of acceptance.
pub fn read_judgements<S: Alter>(
    alloc: Global,
    conn: &mut Connection<S>,
    site: &Text,
    page: &Text,
) -> Result<List<Judgement>, StoreFault>
    requires idle { conn.old.in_transaction ≡ false }
    ensures only { OnlyReads S.Store conn.old conn.new }
    ensures reads { ReadsStore S.Store (judgements_in site.now page.now) conn.old conn.new result }
{
    let _idle = conn.is_autocommit();
    let mut tx = conn.transaction();
    reads::judgements_in(alloc, &mut tx, site, page)
}

/// The outcomes of a page.
pub fn read_outcomes<S: Alter>(
    alloc: Global,
    conn: &mut Connection<S>,
    site: &Text,
    page: &Text,
) -> Result<Outcomes, StoreFault>
    requires idle { conn.old.in_transaction ≡ false }
    ensures only { OnlyReads S.Store conn.old conn.new }
    ensures reads { ReadsStore S.Store (outcomes_in site.now page.now) conn.old conn.new result }
{
    let _idle = conn.is_autocommit();
    let mut tx = conn.transaction();
    reads::outcomes_in(alloc, &mut tx, site, page)
}
