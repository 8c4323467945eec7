//! Sites and heads that fit: whose users, and pages, come in byte order. Each call fails with `Failed` where they don't.

ghost use Rattle.std.specs.Prelude.{◌≡◌, Some, IfOk, IfSome, IsTrue};
ghost use Rattle.named_rows.specs.ByName.{names_cmp, IsInOrder};
ghost use Rattle.std.specs.declared.cmp.Ordering.TheVariants.{Less};
ghost use Rattle.keep_core.specs.declared.member.Member.{Member};
ghost use Rattle.keep_core.specs.Fits.{FitsSite, FitsHeads};
ghost use Rattle.store_tables.specs.Sites.{site_shown};
ghost use Rattle.store_tables.specs.Pages.{heads_shown};
ghost use Rattle.keep_sql.specs.Fitting.{ComesFirst};

use keep_core::{PageHead, Site};
use named_rows::Named;
use snap_tree::{List, Text};
use sqlite::Row;
use std::alloc::Global;
use std::cmp::Ordering;
use store_tables::StoreFault;

fn is_below<T: Named>(row: &T, other: &T) -> bool
    ensures { IsTrue result → names_cmp (T.name row.now) (T.name other.now) ≡ Less }
{
    let name = row.name().as_str().as_bytes();
    name.cmp(other.name().as_str().as_bytes()) == Ordering::Less
}

// Whether a name is below the first of some rows, if there is one.
fn comes_first<T: Named>(row: &T, rows: &[T]) -> bool
    ensures { IsTrue result → ComesFirst T.name row.now rows.now }
{
    match rows.first() {
        Some(first) => is_below(row, first),
        None => true,
    }
}

#[tactic(auto, using(crate::proofs::FitLemmas::in_order_from))]
fn are_in_order<T: Named>(rows: &[T]) -> bool
    ensures { IsTrue result → IsInOrder T.name rows.now }
{
    let Some((first, rest)) = rows.split_first() else {
        return true;
    };
    comes_first(first, rest) && are_in_order(rest)
}

fn is_in_order(site: &Option<Site>) -> bool
    ensures { IsTrue result → IfSome site.now (λ s. IsInOrder (λ (m : Member). m.user) s.members) }
{
    match site {
        Some(site) => are_in_order(site.members.as_slice()),
        None => true,
    }
}

/// The site of a name, by what is shown of its row, if there is one, of its members and of its languages.
#[tactic(auto, using(crate::proofs::FitLemmas::site_fits))]
pub fn site(
    alloc: Global,
    name: &Text,
    counters: &[Row],
    members: &[Row],
    languages: &[Row],
) -> Result<Option<Site>, StoreFault>
    ensures reads { IfOk result (λ found. site_shown name.now counters.now members.now languages.now ≡ Some found) }
    ensures fits { IfOk result (λ found. IfSome found FitsSite) }
{
    let found = store_tables::read_site(alloc, name, counters, members, languages)?;
    if !is_in_order(&found) {
        return Err(StoreFault::Failed);
    }
    Ok(found)
}

/// The heads of pages.
#[tactic(auto, using(crate::proofs::FitLemmas::heads_fit))]
pub fn heads(alloc: Global, rows: &[Row]) -> Result<List<PageHead>, StoreFault>
    ensures reads { IfOk result (λ heads. heads_shown rows.now ≡ Some heads) }
    ensures fits { IfOk result FitsHeads }
{
    let heads = store_tables::read_heads(alloc, rows)?;
    if !are_in_order(heads.as_slice()) {
        return Err(StoreFault::Failed);
    }
    Ok(heads)
}
