//! Each call fails until a store is prepared.

ghost use Rattle.std.specs.Prelude.{IfOk};
ghost use Rattle.keep_core.specs.Fits.{Fits};

use crate::fits::named;
use fixture_keepers::failing_reads;
use fixture_stores::waiting_keeper;
use keep_core::{Batch, Change, KeepFault, Keeper};
use keep_sql::SqlKeeper;
use snap_tree::Text;
use sqlite::Alter;
use std::alloc::Global;
use std::test::Fail;

// Which of the calls that read fail, of the site acme, its page home and the user ann: the five that name a site, and the three that don't.
type Failing = [bool; 8];

const ALL: Failing = [true; 8];

const NONE: Failing = [false; 8];

fn drop_home(alloc: Global) -> Result<Change, Fail>
    ensures { IfOk result Fits }
{
    let site = named(alloc, "acme")?;
    let page = named(alloc, "home")?;
    Ok(Change::DropPage { site, page })
}

// Whether the page can't be dropped.
fn fails_to_drop<S: Alter>(alloc: Global, keeper: &mut SqlKeeper<S>) -> Result<bool, Fail> {
    let change = drop_home(alloc)?;
    let dropped = keeper.apply(alloc, &Batch { change });
    Ok(matches!(dropped, Err(KeepFault::Failed)))
}

// Whether those that read fail so, and dropping the page too or not.
fn all_fail<S: Alter>(
    alloc: Global,
    keeper: &mut SqlKeeper<S>,
    wanted: Failing,
    drops: bool,
) -> Result<bool, Fail> {
    let site = Text::from_str(alloc, "acme")?;
    let page = Text::from_str(alloc, "home")?;
    let user = Text::from_str(alloc, "ann")?;
    let fails = failing_reads(alloc, keeper, &site, &page, &user);
    Ok(fails == wanted && fails_to_drop(alloc, keeper)? == drops)
}

// Whether before a store is prepared each call fails, and after it none.
fn fails_until_prepared<S: Alter + Drop>(
    alloc: Global,
    mut keeper: SqlKeeper<S>,
) -> Result<bool, Fail> {
    let is_waiting = all_fail(alloc, &mut keeper, ALL, true)?;
    keeper.prepare(alloc)?;
    let is_ready = all_fail(alloc, &mut keeper, NONE, false)?;
    Ok(is_waiting && is_ready)
}

#[test]
fn each_call_fails_until_the_store_is_prepared(rt: HostRuntime) -> Result<(), Fail> {
    let keeper = waiting_keeper(rt.alloc(), false, &[])?;
    match fails_until_prepared(rt.alloc(), keeper)? {
        true => Ok(()),
        false => Err(Fail::from("a call")),
    }
}
