//! A store opened anew.

ghost use Rattle.std.specs.Prelude.{◌≡◌, ◌≤◌, false, IfOk, IfErr, IsTrue};
ghost use Rattle.sqlite_trees.specs.Tree.{Trees};
ghost use Rattle.sqlite_trees.specs.View.{doubt};
ghost use Rattle.sqlite.specs.Held.{state};
ghost use Rattle.sqlite.specs.State.{HasCleanDisk, Opens, IsLive};
ghost use Rattle.sql_rows.specs.Opened.{AllRise};
ghost use Rattle.store_statements.specs.Opening.{OpensAgain};

use sqlite::{Alter, Connection, Error, ErrorCode};
use std::alloc::Global;

/// Takes the store out of a connection and makes a connection over it again, after which the rows of each table are
/// known to rise. What isn't committed is rolled back, and the store is read once more. A crash leaves what it could leave
/// before.
///
/// # Errors
///
/// `Closed` where the store is broken, and those of [`Connection::over`]; the store is given back.
pub fn reopen<S: Alter + Drop>(
    alloc: Global,
    conn: Connection<S>,
) -> Result<Connection<S>, (Error, S)>
    ensures opens { IfOk result (λ c. HasCleanDisk (state S.Store c) → Opens (state S.Store c) × IsLive (state S.Store c)) }
    ensures idle { IfOk result (λ c. c.in_transaction ≡ false) }
    ensures rise { IfOk result (λ c. HasCleanDisk (state S.Store c) → AllRise (state S.Store c).now) }
    ensures again { IfOk result (λ c. OpensAgain (state S.Store conn) (state S.Store c)) }
    ensures given_back { IfErr result (λ e. (doubt (state S.Store conn).is_clean ≤ doubt (S.Store.view e.1).is_clean) × ((db : Trees) → S.Store.recovers e.1 db → (state S.Store conn).may_leave db)) }
{
    let store = conn.into_store();
    if store.is_broken() {
        return Err((Error::SqliteFailure(ErrorCode::Closed), store));
    }
    Connection::over(alloc, store)
}
