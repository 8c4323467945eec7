//! The table of members.

ghost use Rattle.std.specs.Prelude.{◌≡◌, IsTrue};
ghost use Rattle.sql_rows.specs.Inside.{Steps};
ghost use Rattle.store_statements.specs.Schema.{key_index, members_table};
ghost use Rattle.store_statements.specs.Stored.{members_at, memberships_at};
ghost use Rattle.store_statements.specs.Changes.{ShowsInside, MakesInside, DropsMembers, AddsMember};
ghost use Rattle.store_statements.specs.Making.{MakesTableInside};

use crate::ours::{is_index, is_table};
use sqlite::{Alter, Error, Row, Transaction, params};
use sqlite_schema::schema::{Index, Kind, Table};

/// Makes the second table, `members`, in a store that has those before it and no other.
///
/// # Errors
///
/// Those of a statement of `sqlite`, after which the transaction may have been rolled back.
pub fn make_members<S: Alter>(tx: &mut Transaction<'_, S>) -> Result<usize, Error>
    ensures steps { Steps S.Store tx.old.conn tx.new.conn result }
    ensures makes { MakesTableInside S.Store 1 members_table tx.old.conn tx.new.conn result }
{
    tx.execute(
        "CREATE TABLE members (site TEXT NOT NULL, user TEXT NOT NULL, role INTEGER NOT NULL, PRIMARY KEY (site, user)) STRICT",
        &[],
    )
}

/// Whether it is this table.
pub(crate) fn is_members(table: &Table) -> bool
    ensures { IsTrue result → table.now ≡ members_table }
{
    is_table(
        table,
        "members",
        2,
        &[
            ("site", Kind::Text),
            ("user", Kind::Text),
            ("role", Kind::Integer),
        ],
        &[1, 2],
    )
}

/// Whether it is the index of its key.
pub(crate) fn is_members_index(index: &Index) -> bool
    ensures { IsTrue result → index.now ≡ key_index members_table }
{
    is_index(index, "sqlite_autoindex_members_1", 3, 2, &[1, 2])
}

/// The users and roles of a site's members, in byte order of the users.
///
/// # Errors
///
/// Those of a query of `sqlite`.
pub fn site_members<S: Alter>(tx: &mut Transaction<'_, S>, site: &str) -> Result<Vec<Row>, Error>
    ensures steps { Steps S.Store tx.old.conn tx.new.conn result }
    ensures shown { ShowsInside S.Store (λ rows s. rows.items ≡ members_at site.now s) tx.old.conn tx.new.conn result }
{
    tx.query_all(
        "SELECT user, role FROM members WHERE site = ?1 ORDER BY site, user",
        params![site],
    )
}

/// The sites of which a user is a member, with the role in each, in byte order of the sites.
///
/// # Errors
///
/// Those of a query of `sqlite`.
pub fn user_sites<S: Alter>(tx: &mut Transaction<'_, S>, user: &str) -> Result<Vec<Row>, Error>
    ensures steps { Steps S.Store tx.old.conn tx.new.conn result }
    ensures shown { ShowsInside S.Store (λ rows s. rows.items ≡ memberships_at user.now s) tx.old.conn tx.new.conn result }
{
    tx.query_all(
        "SELECT site, role FROM members WHERE user = ?1 ORDER BY site",
        params![user],
    )
}

/// Takes the members of a site out.
///
/// # Errors
///
/// Those of a statement of `sqlite`, after which the transaction may have been rolled back.
pub fn drop_members<S: Alter>(tx: &mut Transaction<'_, S>, site: &str) -> Result<usize, Error>
    ensures steps { Steps S.Store tx.old.conn tx.new.conn result }
    ensures makes { MakesInside S.Store (DropsMembers site.now) tx.old.conn tx.new.conn result }
{
    tx.execute("DELETE FROM members WHERE site = ?1", params![site])
}

/// Adds a member of a site, who isn't there yet.
///
/// # Errors
///
/// Those of a statement of `sqlite`, after which the transaction may have been rolled back.
pub fn add_member<S: Alter>(
    tx: &mut Transaction<'_, S>,
    site: &str,
    user: &str,
    role: i64,
) -> Result<usize, Error>
    ensures steps { Steps S.Store tx.old.conn tx.new.conn result }
    ensures makes { MakesInside S.Store (AddsMember site.now user.now role) tx.old.conn tx.new.conn result }
{
    tx.execute(
        "INSERT INTO members (site, user, role) VALUES (?1, ?2, ?3)",
        params![site, user, role],
    )
}
