ghost use Rattle.std.specs.Prelude.{◌≡◌};
ghost use Rattle.std.specs.Option.{option_or};
ghost use Rattle.acc_tree.specs.Following.{rows_above};
ghost use Rattle.acc_tree.specs.Seen.{seen_row, seen};
ghost use Rattle.acc_tree.specs.Sights.{IsClimbed};
ghost use Rattle.rules_more.specs.RequiredContext.{counting, nearest};
ghost use Rattle.rules_more.specs.RoleContexts.{passed_by_all, passed_by_rows};
ghost use Rattle.rules_more.specs.Contexts.{no_contexts, within, context_at};

use crate::role_contexts::passed_roles;
use acc_tree::{Above, role, role_at};
use aria_tables::Role;
use snap_tree::{NodeId, Row, Tree, laws_of_spots};

/// The contexts of what stands at one place of a page: of a row, and of an element of any other role.
#[derive(Clone, Copy, Debug, PartialEq, Eq)]
pub(crate) struct Contexts {
    of_row: Option<Role>,
    of_other: Option<Role>,
}

// The role, unless it is one that is passed over.
fn counting(role: Option<Role>, passed: &[Role]) -> Option<Role>
    ensures { result ≡ counting passed.now role }
{
    match role {
        Some(role) if role.is_one_of(passed) => None,
        _ => role,
    }
}

// The role, unless it is one that is passed over; then that from farther above.
fn nearer(role: Option<Role>, passed: &[Role], farther: Option<Role>) -> Option<Role>
    ensures { result ≡ option_or (counting passed.now role) farther }
{
    match counting(role, passed) {
        Some(role) => Some(role),
        None => farther,
    }
}

fn passed_by_rows() -> &'static [Role]
    ensures { result.now ≡ passed_by_rows }
{
    passed_roles(Role::RowRole)
}

fn passed_by_all() -> &'static [Role]
    ensures { result.now ≡ passed_by_all }
{
    passed_roles(Role::Listitem)
}

impl Contexts {
    /// Above the roots of a page there is no context.
    pub(crate) fn none() -> Self
        ensures { result ≡ no_contexts }
    {
        Contexts {
            of_row: None,
            of_other: None,
        }
    }

    /// The contexts of what stands below a row, where these are its own.
    pub(crate) fn within(self, above: &Above<'_>, row: &Row) -> Self
        ensures { result ≡ within above.now (seen_row row.now) self }
    {
        let role = role_at(above, row);
        Contexts {
            of_row: nearer(role, passed_by_rows(), self.of_row),
            of_other: nearer(role, passed_by_all(), self.of_other),
        }
    }

    /// The context of an element of this role.
    pub(crate) fn of(self, role: Role) -> Option<Role>
        ensures { result ≡ context_at self role }
    {
        match role {
            Role::RowRole => self.of_row,
            _ => self.of_other,
        }
    }
}

// The tree's nodes can be climbed by their parents' numbers. It does nothing: the clause is what it is for.
fn law_of_climbing(tree: &Tree)
    ensures { IsClimbed tree.now.trees }
{
    laws_of_spots();
    let _rows = tree.rows();
}

/// The role of the nearest node above a node, given the parent's number, that has a role which isn't passed over. It walks
/// up to that node.
pub(crate) fn nearest_counting(tree: &Tree, parent: Option<NodeId>, passed: &[Role]) -> Option<Role>
    ensures { result ≡ nearest passed.now (rows_above (seen tree.now.trees) parent) }
{
    let Some(n) = parent else {
        return None;
    };
    law_of_climbing(tree);
    match tree.node(n) {
        Some(row) => match counting(role(tree, n), passed) {
            Some(role) => Some(role),
            None => nearest_counting(tree, row.parent, passed),
        },
        None => None,
    }
}
