ghost use Rattle.std.specs.Prelude.{◌≡◌, Some};
ghost use Rattle.acc_tree.specs.Seen.{seen_row};
ghost use Rattle.rules_tables.specs.Assigned.{heads_columns, by_scope, by_role, direction_of};
ghost use Rattle.rules_tables.specs.Assigned.{goes_down, goes_right, is_below, is_right, is_led_to};
ghost use Rattle.rules_tables.specs.Assigned.{is_data_role};
ghost use Rattle.rules_tables.specs.Survey.{is_data};
ghost use Rattle.acc_tree.specs.Roles.{heads_rows};

use crate::grid::Area;
use acc_tree::{Attribute, explicit_at, is_word_at};
use aria_tables::Role;
use snap_tree::Row;

/// Where the cells of a header lie.
#[derive(Clone, Copy, Debug, PartialEq, Eq)]
pub(crate) enum Direction {
    /// In its columns, below it.
    Down,
    /// In its rows, right of it.
    Right,
    /// Either of these.
    Either,
}

fn heads_columns(row: &Row) -> bool
    ensures { result ≡ heads_columns (seen_row row.now) }
{
    is_word_at(row, Attribute::Scope, "col") || is_word_at(row, Attribute::Scope, "colgroup")
}

fn heads_rows(row: &Row) -> bool
    ensures { result ≡ heads_rows (seen_row row.now) }
{
    is_word_at(row, Attribute::Scope, "row") || is_word_at(row, Attribute::Scope, "rowgroup")
}

fn by_scope(row: &Row) -> Direction
    ensures { result ≡ by_scope (seen_row row.now) }
{
    if heads_columns(row) {
        Direction::Down
    } else if heads_rows(row) {
        Direction::Right
    } else {
        Direction::Either
    }
}

/// Where the cells of a header lie: as its explicit role says, else its scope.
pub(crate) fn direction_of(row: &Row) -> Direction
    ensures { result ≡ direction_of (seen_row row.now) }
{
    match explicit_at(row) {
        Some(Role::Columnheader) => Direction::Down,
        Some(Role::Rowheader) => Direction::Right,
        _ => by_scope(row),
    }
}

fn goes_down(direction: Direction) -> bool
    ensures { result ≡ goes_down direction }
{
    matches!(direction, Direction::Down | Direction::Either)
}

fn goes_right(direction: Direction) -> bool
    ensures { result ≡ goes_right direction }
{
    matches!(direction, Direction::Right | Direction::Either)
}

fn is_below(header: Area, cell: Area) -> bool
    ensures { result ≡ is_below header cell }
{
    header.left < cell.right && cell.left < header.right && header.bottom <= cell.top
}

fn is_right(header: Area, cell: Area) -> bool
    ensures { result ≡ is_right header cell }
{
    header.top < cell.bottom && cell.top < header.bottom && header.right <= cell.left
}

/// Whether a header leads to an area, given where it is placed.
pub(crate) fn is_led_to(direction: Direction, place: Option<Area>, cell: Area) -> bool
    ensures { result ≡ is_led_to direction place cell }
{
    match place {
        Some(header) => {
            (goes_down(direction) && is_below(header, cell))
                || (goes_right(direction) && is_right(header, cell))
        }
        None => false,
    }
}

fn is_data_role(role: Option<Role>) -> bool
    ensures { result ≡ is_data_role role }
{
    matches!(role, Some(Role::Cell | Role::Gridcell))
}

/// Whether a cell has the role cell or gridcell: where it has no explicit role a `td` has one of these, be
/// the table a grid or not, and a `th` has neither.
#[tactic(auto, using(crate::proofs::Seeing::html_seen))]
pub(crate) fn is_data(cell: &Row) -> bool
    ensures { result ≡ is_data (seen_row cell.now) }
{
    match explicit_at(cell) {
        Some(role) => is_data_role(Some(role)),
        None => cell.is_html("td"),
    }
}
