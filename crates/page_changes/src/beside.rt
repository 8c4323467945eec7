ghost use Rattle.std.specs.Prelude.{◌≡◌, List, ◌∷◌, true, Some};
ghost use Rattle.std.specs.Option.{option_copied, option_eq};
ghost use Rattle.snap_tree.specs.declared.row.Row.{Row};
ghost use Rattle.snap_tree.specs.Spots.{spot};
ghost use Rattle.snap_tree.specs.Trees.{Trees};
ghost use Rattle.acc_tree.specs.declared.above.Above.{Above};
ghost use Rattle.acc_tree.specs.Seen.{seen_row, seen};
ghost use Rattle.acc_tree.specs.Frames.{under, above_of};
ghost use Rattle.acc_tree.specs.Sights.{Sight, sight_of};
ghost use Rattle.page_changes.specs.Here.{frame_here, own_here};
ghost use Rattle.page_changes.specs.Beside.{same_table, same_above, IsPair, IsFramedBy, IsFramed, AreTwins};
ghost use Rattle.page_keys.specs.Standing.{spot_with};

use crate::same::{same_frames, same_role, same_shape};
use acc_tree::{Above, TableAbove, sight_of, under};
use snap_tree::{NodeId, Row, Tree};

/// What is above a node on one page and on the other.
#[derive(Drop)]
pub(crate) struct Pair<'a> {
    pub(crate) above: Above<'a>,
    pub(crate) other: Above<'a>,
}

/// Whether a node has the same frame on the other page, and what is above its children on both; None where that is
/// the same.
#[derive(Drop)]
pub(crate) struct Framed<'a> {
    pub(crate) same: bool,
    pub(crate) below: Option<Pair<'a>>,
}

fn same_table(a: Option<TableAbove>, b: Option<TableAbove>) -> bool
    ensures { result ≡ option_eq same_table a b }
{
    match (a, b) {
        (Some(a), Some(b)) => a.node == b.node && same_role(a.role, b.role),
        (None, None) => true,
        _ => false,
    }
}

fn same_aboves(a: &Above<'_>, b: &Above<'_>) -> bool
    ensures { result ≡ same_above a.now b.now }
{
    a.is_in_section() == b.is_in_section()
        && (a.is_in_list() == b.is_in_list()
            && (same_table(a.table(), b.table())
                && (a.label() == b.label()
                    && (a.is_hidden() == b.is_hidden() && a.is_disabled() == b.is_disabled()))))
}

// What is above the children of a row on one page, and of another row on the other.
fn parted<'a>(
    above: &Above<'a>,
    row: &'a Row,
    other_above: &Above<'a>,
    other: &'a Row,
) -> Option<Pair<'a>>
    ensures { IsPair result (under above.now (seen_row row.now)) (under other_above.now (seen_row other.now)) }
{
    let above = under(above, row);
    let other = under(other_above, other);
    if same_aboves(&above, &other) {
        None
    } else {
        Some(Pair { above, other })
    }
}

// The same, of two rows each under what is above it.
fn framed_by<'a>(
    above: &Above<'a>,
    row: &'a Row,
    other_above: &Above<'a>,
    other: &'a Row,
) -> Framed<'a>
    ensures { IsFramedBy above.now (seen_row row.now) other_above.now (seen_row other.now) result }
{
    Framed {
        same: same_frames(above, row, other_above, other),
        below: parted(above, row, other_above, other),
    }
}

// What is above a node, which is found by climbing.
#[inline(never)]
fn above_at(page: &Tree, n: NodeId) -> Above<'_>
    ensures { (s : Sight) → sight_of (seen page.now.trees) n ≡ Some s → result ≡ s.above }
{
    match sight_of(page, n) {
        Some(sight) => sight.above,
        None => Above::nothing(),
    }
}

/// What is above the children of a node of the old page, under what is known to be above it.
#[inline(never)]
pub(crate) fn under_old<'a>(old: &'a Tree, pair: Option<&Pair<'a>>, row: &'a Row) -> Above<'a>
    ensures { (kids : Trees) (ups : List Row) (other : Above) → spot (seen old.now.trees) row.now.id ≡ Some (spot_with (seen_row row.now) kids ups)
        → IsPair (option_copied pair.entry) (above_of ups) other → result ≡ above_of (seen_row row.now ∷ ups) }
{
    match pair {
        Some(pair) => under(&pair.above, row),
        None => under(&above_at(old, row.id), row),
    }
}

/// Of a node of the old page, under what is known to be above it, and of the other one's row under what is above that.
#[inline(never)]
pub(crate) fn framed_apart<'a>(
    old: &'a Tree,
    pair: Option<&Pair<'a>>,
    row: &'a Row,
    other_above: &Above<'a>,
    other: &'a Row,
) -> Framed<'a>
    ensures { (kids : Trees) (ups : List Row) (above : Above) → spot (seen old.now.trees) row.now.id ≡ Some (spot_with (seen_row row.now) kids ups)
        → IsPair (option_copied pair.entry) (above_of ups) above
        → IsFramedBy (above_of ups) (seen_row row.now) other_above.now (seen_row other.now) result }
{
    match pair {
        Some(pair) => framed_by(&pair.above, row, other_above, other),
        None => framed_by(&above_at(old, row.id), row, other_above, other),
    }
}

/// Whether a node has an equal row on the other page, where it stands under what is known to be above it, and what is
/// above both is the same. Then its frame is the same, and what is above its children.
#[inline(always)]
pub(crate) fn is_alike(pair: Option<&Pair<'_>>, row: &Row, other: &Row, own: bool) -> bool
    ensures { (old new : Trees) (ups others : List Row) (kids below : Trees)
        → AreTwins old new ups others (seen_row row.now) (seen_row other.now) kids below
        → own ≡ own_here new (seen_row row.now) → IsPair (option_copied pair.entry) (above_of ups) (above_of others) → result ≡ true
        → (true ≡ frame_here new (above_of ups) (seen_row row.now)) × (above_of (seen_row row.now ∷ ups) ≡ above_of (seen_row other.now ∷ others)) }
{
    match pair {
        Some(_) => false,
        None => own & same_shape(row, other),
    }
}

/// Of a node that stands on the other page under what is known to be above it there.
#[inline(never)]
pub(crate) fn framed_under<'a>(
    old: &'a Tree,
    pair: Option<&Pair<'a>>,
    row: &'a Row,
    other: &'a Row,
) -> Framed<'a>
    ensures { (new : Trees) (ups others : List Row) (kids below : Trees)
        → AreTwins (seen old.now.trees) new ups others (seen_row row.now) (seen_row other.now) kids below
        → IsPair (option_copied pair.entry) (above_of ups) (above_of others)
        → IsFramed new ups others (seen_row row.now) (seen_row other.now) result }
{
    match pair {
        Some(pair) => framed_by(&pair.above, row, &pair.other, other),
        None => {
            let above = above_at(old, row.id);
            framed_by(&above, row, &above, other)
        }
    }
}
