ghost use Rattle.std.specs.Prelude.{◌≡◌, List, [], Some, None, IfSome};
ghost use Rattle.std.specs.Option.{option_copied};
ghost use Rattle.snap_tree.specs.declared.row.Row.{Row};
ghost use Rattle.snap_tree.specs.Trees.{Trees, tree};
ghost use Rattle.snap_tree.specs.Spots.{spot};
ghost use Rattle.acc_tree.specs.Frames.{above_of};
ghost use Rattle.acc_tree.specs.Seen.{seen_row, seen};
ghost use Rattle.acc_tree.specs.Sights.{sight_of, seen_sight};
ghost use Rattle.page_keys.specs.Standing.{spot_with, Stand};
ghost use Rattle.page_changes.specs.Beside.{IsPair, Leads, Meets, ahead_of};

use crate::beside::{Pair, framed_apart, framed_under, is_alike, under_old};
use crate::same::{same_owns, same_roots};
use acc_tree::{Above, Sight, sight_of};
use snap_tree::{Branch, Branches, NodeId, Row, Tree};

// So many trees ahead are looked at.
const NEAR: usize = 32;

/// What of a node is the same on the other page, and where both are gone over from here.
#[derive(Drop)]
pub(crate) struct Met<'a> {
    pub(crate) frame: bool,
    pub(crate) own: bool,
    pub(crate) kids: bool,
    /// The trees below it on the other page, where that holds it.
    pub(crate) below: Option<Branches<'a>>,
    /// What is above its children on the two pages; None where it is the same.
    pub(crate) pair: Option<Pair<'a>>,
    /// The trees that are still ahead on the other page.
    pub(crate) after: Option<Branches<'a>>,
}

// The first of some trees with this number at its root, among so many.
#[inline(never)]
fn near<'a>(ahead: &Branches<'a>, n: NodeId, steps: usize) -> Option<Branch<'a>>
    ensures { IfSome result (λ branch. Leads (seen ahead.now) n branch) }
{
    if steps == 0 {
        return None;
    }
    let branch = ahead.first()?;
    if branch.row.id == n {
        Some(branch)
    } else {
        near(&branch.after, n, steps - 1)
    }
}

// The very first of some trees, where it has this number at its root. Mostly it has.
#[inline(always)]
fn heading<'a>(ahead: Option<&Branches<'a>>, n: NodeId) -> Option<Branch<'a>>
    ensures { IfSome result (λ branch. Leads (ahead_of (option_copied ahead.entry)) n branch) }
{
    let branch = ahead?.first()?;
    if branch.row.id == n {
        Some(branch)
    } else {
        None
    }
}

// The first with this number among the most that are looked at.
fn leading<'a>(ahead: Option<&Branches<'a>>, n: NodeId) -> Option<Branch<'a>>
    ensures { IfSome result (λ branch. Leads (ahead_of (option_copied ahead.entry)) n branch) }
{
    near(ahead?, n, NEAR)
}

// A node that stands ahead on the other page.
#[inline(always)]
fn met_ahead<'a>(
    old: &'a Tree,
    pair: Option<&Pair<'a>>,
    row: &'a Row,
    kids: &Branches<'a>,
    branch: Branch<'a>,
) -> Met<'a>
    ensures { (new : Trees) (ups others : List Row) → spot (seen old.now.trees) row.now.id ≡ Some (spot_with (seen_row row.now) (seen kids.now) ups)
        → branch.entry.row.now.id ≡ row.now.id → Stand new others (tree (seen_row branch.entry.row.now) (seen branch.entry.kids) (seen branch.entry.after))
        → IsPair (option_copied pair.entry) (above_of ups) (above_of others)
        → Meets new ups others (seen_row row.now) (seen kids.now) result }
{
    let own = same_owns(row, branch.row);
    let kids = same_roots(kids, &branch.kids);
    if is_alike(pair, row, branch.row, own) {
        Met {
            frame: true,
            own,
            kids,
            below: Some(branch.kids),
            pair: None,
            after: Some(branch.after),
        }
    } else {
        let framed = framed_under(old, pair, row, branch.row);
        Met {
            frame: framed.same,
            own,
            kids,
            below: Some(branch.kids),
            pair: framed.below,
            after: Some(branch.after),
        }
    }
}

// A node that stands elsewhere on the other page.
#[inline(never)]
fn met_elsewhere<'a>(
    old: &'a Tree,
    pair: Option<&Pair<'a>>,
    row: &'a Row,
    kids: &Branches<'a>,
    sight: Sight<'a>,
    ahead: Option<Branches<'a>>,
) -> Met<'a>
    ensures { (new : Trees) (ups others : List Row) → spot (seen old.now.trees) row.now.id ≡ Some (spot_with (seen_row row.now) (seen kids.now) ups)
        → Stand new [] new → Some (seen_sight sight.entry) ≡ sight_of new row.now.id → Stand new others (ahead_of ahead.entry)
        → IsPair (option_copied pair.entry) (above_of ups) (above_of others)
        → Meets new ups others (seen_row row.now) (seen kids.now) result }
{
    let own = same_owns(row, sight.row);
    let kids = same_roots(kids, &sight.below);
    let framed = framed_apart(old, pair, row, &sight.above, sight.row);
    Met {
        frame: framed.same,
        own,
        kids,
        below: Some(sight.below),
        pair: framed.below,
        after: ahead,
    }
}

// A node that the other page doesn't hold.
#[inline(never)]
fn unmet<'a>(
    old: &'a Tree,
    pair: Option<&Pair<'a>>,
    row: &'a Row,
    ahead: Option<Branches<'a>>,
) -> Met<'a>
    ensures { (new kids : Trees) (ups others : List Row) → spot (seen old.now.trees) row.now.id ≡ Some (spot_with (seen_row row.now) kids ups)
        → None ≡ sight_of new row.now.id → Stand new others (ahead_of ahead.entry)
        → IsPair (option_copied pair.entry) (above_of ups) (above_of others)
        → Meets new ups others (seen_row row.now) kids result }
{
    let above = under_old(old, pair, row);
    Met {
        frame: false,
        own: false,
        kids: false,
        below: None,
        pair: Some(Pair {
            above,
            other: Above::nothing(),
        }),
        after: ahead,
    }
}

// A node that isn't the very first ahead. It is looked for among the next, and else by its number.
#[inline(never)]
fn met_behind<'a>(
    old: &'a Tree,
    new: &'a Tree,
    pair: Option<&Pair<'a>>,
    row: &'a Row,
    kids: &Branches<'a>,
    ahead: Option<Branches<'a>>,
) -> Met<'a>
    ensures { (ups others : List Row) → spot (seen old.now.trees) row.now.id ≡ Some (spot_with (seen_row row.now) (seen kids.now) ups)
        → Stand (seen new.now.trees) [] (seen new.now.trees) → Stand (seen new.now.trees) others (ahead_of ahead.entry)
        → IsPair (option_copied pair.entry) (above_of ups) (above_of others)
        → Meets (seen new.now.trees) ups others (seen_row row.now) (seen kids.now) result }
{
    if let Some(branch) = leading(ahead.as_ref(), row.id) {
        return met_ahead(old, pair, row, kids, branch);
    }
    match sight_of(new, row.id) {
        Some(sight) => met_elsewhere(old, pair, row, kids, sight, ahead),
        None => unmet(old, pair, row, ahead),
    }
}

/// A node of the old page, under what is above both; some trees of the new one stand ahead. It is looked for among
/// the next of these, and else by its number.
#[inline(always)]
pub(crate) fn meet<'a>(
    old: &'a Tree,
    new: &'a Tree,
    pair: Option<&Pair<'a>>,
    row: &'a Row,
    kids: &Branches<'a>,
    ahead: Option<Branches<'a>>,
) -> Met<'a>
    ensures { (ups others : List Row) → spot (seen old.now.trees) row.now.id ≡ Some (spot_with (seen_row row.now) (seen kids.now) ups)
        → Stand (seen new.now.trees) [] (seen new.now.trees) → Stand (seen new.now.trees) others (ahead_of ahead.entry)
        → IsPair (option_copied pair.entry) (above_of ups) (above_of others)
        → Meets (seen new.now.trees) ups others (seen_row row.now) (seen kids.now) result }
{
    if let Some(branch) = heading(ahead.as_ref(), row.id) {
        return met_ahead(old, pair, row, kids, branch);
    }
    met_behind(old, new, pair, row, kids, ahead)
}
