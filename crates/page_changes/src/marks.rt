ghost use Rattle.std.specs.Prelude.{◌≡◌, ◌++◌, ◌<◌, ◌≤◌, List, slice_set, vec_len, IfOk, OnOk};
ghost use Rattle.std.specs.Option.{option_copied};
ghost use Rattle.snap_tree.specs.declared.row.Row.{Row};
ghost use Rattle.snap_tree.specs.Well.{IsWell};
ghost use Rattle.acc_tree.specs.declared.above.Above.{Above};
ghost use Rattle.acc_tree.specs.Frames.{above_of, under};
ghost use Rattle.acc_tree.specs.Seen.{seen, seen_row};
ghost use Rattle.page_keys.specs.Classes.{table_in};
ghost use Rattle.page_changes.specs.Beside.{AreBeside, ahead_of};
ghost use Rattle.page_changes.specs.Here.{tree_here, marks_here};
ghost use Rattle.page_changes.specs.Marks.{AreMarks};

use crate::beside::Pair;
use crate::labels::is_html;
use crate::met::{Met, meet};
use snap_tree::{Branches, NodeId, OutOfMemory, Row, Tree};
use std::alloc::Global;

/// What of a node is the same on another page.
#[derive(Clone, Copy)]
pub(crate) struct Marks {
    pub(crate) node: NodeId,
    /// It names no parent.
    pub(crate) root: bool,
    /// It is a `meta`.
    pub(crate) meta: bool,
    /// The nearest table above it.
    pub(crate) table: Option<NodeId>,
    /// Its frame, what it has of its own, and the frames above it.
    pub(crate) itself: bool,
    /// What it has of its own.
    pub(crate) own: bool,
    /// Its frame, what it has of its own and which its children are, and the same of each node below it.
    pub(crate) tree: bool,
}

/// What of a page is the same on another one.
#[derive(Drop)]
pub(crate) struct PageMarks {
    /// Of each node, in document order.
    pub(crate) each: Vec<Marks>,
    /// Frame, own parts and children of each node.
    pub(crate) all: bool,
}

// The nearest table above the children of a row.
#[inline(always)]
fn table_under(table: Option<NodeId>, row: &Row) -> Option<NodeId>
    ensures { (above : Above) → table ≡ table_in above → result ≡ table_in (under above (seen_row row.now)) }
{
    if is_html(row, "table") {
        Some(row.id)
    } else {
        table
    }
}

fn put(list: &mut Vec<Marks>, place: usize, marks: Marks)
    requires { place < vec_len list.old }
    ensures items { list.new.items ≡ slice_set list.old.items place marks }
    ensures len { vec_len list.new ≡ vec_len list.old }
{
    list[place] = marks;
}

// Adds the marks of the nodes of some trees; beside them, trees of the new page stand ahead. What is above both is
// handed down, as are the nearest table and whether the frames above are the same; whether everything of the trees is
// the same is handed up.
#[cycle(adding)]
fn add_marks<'a>(
    list: &mut Vec<Marks>,
    old: &'a Tree,
    new: &'a Tree,
    pair: Option<&Pair<'a>>,
    table: Option<NodeId>,
    above_same: bool,
    trees: Branches<'a>,
    ahead: Option<Branches<'a>>,
) -> Result<bool, OutOfMemory>
    ensures longer { OnOk result (vec_len list.old ≤ vec_len list.new) }
    ensures list { (ups others : List Row)
        → AreBeside (seen old.now.trees) (seen new.now.trees) (option_copied pair.entry) ups others (seen trees.entry) (ahead_of ahead.entry)
        → table ≡ table_in (above_of ups)
        → OnOk result (list.new.items ≡ list.old.items ++ marks_here (seen new.now.trees) (above_of ups) above_same (seen trees.entry)) }
    ensures all { (ups others : List Row)
        → AreBeside (seen old.now.trees) (seen new.now.trees) (option_copied pair.entry) ups others (seen trees.entry) (ahead_of ahead.entry)
        → table ≡ table_in (above_of ups)
        → IfOk result (λ all. all ≡ tree_here (seen new.now.trees) (above_of ups) (seen trees.entry)) }
{
    let mut all = true;
    let mut rest = trees;
    let mut next = ahead;
    while let Some(branch) = rest.first() {
        let place = list.len();
        let Met {
            frame,
            own,
            kids,
            below,
            pair: beneath,
            after,
        } = meet(old, new, pair, branch.row, &branch.kids, next);
        let mut marks = Marks {
            node: branch.row.id,
            root: branch.row.parent.is_none(),
            meta: is_html(branch.row, "meta"),
            table,
            itself: frame & (own & above_same),
            own,
            tree: kids,
        };
        list.push(marks)?;
        let inner = add_below(
            list,
            old,
            new,
            beneath.as_ref(),
            table_under(table, branch.row),
            frame & above_same,
            branch.kids,
            below,
        )?;
        marks.tree = frame & (own & (kids & inner));
        put(list, place, marks);
        all = all & (frame & (own & (kids & inner)));
        rest = branch.after;
        next = after;
    }
    Ok(all)
}

// The same of the trees below a node, of which a leaf has none.
#[cycle(adding)]
#[inline(always)]
fn add_below<'a>(
    list: &mut Vec<Marks>,
    old: &'a Tree,
    new: &'a Tree,
    pair: Option<&Pair<'a>>,
    table: Option<NodeId>,
    above_same: bool,
    trees: Branches<'a>,
    ahead: Option<Branches<'a>>,
) -> Result<bool, OutOfMemory>
    ensures longer { OnOk result (vec_len list.old ≤ vec_len list.new) }
    ensures list { (ups others : List Row)
        → AreBeside (seen old.now.trees) (seen new.now.trees) (option_copied pair.entry) ups others (seen trees.entry) (ahead_of ahead.entry)
        → table ≡ table_in (above_of ups)
        → OnOk result (list.new.items ≡ list.old.items ++ marks_here (seen new.now.trees) (above_of ups) above_same (seen trees.entry)) }
    ensures all { (ups others : List Row)
        → AreBeside (seen old.now.trees) (seen new.now.trees) (option_copied pair.entry) ups others (seen trees.entry) (ahead_of ahead.entry)
        → table ≡ table_in (above_of ups)
        → IfOk result (λ all. all ≡ tree_here (seen new.now.trees) (above_of ups) (seen trees.entry)) }
{
    if trees.is_empty() {
        return Ok(true);
    }
    add_marks(list, old, new, pair, table, above_same, trees, ahead)
}

/// A page is well. It does nothing: the clause is what it is for.
pub(crate) fn well(tree: &Tree)
    ensures { IsWell tree.now.trees }
{
    let _rows = tree.rows();
}

/// What of the old page is the same on the new one. One pass over both, side by side; a node that the new page has
/// elsewhere is looked up by its number.
pub(crate) fn compare(alloc: Global, old: &Tree, new: &Tree) -> Result<PageMarks, OutOfMemory>
    ensures { IfOk result (λ marks. AreMarks (seen old.now.trees) (seen new.now.trees) marks) }
{
    well(old);
    well(new);
    let mut each = Vec::with_capacity(alloc, old.rows().len())?;
    let all = add_marks(
        &mut each,
        old,
        new,
        None,
        None,
        true,
        old.branches(),
        Some(new.branches()),
    )?;
    Ok(PageMarks { each, all })
}
