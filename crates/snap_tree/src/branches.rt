ghost use Rattle.std.specs.Prelude.{◌≡◌, ◌==◌, MatchOption};
ghost use Rattle.snap_tree.specs.Trees.{empty, tree, rows_of, count, sizes_of};
ghost use Rattle.snap_tree.specs.Grown.{grown};

use crate::row::Row;
use std::marker::Model;

/// Trees that stand side by side, lent from a page. Contracts see them as `Trees`.
///
/// Go over them by `while let Some(branch) = rest.first() { .. rest = branch.after; }`, and down by
/// `branch.kids`.
#[derive(Drop)]
pub struct Branches<'a> {
    rows: &'a [Row],
    sizes: &'a [usize],
}

impl<'a> Model for Branches<'a> {
    ghost use Rattle.std.specs.Prelude.{◌≡◌};
    ghost use Rattle.snap_tree.specs.Trees.{Trees, sizes_of};
    ghost use Rattle.snap_tree.specs.Grown.{grown};
    ghost use Rattle.snap_tree.specs.Codes.{coded_trees};

    ghost Value = { Trees };

    ghost coded = { coded_trees };

    ghost view = { λ b. grown b.rows.now };

    ghost invariant = { λ b. b.sizes.now ≡ sizes_of (grown b.rows.now) };
}

/// The first of some trees: its root, the trees below that, and the trees after it.
#[derive(Drop)]
pub struct Branch<'a> {
    pub row: &'a Row,
    pub kids: Branches<'a>,
    pub after: Branches<'a>,
}

impl<'a> Branches<'a> {
    /// The trees that rows make, given the size of each subtree in document order.
    pub(crate) fn over(rows: &'a [Row], sizes: &'a [usize]) -> Self
        requires { sizes.now ≡ sizes_of (grown rows.now) }
        ensures { result ≡ grown rows.now }
    {
        Branches { rows, sizes }
    }

    pub(crate) fn none() -> Self
        ensures { result ≡ empty }
    {
        Branches::over(&[], &[])
    }

    /// The rows of the trees in document order.
    #[tactic(auto, using(crate::proofs::Growth::rows_of_grown))]
    pub fn rows(&self) -> &'a [Row]
        ensures { result.now ≡ rows_of self.now }
    {
        self.rows
    }

    /// The number of nodes.
    #[tactic(auto, using(crate::proofs::Cuts::count_grown))]
    pub fn len(&self) -> usize
        ensures { result ≡ count self.now }
    {
        self.rows.len()
    }

    /// Whether there is no tree.
    pub fn is_empty(&self) -> bool
        ensures { result ≡ (count self.now == 0) }
    {
        self.len() == 0
    }

    /// The first tree, or None where there is none.
    pub fn first(&self) -> Option<Branch<'a>>
        ensures { MatchOption result (self.now ≡ empty)
            (λ branch. self.now ≡ tree branch.row.now branch.kids branch.after) }
    {
        let (row, rows) = self.rows.split_first()?;
        let (size, sizes) = self.sizes.split_first()?;
        let below = *size - 1;
        let (kid_rows, later_rows) = rows.split_at(below);
        let (kid_sizes, later_sizes) = sizes.split_at(below);
        let kids = Branches::over(kid_rows, kid_sizes);
        let after = Branches::over(later_rows, later_sizes);
        Some(Branch { row, kids, after })
    }
}
