ghost use Rattle.std.specs.Prelude.{◌≡◌, None, IfOk};
ghost use Rattle.snap_tree.specs.Faults.{shape_fault};
ghost use Rattle.snap_tree.specs.Places.{IsPlaces};
ghost use Rattle.snap_tree.specs.Indexed.{IsIndex};

use crate::branches::Branches;
use crate::groups::{Groups, Key, groups_of};
use crate::labels::labels_around;
use crate::row::{NodeId, Row};
use crate::sizes::sizes_of;
use number_tables::NumberTable;
use std::alloc::Global;
use texts::OutOfMemory;

/// By what rows are weighed and looked up, so that no look-up walks the page.
#[derive(Drop)]
pub(crate) struct Index {
    /// The size of each row's subtree, in document order, itself counted.
    pub(crate) sizes: Vec<usize>,
    /// The place of each number.
    pub(crate) places: NumberTable<usize>,
    /// The elements of each id.
    pub(crate) ids: Groups,
    /// The labels that name each id.
    pub(crate) fors: Groups,
    /// For each node in document order the nearest label above it, where that counts for it.
    pub(crate) outer: Vec<Option<NodeId>>,
}

impl Index {
    /// The index of rows whose places are known.
    pub(crate) fn of(
        alloc: Global,
        rows: &[Row],
        places: NumberTable<usize>,
    ) -> Result<Self, OutOfMemory>
        requires placed { IsPlaces places rows.now }
        requires sound { shape_fault rows.now ≡ None }
        ensures { IfOk result (λ index. IsIndex rows.now index) }
    {
        let sizes = sizes_of(alloc, rows)?;
        let ids = groups_of(alloc, Key::Id, rows)?;
        let fors = groups_of(alloc, Key::For, rows)?;
        let outer = labels_around(alloc, Branches::over(rows, sizes.as_slice()))?;
        Ok(Index {
            sizes,
            places,
            ids,
            fors,
            outer,
        })
    }
}
