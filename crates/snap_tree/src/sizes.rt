ghost use Rattle.std.specs.Prelude.{◌≡◌, ◌+◌, ◌<◌, ◌^◌, reverse, IfOk};
ghost use Rattle.snap_tree.specs.Trees.{sizes_of};
ghost use Rattle.snap_tree.specs.Grown.{grown};
ghost use Rattle.snap_tree.specs.Sizing.{end_of, left_roots};

use crate::row::{NodeId, Row, is_number};
use std::alloc::Global;
use texts::OutOfMemory;

// A tree that waits for its parent, which comes before it: the parent that its root names, and the
// place where it ends.
#[derive(Clone, Copy)]
struct Waiting {
    parent: Option<NodeId>,
    end: usize,
}

// Takes the leading trees whose roots name the row, and answers the place where the last one ends.
fn take_kids(waiting: &mut Vec<Waiting>, row: &Row, place: usize) -> usize
    requires { place + 1 < 2 ^ 64 }
    ensures end { result ≡ end_of row.now (place + 1) (reverse waiting.old.items) }
    ensures left { reverse waiting.new.items ≡ left_roots row.now (reverse waiting.old.items) }
{
    let mut end = place + 1;
    while let Some(first) = waiting.last() {
        if !is_number(first.parent, row.id) {
            return end;
        }
        end = first.end;
        waiting.pop();
    }
    end
}

/// The size of each row's subtree, in document order, itself counted.
pub fn sizes_of(alloc: Global, rows: &[Row]) -> Result<Vec<usize>, OutOfMemory>
    ensures { IfOk result (λ sizes. sizes.items ≡ sizes_of (grown rows.now)) }
{
    let mut sizes = Vec::with_capacity(alloc, rows.len())?;
    let mut waiting = Vec::new(alloc);
    let mut place = rows.len();
    while place > 0 {
        place -= 1;
        let row = &rows[place];
        let end = take_kids(&mut waiting, row, place);
        let parent = row.parent;
        waiting.push(Waiting { parent, end })?;
        sizes.push(end - place)?;
    }
    sizes.reverse();
    Ok(sizes)
}
