ghost use Rattle.std.specs.Prelude.{◌≡◌, map, IfOk, IsTrue};
ghost use Rattle.snap_tree.specs.Well.{IsWell};
ghost use Rattle.acc_tree.specs.Seen.{seen};
ghost use Rattle.page_keys.specs.PageKeys.{same_langs};
ghost use Rattle.page_changes.specs.Flags.{AreFlags};
ghost use Rattle.reaudit.specs.ByNumber.{placed_by};
ghost use Rattle.reaudit.specs.Known.{ArePlaced, in_order, same_nodes};
ghost use Rattle.reaudit.specs.Relisted.{AreRelisted};

use crate::by_number::by_number;
use crate::relisted::all_agreeing;
use number_tables::NumberTable;
use page_changes::{Flags, changes};
use snap_tree::{List, NodeId, OutOfMemory, Row, Text, Tree};
use std::alloc::Global;

/// What is known of a node of the old page: its place in document order, from 0, and what of it is the same.
#[derive(Clone, Copy, Debug)]
pub struct Known {
    pub place: usize,
    pub flags: Flags,
}

/// A node of the new page, with what is known of it; None for one that the old page doesn't hold.
#[derive(Clone, Copy, Debug)]
pub struct Placed {
    pub node: NodeId,
    pub known: Option<Known>,
    /// Whether the two pages have the same list of language subtags.
    pub langs: bool,
}

/// Whether two lists of language subtags are the same.
pub(crate) fn same_langs(old: &List<Text>, new: &List<Text>) -> bool
    ensures { result ≡ same_langs old.now new.now }
{
    *old == *new
}

fn place_all(
    alloc: Global,
    by_number: &NumberTable<Known>,
    langs: bool,
    rows: &[Row],
) -> Result<Vec<Placed>, OutOfMemory>
    ensures { IfOk result (λ placed. placed.items ≡ map (λ row. placed_by by_number.now langs row.id) rows.now) }
{
    let mut placed = Vec::with_capacity(alloc, rows.len())?;
    for row in rows {
        placed.push(Placed {
            node: row.id,
            known: by_number.at(row.id.0),
            langs,
        })?;
    }
    Ok(placed)
}

/// Whether pages with these rows hold the same nodes, in the same order.
pub(crate) fn same_nodes(old: &[Row], new: &[Row]) -> bool
    ensures { result ≡ same_nodes old.now new.now }
{
    let mut left = old;
    let mut right = new;
    loop {
        match (left.split_first(), right.split_first()) {
            (None, None) => return true,
            (Some((before, more)), Some((row, others))) => {
                if before.id.0 != row.id.0 {
                    return false;
                }
                left = more;
                right = others;
            }
            _ => return false,
        }
    }
}

// The nodes of these flags, in their order.
fn place_in_order(alloc: Global, langs: bool, list: &[Flags]) -> Result<Vec<Placed>, OutOfMemory>
    ensures { IfOk result (λ placed. placed.items ≡ in_order langs 0 list.now) }
{
    let mut placed = Vec::with_capacity(alloc, list.len())?;
    let mut rest = list;
    let mut place = 0;
    while let Some((flags, later)) = rest.split_first() {
        placed.push(Placed {
            node: flags.node,
            known: Some(Known {
                place,
                flags: *flags,
            }),
            langs,
        })?;
        place += 1;
        rest = later;
    }
    Ok(placed)
}

/// A page is well. It does nothing: the clause is what it is for.
pub(crate) fn well(tree: &Tree)
    ensures { IsWell tree.now.trees }
{
    let _rows = tree.rows();
}

// What of each node of the old page is the same; where it is known that all is, the nodes aren't compared.
fn flags_between(
    alloc: Global,
    old: &Tree,
    new: &Tree,
    relisted: bool,
) -> Result<Vec<Flags>, OutOfMemory>
    requires { IsTrue relisted → AreRelisted old.now new.now }
    ensures { IfOk result (λ flags. AreFlags (seen old.now.trees) (seen new.now.trees) flags.items) }
{
    if relisted {
        all_agreeing(alloc, old.rows())
    } else {
        changes(alloc, old, new)
    }
}

/// The nodes of the new page in document order, with what is known of each. Fails only for want of memory.
pub fn known_nodes(alloc: Global, old: &Tree, new: &Tree) -> Result<Vec<Placed>, OutOfMemory>
    ensures { IfOk result (λ placed. ArePlaced old.now new.now placed.items) }
{
    placed_nodes(alloc, old, new, false)
}

/// The same, where it may be known that the pages differ in their lists of language subtags alone.
pub(crate) fn placed_nodes(
    alloc: Global,
    old: &Tree,
    new: &Tree,
    relisted: bool,
) -> Result<Vec<Placed>, OutOfMemory>
    requires { IsTrue relisted → AreRelisted old.now new.now }
    ensures { IfOk result (λ placed. ArePlaced old.now new.now placed.items) }
{
    well(old);
    let langs = same_langs(old.langs(), new.langs());
    let flags = flags_between(alloc, old, new, relisted)?;
    if same_nodes(old.rows(), new.rows()) {
        return place_in_order(alloc, langs, flags.as_slice());
    }
    let by_number = by_number(alloc, flags.as_slice())?;
    place_all(alloc, &by_number, langs, new.rows())
}
