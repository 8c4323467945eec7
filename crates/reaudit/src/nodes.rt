ghost use Rattle.std.specs.Prelude.{◌≡◌, ◌&&◌, IfOk};
ghost use Rattle.reaudit.specs.Marks.{AreMarked};
ghost use Rattle.reaudit.specs.Nodes.{is_live, is_settled, live_by, reached_by, AreNodes};

use crate::known::{Known, Placed, placed_nodes, same_nodes};
use crate::marks::{is_marked, marks_of};
use crate::relisted::is_relisted;
use judge_core::OutRow;
use page_changes::Flags;
use snap_tree::{OutOfMemory, Tree};
use std::alloc::Global;

/// The nodes of a page that was edited, as every rule goes over them.
#[derive(Drop)]
pub struct Nodes {
    /// Each node of the new page in document order, with what is known of it.
    pub placed: Vec<Placed>,
    /// Those that the edit reaches: the node is new, or the pages don't agree on all that rules look at.
    pub reached: Vec<Placed>,
    /// Marks of the nodes that may have a row, by their numbers.
    pub marks: Vec<bool>,
    /// Those that the edit reaches, and those that may have a row.
    pub live: Vec<Placed>,
    /// Whether the pages hold the same nodes, in the same order.
    pub in_order: bool,
    /// Whether the pages are known to differ in their lists of language subtags alone.
    pub relisted: bool,
}

fn all_agree(flags: Flags) -> bool
    ensures { result ≡ flags.itself && (flags.sub && (flags.table && (flags.title && (flags.metas && flags.whole)))) }
{
    flags.itself & (flags.sub & (flags.table & (flags.title & (flags.metas & flags.whole))))
}

/// Whether the pages agree on all that rules look at of a node of both.
pub(crate) fn is_settled(langs: bool, known: Option<Known>) -> bool
    ensures { result ≡ is_settled langs known }
{
    match known {
        Some(known) => langs & all_agree(known.flags),
        None => false,
    }
}

// Those nodes that the edit reaches, in their order.
fn reached_by(alloc: Global, placed: &[Placed]) -> Result<Vec<Placed>, OutOfMemory>
    ensures { IfOk result (λ reached. reached.items ≡ reached_by placed.now) }
{
    let mut reached = Vec::new(alloc);
    for it in placed {
        if !is_settled(it.langs, it.known) {
            reached.push(*it)?;
        }
    }
    Ok(reached)
}

fn is_live(marks: &[bool], it: &Placed) -> bool
    ensures { result ≡ is_live marks.now it.now }
{
    !is_settled(it.langs, it.known) | is_marked(marks, it.node)
}

// Those that the edit reaches, and those that are marked, in their order.
fn live_by(alloc: Global, marks: &[bool], placed: &[Placed]) -> Result<Vec<Placed>, OutOfMemory>
    ensures { IfOk result (λ live. live.items ≡ live_by marks.now placed.now) }
{
    let mut live = Vec::new(alloc);
    for it in placed {
        if is_live(marks, it) {
            live.push(*it)?;
        }
    }
    Ok(live)
}

/// The nodes of a page that was edited, each with what is known of it by the two versions; those with one of these rows
/// are marked. Fails only for want of memory.
pub fn nodes_of(
    alloc: Global,
    old: &Tree,
    new: &Tree,
    rows: &[OutRow],
) -> Result<Nodes, OutOfMemory>
    ensures nodes { IfOk result (λ nodes. AreNodes old.now new.now nodes) }
    ensures marked { IfOk result (λ nodes. AreMarked nodes.marks.items rows.now) }
{
    let relisted = is_relisted(old, new);
    let placed = placed_nodes(alloc, old, new, relisted)?;
    let marks = marks_of(alloc, placed.len(), rows)?;
    let live = live_by(alloc, marks.as_slice(), placed.as_slice())?;
    let reached = reached_by(alloc, live.as_slice())?;
    let in_order = same_nodes(old.rows(), new.rows());
    Ok(Nodes {
        placed,
        reached,
        marks,
        live,
        in_order,
        relisted,
    })
}
