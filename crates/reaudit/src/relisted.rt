ghost use Rattle.std.specs.Prelude.{List, ◌≡◌, ◌+◌, ◌≤◌, false, length, if◌then◌else◌, IfOk, IsTrue, map};
ghost use Rattle.std.specs.List.{Contains};
ghost use Rattle.rule_core.specs.Pages.{node_count};
ghost use Rattle.rule_core.specs.Reach.{looks_at_langs};
ghost use Rattle.judge_core.specs.declared.judgement.Judgement.{Judgement};
ghost use Rattle.judged_rows.specs.ByNode.{IsByNode};
ghost use Rattle.reaudit.specs.Again.{Adds, FindsAgain, CostsAgain};
ghost use Rattle.reaudit.specs.Relisted.{AreRelisted, agreeing, relisted_row, relisted_rows, relisted_cost};

use crate::again::{add_judged, add_kept};
use crate::known::{same_langs, well};
use crate::same_rows::same_rows;
use judge_core::OutRow;
use judged_rows::ByNode;
use page_changes::Flags;
use rule_core::{RuleBook, RuleInfo};
use snap_tree::{NodeId, OutOfMemory, Row, Tree};
use std::alloc::Global;

/// Whether the pages differ in their lists of language subtags alone. Where the lists are the same, no node is looked
/// at.
#[tactic(auto, using(crate::proofs::SameRows::same_trees))]
pub(crate) fn is_relisted(old: &Tree, new: &Tree) -> bool
    ensures { IsTrue result → AreRelisted old.now new.now }
{
    !same_langs(old.langs(), new.langs()) && same_rows(old.rows(), new.rows())
}

fn agreeing(node: NodeId) -> Flags
    ensures { result ≡ agreeing node }
{
    Flags {
        node,
        itself: true,
        sub: true,
        table: true,
        title: true,
        metas: true,
        whole: true,
    }
}

/// The flags of the nodes of a page beside one with the same nodes: all is the same.
pub(crate) fn all_agreeing(alloc: Global, rows: &[Row]) -> Result<Vec<Flags>, OutOfMemory>
    ensures { IfOk result (λ flags. flags.items ≡ map (λ row. agreeing row.id) rows.now) }
{
    let mut flags = Vec::with_capacity(alloc, rows.len())?;
    for row in rows {
        flags.push(agreeing(row.id))?;
    }
    Ok(flags)
}

// Adds the row of a rule on a node on which it had one: judged where its expectations look at the list, else the one that
// it had.
fn add_relisted<B: RuleBook>(
    rows: &mut Vec<OutRow>,
    alloc: Global,
    book: &mut B,
    info: &RuleInfo,
    new: &Tree,
    row: &OutRow,
    by_node: &ByNode<'_>,
) -> Result<(), OutOfMemory>
    ensures row { (js : List Judgement) → IsByNode js by_node.now
        → Adds (relisted_row B.book info.now new.now js row.now) rows.old.items rows.new.items result }
    ensures counted { B.calls book.new ≤ B.calls book.old + (if looks_at_langs info.now.expects then 1 else 0) }
{
    if info.expects.looks_at_langs() {
        add_judged(rows, alloc, book, new, by_node, info.no, row.node)
    } else {
        add_kept(rows, alloc, Some(row), by_node)
    }
}

fn rows_relisted<B: RuleBook>(
    alloc: Global,
    book: &mut B,
    info: &RuleInfo,
    new: &Tree,
    own: &[OutRow],
    by_node: &ByNode<'_>,
) -> Result<Vec<OutRow>, OutOfMemory>
    ensures rows { (js : List Judgement) → IsByNode js by_node.now
        → IfOk result (λ rows. rows.items ≡ relisted_rows B.book info.now new.now js own.now) }
    ensures counted { B.calls book.new ≤ B.calls book.old + relisted_cost info.now own.now }
{
    let mut rows = Vec::new(alloc);
    for row in own {
        add_relisted(&mut rows, alloc, book, info, new, row, by_node)?;
    }
    Ok(rows)
}

// The rows up to some number.
#[tactic(auto, using(crate::proofs::ListChanges::front_whole, crate::proofs::ListChanges::front_few))]
fn first_rows(rows: &[OutRow], most: usize) -> &[OutRow]
    ensures whole { length rows.now ≤ most → result.now ≡ rows.now }
    ensures few { length result.now ≤ most }
{
    match rows.split_at_checked(most) {
        Some((front, _)) => front,
        None => rows,
    }
}

/// The rows of a rule, whose applicability doesn't look at the list of language subtags, on a page whose list alone is
/// another one. It goes over the nodes on which the rule had a row, and judges them where its expectations look at the
/// list.
pub(crate) fn rows_again<B: RuleBook>(
    alloc: Global,
    book: &mut B,
    info: &RuleInfo,
    old: &Tree,
    new: &Tree,
    rows: &[OutRow],
    by_node: &ByNode<'_>,
) -> Result<Vec<OutRow>, OutOfMemory>
    requires known { Contains B.book.infos info.now }
    requires address { old.now.address ≡ new.now.address }
    requires relisted { AreRelisted old.now new.now }
    requires applies { looks_at_langs info.now.applies ≡ false }
    ensures rows { FindsAgain B.book info.now old.now new.now rows.now by_node.now result }
    ensures counted { CostsAgain B.book info.now old.now new.now rows.now (B.calls book.old) (B.calls book.new) }
    ensures within { B.calls book.new ≤ B.calls book.old + node_count new.now }
{
    well(old);
    well(new);
    // A page has no more rows of a rule than nodes.
    let own = first_rows(rows, new.rows().len());
    rows_relisted(alloc, book, info, new, own, by_node)
}
