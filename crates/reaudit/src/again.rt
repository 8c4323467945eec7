ghost use Rattle.std.specs.Prelude.{◌≡◌, ◌+◌, ◌≤◌, ◌&&◌, not, true, [], List, length, map, if◌then◌else◌, option_map, IfOk};
ghost use Rattle.std.specs.Option.{option_copied};
ghost use Rattle.std.specs.List.{Contains};
ghost use Rattle.rule_core.specs.Pages.{node_count};
ghost use Rattle.judge_core.specs.declared.judgement.Judgement.{Judgement};
ghost use Rattle.judge_core.specs.Outcomes.{atomic_row, atomic_rows};
ghost use Rattle.judged_rows.specs.Again.{again};
ghost use Rattle.judged_rows.specs.ByNode.{IsByNode};
ghost use Rattle.reaudit.specs.Again.{Adds, AddsRow, CostsRow, FindsRows, CostsRows, FindsAgain, CostsAgain};
ghost use Rattle.reaudit.specs.Before.{HadRow, HadRows, KeepsRows};
ghost use Rattle.reaudit.specs.Known.{class_flag, has_to_judge};
ghost use Rattle.reaudit.specs.Marks.{AreMarked};
ghost use Rattle.reaudit.specs.Nodes.{AreNodes, is_settled};

use crate::before::{row_before, rows_before};
use crate::known::{Known, Placed, well};
use crate::nodes::{Nodes, is_settled};
use crate::relisted::rows_again;
use judge_core::OutRow;
use judged_rows::{ByNode, after, head_on, row_again, row_of};
use page_changes::Flags;
use rule_core::{Class, RuleBook, RuleInfo, RuleNo};
use snap_tree::{List, NodeId, OutOfMemory, Tree};
use std::alloc::Global;

// Adds the row of a rule on a node, which is judged, where there is one.
pub(crate) fn add_judged<B: RuleBook>(
    rows: &mut Vec<OutRow>,
    alloc: Global,
    book: &mut B,
    tree: &Tree,
    by_node: &ByNode<'_>,
    rule: RuleNo,
    node: NodeId,
) -> Result<(), OutOfMemory>
    ensures row { (js : List Judgement) → IsByNode js by_node.now
        → Adds (atomic_row B.book tree.now js rule node) rows.old.items rows.new.items result }
    ensures counted { B.calls book.new ≤ B.calls book.old + 1 }
{
    if let Some(verdict) = book.judge(alloc, tree, rule, node)? {
        rows.push(row_of(alloc, by_node, rule, node, verdict)?)?;
    }
    Ok(())
}

// Adds the row that a node had, where it had one, with its final outcome anew.
pub(crate) fn add_kept(
    rows: &mut Vec<OutRow>,
    alloc: Global,
    row: Option<&OutRow>,
    by_node: &ByNode<'_>,
) -> Result<(), OutOfMemory>
    ensures { (js : List Judgement) → IsByNode js by_node.now
        → Adds (option_map (again js) (option_copied row.entry)) rows.old.items rows.new.items result }
{
    if let Some(row) = row {
        rows.push(row_again(alloc, row, by_node)?)?;
    }
    Ok(())
}

fn class_flag(langs: bool, class: Class, flags: Flags) -> bool
    ensures { result ≡ class_flag langs class flags }
{
    match class {
        Class::SelfOnly => flags.itself,
        Class::Sub => flags.sub,
        Class::Table => flags.table,
        Class::Title => flags.title,
        Class::Metas => flags.metas,
        Class::Whole => flags.whole,
        Class::Lang => flags.itself & langs,
        Class::SubLang => flags.sub & langs,
    }
}

fn has_to_judge(info: &RuleInfo, langs: bool, known: Option<Known>, target: bool) -> bool
    ensures { result ≡ has_to_judge info.now langs known target }
{
    match known {
        Some(known) => {
            !(class_flag(langs, info.applies, known.flags)
                && (!target || class_flag(langs, info.expects, known.flags)))
        }
        None => true,
    }
}

// Adds the row of a rule on a node of the new page, where there is one: judged where the edit reaches it, else the one
// that it had.
fn add_either<B: RuleBook>(
    rows: &mut Vec<OutRow>,
    alloc: Global,
    book: &mut B,
    info: &RuleInfo,
    new: &Tree,
    row: Option<&OutRow>,
    by_node: &ByNode<'_>,
    placed: Placed,
) -> Result<(), OutOfMemory>
    ensures row { AddsRow B.book info.now new.now placed (HadRow B.book info.now.no placed (option_copied row.entry))
        by_node.now rows.old.items rows.new.items result }
    ensures counted { CostsRow B.book info.now new.now placed (HadRow B.book info.now.no placed (option_copied row.entry))
        (B.calls book.old) (B.calls book.new) }
    ensures within { B.calls book.new ≤ B.calls book.old + 1 }
{
    if has_to_judge(info, placed.langs, placed.known, row.is_some()) {
        add_judged(rows, alloc, book, new, by_node, info.no, placed.node)
    } else {
        add_kept(rows, alloc, row, by_node)
    }
}

// Whether a node had no row, and the edit doesn't reach it: so it has none. Most nodes are so.
fn is_quiet(placed: Placed, had: bool) -> bool
    ensures { result ≡ (is_settled placed.langs placed.known && not had) }
{
    is_settled(placed.langs, placed.known) & !had
}

// Adds the row of a rule on a node of the new page, where there is one.
fn add_found<B: RuleBook>(
    rows: &mut Vec<OutRow>,
    alloc: Global,
    book: &mut B,
    info: &RuleInfo,
    new: &Tree,
    row: Option<&OutRow>,
    by_node: &ByNode<'_>,
    placed: Placed,
) -> Result<(), OutOfMemory>
    ensures row { AddsRow B.book info.now new.now placed (HadRow B.book info.now.no placed (option_copied row.entry))
        by_node.now rows.old.items rows.new.items result }
    ensures counted { CostsRow B.book info.now new.now placed (HadRow B.book info.now.no placed (option_copied row.entry))
        (B.calls book.old) (B.calls book.new) }
    ensures within { B.calls book.new ≤ B.calls book.old + 1 }
{
    if is_quiet(placed, row.is_some()) {
        return Ok(());
    }
    add_either(rows, alloc, book, info, new, row, by_node, placed)
}

// The same, by the rows of all nodes of the old page.
fn add_row<B: RuleBook>(
    rows: &mut Vec<OutRow>,
    alloc: Global,
    book: &mut B,
    info: &RuleInfo,
    new: &Tree,
    before: &[Option<&OutRow>],
    by_node: &ByNode<'_>,
    placed: Placed,
) -> Result<(), OutOfMemory>
    ensures row { AddsRow B.book info.now new.now placed (KeepsRows B.book info.now.no new.now (map option_copied before.now))
        by_node.now rows.old.items rows.new.items result }
    ensures counted { CostsRow B.book info.now new.now placed (KeepsRows B.book info.now.no new.now (map option_copied before.now))
        (B.calls book.old) (B.calls book.new) }
    ensures within { B.calls book.new ≤ B.calls book.old + 1 }
{
    let row = row_before(before, placed.known);
    add_found(rows, alloc, book, info, new, row, by_node, placed)
}

// The rows of a rule on some nodes of the new page, by those that the nodes of the old one had.
fn placed_rows<B: RuleBook>(
    alloc: Global,
    book: &mut B,
    info: &RuleInfo,
    new: &Tree,
    before: &[Option<&OutRow>],
    by_node: &ByNode<'_>,
    some: &[Placed],
) -> Result<Vec<OutRow>, OutOfMemory>
    ensures rows { FindsRows B.book info.now new.now some.now (KeepsRows B.book info.now.no new.now (map option_copied before.now)) by_node.now result }
    ensures counted { CostsRows B.book info.now new.now some.now (KeepsRows B.book info.now.no new.now (map option_copied before.now))
        (B.calls book.old) (B.calls book.new) }
    ensures within { B.calls book.new ≤ B.calls book.old + length some.now }
{
    let mut rows = Vec::new(alloc);
    for it in some {
        add_row(&mut rows, alloc, book, info, new, before, by_node, *it)?;
    }
    Ok(rows)
}

// The rows of a rule on some nodes of the new page, where the rows that it had on the old one are on these alone, in their
// order.
fn rows_along<B: RuleBook>(
    alloc: Global,
    book: &mut B,
    info: &RuleInfo,
    new: &Tree,
    some: &[Placed],
    own: &[OutRow],
    by_node: &ByNode<'_>,
) -> Result<Vec<OutRow>, OutOfMemory>
    ensures rows { FindsRows B.book info.now new.now some.now (HadRows B.book info.now.no some.now own.now) by_node.now result }
    ensures counted { CostsRows B.book info.now new.now some.now (HadRows B.book info.now.no some.now own.now)
        (B.calls book.old) (B.calls book.new) }
    ensures within { B.calls book.new ≤ B.calls book.old + length some.now }
{
    let mut rows = Vec::new(alloc);
    let mut left = own;
    for it in some {
        let row = head_on(left, it.node);
        add_found(&mut rows, alloc, book, info, new, row, by_node, *it)?;
        left = after(left, it.node);
    }
    Ok(rows)
}

// The rows of a rule that had some on the old page, which has the same nodes as the new one in the same order.
fn rows_in_order<B: RuleBook>(
    alloc: Global,
    book: &mut B,
    info: &RuleInfo,
    old: &Tree,
    new: &Tree,
    nodes: &Nodes,
    rows: &[OutRow],
    by_node: &ByNode<'_>,
) -> Result<Vec<OutRow>, OutOfMemory>
    requires known { Contains B.book.infos info.now }
    requires address { old.now.address ≡ new.now.address }
    requires nodes { AreNodes old.now new.now nodes.now }
    requires marked { AreMarked nodes.now.marks.items rows.now }
    requires order { nodes.now.in_order ≡ true }
    ensures rows { FindsAgain B.book info.now old.now new.now rows.now by_node.now result }
    ensures counted { CostsAgain B.book info.now old.now new.now rows.now (B.calls book.old) (B.calls book.new) }
    ensures within { B.calls book.new ≤ B.calls book.old + node_count new.now }
{
    well(old);
    well(new);
    let live = nodes.live.as_slice();
    rows_along(alloc, book, info, new, live, rows, by_node)
}

// The rows of a rule that had some on the old page. It is asked of each live node of the new one whether it had one.
fn rows_by_rows<B: RuleBook>(
    alloc: Global,
    book: &mut B,
    info: &RuleInfo,
    old: &Tree,
    new: &Tree,
    nodes: &Nodes,
    rows: &[OutRow],
    by_node: &ByNode<'_>,
) -> Result<Vec<OutRow>, OutOfMemory>
    requires known { Contains B.book.infos info.now }
    requires address { old.now.address ≡ new.now.address }
    requires nodes { AreNodes old.now new.now nodes.now }
    requires marked { AreMarked nodes.now.marks.items rows.now }
    ensures rows { FindsAgain B.book info.now old.now new.now rows.now by_node.now result }
    ensures counted { CostsAgain B.book info.now old.now new.now rows.now (B.calls book.old) (B.calls book.new) }
    ensures within { B.calls book.new ≤ B.calls book.old + node_count new.now }
{
    well(old);
    well(new);
    let before = rows_before(alloc, old.rows(), rows)?;
    let live = nodes.live.as_slice();
    placed_rows(alloc, book, info, new, before.as_slice(), by_node, live)
}

// The rows of a rule that had none on the old page. So it has none on a node that the edit doesn't reach.
fn rows_by_none<B: RuleBook>(
    alloc: Global,
    book: &mut B,
    info: &RuleInfo,
    old: &Tree,
    new: &Tree,
    nodes: &Nodes,
    by_node: &ByNode<'_>,
) -> Result<Vec<OutRow>, OutOfMemory>
    requires known { Contains B.book.infos info.now }
    requires address { old.now.address ≡ new.now.address }
    requires nodes { AreNodes old.now new.now nodes.now }
    ensures rows { FindsAgain B.book info.now old.now new.now [] by_node.now result }
    ensures counted { CostsAgain B.book info.now old.now new.now [] (B.calls book.old) (B.calls book.new) }
    ensures within { B.calls book.new ≤ B.calls book.old + node_count new.now }
{
    well(old);
    well(new);
    let reached = nodes.reached.as_slice();
    placed_rows(alloc, book, info, new, &[], by_node, reached)
}

/// The rows of an atomic rule on the new page under the judgements that the map has, by the rows that it had on the old
/// page, under whatever judgements those are. The rule judges at most the nodes of the new page on which the edit
/// affects it; and where the rows aren't those of the old page, never more than the nodes of the new page. Only the nodes
/// are gone over that the edit reaches, and, where the rule had rows, those that are marked, as the nodes of these rows
/// must be; and where the pages differ in their lists of language subtags alone, those of the rows, unless the rule's
/// applicability looks at the list. Fails only for want of memory.
pub fn atomic_again<B: RuleBook>(
    alloc: Global,
    book: &mut B,
    info: &RuleInfo,
    old: &Tree,
    new: &Tree,
    nodes: &Nodes,
    rows: &[OutRow],
    by_node: &ByNode<'_>,
) -> Result<List<OutRow>, OutOfMemory>
    requires known { Contains B.book.infos info.now }
    requires address { old.now.address ≡ new.now.address }
    requires nodes { AreNodes old.now new.now nodes.now }
    requires marked { AreMarked nodes.now.marks.items rows.now }
    ensures rows { (earlier js : List Judgement) → rows.now ≡ atomic_rows B.book old.now earlier info.now.no
        → IsByNode js by_node.now → IfOk result (λ rows. rows ≡ atomic_rows B.book new.now js info.now.no) }
    ensures counted { CostsAgain B.book info.now old.now new.now rows.now (B.calls book.old) (B.calls book.new) }
    ensures within { B.calls book.new ≤ B.calls book.old + node_count new.now }
{
    if nodes.relisted && !info.applies.looks_at_langs() {
        let again = rows_again(alloc, book, info, old, new, rows, by_node)?;
        return Ok(List::from_vec(again));
    }
    if rows.is_empty() {
        let again = rows_by_none(alloc, book, info, old, new, nodes, by_node)?;
        return Ok(List::from_vec(again));
    }
    if nodes.in_order {
        let again = rows_in_order(alloc, book, info, old, new, nodes, rows, by_node)?;
        return Ok(List::from_vec(again));
    }
    let again = rows_by_rows(alloc, book, info, old, new, nodes, rows, by_node)?;
    Ok(List::from_vec(again))
}
