ghost use Rattle.std.specs.Prelude.{◌≡◌, List, IsTrue, map, IfOk};
ghost use Rattle.std.specs.List.{AllByRecursion};
ghost use Rattle.snap_tree.specs.Trees.{Document};
ghost use Rattle.rule_core.specs.Infos.{rise};
ghost use Rattle.rule_core.specs.Books.{Book};
ghost use Rattle.judge_core.specs.declared.judgement.Judgement.{Judgement};
ghost use Rattle.judge_core.specs.Outcomes.{rule_rows, outcomes};
ghost use Rattle.judged_rows.specs.ByNode.{IsByNode};
ghost use Rattle.judged_rows.specs.Parts.{IsPart};
ghost use Rattle.judged_rows.specs.Again.{again};

use judge_core::{Judgement, OutRow, Outcomes, infos_of};
use judged_rows::{ByNode, RulePart, atomic_part, by_node, joined_parts, row_again, split_rule};
use rule_core::{RuleBook, RuleInfo};
use snap_tree::{List, NodeId, OutOfMemory};
use std::alloc::Global;

/// The outcomes of a page under other judgements than those under which they were found: the same rows
/// with their final outcomes anew. Nothing is judged again. Fails only for want of memory.
pub fn after_judgement<B: RuleBook>(
    alloc: Global,
    book: &B,
    rows: &Outcomes,
    js: &[Judgement],
) -> Result<Outcomes, OutOfMemory>
    ensures { (page : Document) (before : List Judgement) → rows.now.rows ≡ outcomes B.book page before
        → IfOk result (λ o. o.rows ≡ outcomes B.book page js.now) }
{
    let infos = infos_of(alloc, book)?;
    let by_node = by_node(alloc, js)?;
    let parts = parts_again(alloc, infos.as_slice(), rows.rows.as_slice(), &by_node)?;
    let rows = joined_parts(alloc, parts)?;
    Ok(Outcomes {
        rows: List::from_vec(rows),
    })
}

// The part of each rule, by the rows that were found before.
fn parts_again(
    alloc: Global,
    infos: &[RuleInfo],
    rows: &[OutRow],
    by_node: &ByNode<'_>,
) -> Result<Vec<RulePart>, OutOfMemory>
    ensures infos { IfOk result (λ parts. map (λ p. p.info) parts.items ≡ infos.now) }
    ensures parts { (book : Book) (page : Document) (before js : List Judgement) → IsTrue (rise infos.now)
        → infos.now ≡ book.infos → rows.now ≡ outcomes book page before → IsByNode js by_node.now
        → IfOk result (λ parts. AllByRecursion (IsPart book page js) parts.items) }
{
    let mut parts = Vec::with_capacity(alloc, infos.len())?;
    let mut left = rows;
    for info in infos {
        let (own, others) = split_rule(left, info.no);
        parts.push(part_again(alloc, info, own, by_node)?)?;
        left = others;
    }
    Ok(parts)
}

// The part of a rule, by the rows that it had.
fn part_again(
    alloc: Global,
    info: &RuleInfo,
    rows: &[OutRow],
    by_node: &ByNode<'_>,
) -> Result<RulePart, OutOfMemory>
    ensures info { IfOk result (λ part. part.info ≡ info.now) }
    ensures part { (book : Book) (page : Document) (before js : List Judgement)
        → rows.now ≡ rule_rows book page before info.now → IsByNode js by_node.now
        → IfOk result (λ part. IsPart book page js part) }
{
    if info.is_atomic() {
        let rows = rows_again(alloc, rows, by_node)?;
        Ok(atomic_part(alloc, info, List::from_vec(rows)))
    } else {
        Ok(RulePart {
            info: *info,
            rows: List::from_vec(Vec::new(alloc)),
            nodes: List::from_vec(nodes_of(alloc, rows)?),
        })
    }
}

// The rows of an atomic rule with their final outcomes anew.
fn rows_again(
    alloc: Global,
    rows: &[OutRow],
    by_node: &ByNode<'_>,
) -> Result<Vec<OutRow>, OutOfMemory>
    ensures { (js : List Judgement) → IsByNode js by_node.now
        → IfOk result (λ now. now.items ≡ map (again js) rows.now) }
{
    let mut now = Vec::with_capacity(alloc, rows.len())?;
    for row in rows {
        now.push(row_again(alloc, row, by_node)?)?;
    }
    Ok(now)
}

// The nodes that some rows are on.
fn nodes_of(alloc: Global, rows: &[OutRow]) -> Result<Vec<NodeId>, OutOfMemory>
    ensures { IfOk result (λ nodes. nodes.items ≡ map (λ row. row.node) rows.now) }
{
    let mut nodes = Vec::with_capacity(alloc, rows.len())?;
    for row in rows {
        nodes.push(row.node)?;
    }
    Ok(nodes)
}
