ghost use Rattle.std.specs.Prelude.{◌≡◌, ◌+◌, ◌≤◌, List, [], ◌∷◌, map, IfOk};
ghost use Rattle.std.specs.List.{AllByRecursion};
ghost use Rattle.judge_core.specs.declared.judgement.Judgement.{Judgement};
ghost use Rattle.judge_core.specs.Outcomes.{outcomes, judgings};
ghost use Rattle.judged_rows.specs.ByNode.{IsByNode};
ghost use Rattle.judged_rows.specs.Parts.{IsPart};

use crate::atomic::atomic_rows;
use judge_core::{Judgement, Outcomes, infos_of};
use judged_rows::{ByNode, RulePart, atomic_part, by_node, composite_part, joined_parts};
use rule_core::{RuleBook, RuleInfo};
use snap_tree::{List, OutOfMemory, Tree};
use std::alloc::Global;

/// The outcomes of a page by a book of rules under a list of judgements. The count of judgings rises by
/// at most the atomic rules times the nodes. Fails only for want of memory.
pub fn audit_page<B: RuleBook>(
    alloc: Global,
    book: &mut B,
    tree: &Tree,
    js: &[Judgement],
) -> Result<Outcomes, OutOfMemory>
    ensures rows { IfOk result (λ o. o.rows ≡ outcomes B.book tree.now js.now) }
    ensures counted { B.calls book.new ≤ B.calls book.old + judgings B.book tree.now }
{
    let infos = infos_of(alloc, book)?;
    let by_node = by_node(alloc, js)?;
    let parts = parts_of(alloc, book, infos.as_slice(), tree, &by_node)?;
    let rows = joined_parts(alloc, parts)?;
    Ok(Outcomes {
        rows: List::from_vec(rows),
    })
}

// The part of each rule of a page's outcomes.
fn parts_of<B: RuleBook>(
    alloc: Global,
    book: &mut B,
    infos: &[RuleInfo],
    tree: &Tree,
    by_node: &ByNode<'_>,
) -> Result<Vec<RulePart>, OutOfMemory>
    ensures infos { IfOk result (λ parts. map (λ p. p.info) parts.items ≡ infos.now) }
    ensures parts { (js : List Judgement) → IsByNode js by_node.now → IfOk result
        (λ parts. AllByRecursion (IsPart B.book tree.now js) parts.items) }
    ensures counted { B.calls book.new
        ≤ B.calls book.old + judgings (record { infos = infos.now; means = B.book.means }) tree.now }
{
    let mut parts = Vec::with_capacity(alloc, infos.len())?;
    for info in infos {
        parts.push(part_of(alloc, book, info, tree, by_node)?)?;
    }
    Ok(parts)
}

// The part of a rule: it is judged on each node, where it is atomic.
fn part_of<B: RuleBook>(
    alloc: Global,
    book: &mut B,
    info: &RuleInfo,
    tree: &Tree,
    by_node: &ByNode<'_>,
) -> Result<RulePart, OutOfMemory>
    ensures info { IfOk result (λ part. part.info ≡ info.now) }
    ensures part { (js : List Judgement) → IsByNode js by_node.now → IfOk result
        (λ part. IsPart B.book tree.now js part) }
    ensures counted { B.calls book.new
        ≤ B.calls book.old + judgings (record { infos = info.now ∷ []; means = B.book.means }) tree.now }
{
    if info.is_atomic() {
        let rows = atomic_rows(alloc, book, tree, by_node, info.no)?;
        Ok(atomic_part(alloc, info, rows))
    } else {
        composite_part(alloc, info, tree)
    }
}
