ghost use Rattle.std.specs.Prelude.{◌≡◌, ◌==◌, ◌++◌, List, [], true, false, if◌then◌else◌, map, IfOk, OnOk};
ghost use Rattle.std.specs.Option.{option_copied};
ghost use Rattle.std.specs.List.{find};
ghost use Rattle.snap_tree.specs.Trees.{Document, rows_of};
ghost use Rattle.rule_core.specs.Infos.{is_atomic};
ghost use Rattle.rule_core.specs.Books.{Book};
ghost use Rattle.judge_core.specs.declared.judgement.Judgement.{Judgement};
ghost use Rattle.judge_core.specs.declared.outcomes.OutRow.{OutRow};
ghost use Rattle.judge_core.specs.Outcomes.{atomic_rows, composite_rows, outcomes};
ghost use Rattle.judged_rows.specs.Parts.{rows_found, AreParts, IsPart, SaysByAtomic};

use crate::composite::composite_rows;
use judge_core::OutRow;
use rule_core::RuleInfo;
use snap_tree::{List, NodeId, OutOfMemory, Tree};
use std::alloc::Global;

/// The part of a rule in the outcomes of a page.
#[derive(Drop)]
pub struct RulePart {
    pub info: RuleInfo,
    /// The rows of an atomic rule; none for a composite one.
    pub rows: List<OutRow>,
    /// Nodes in document order, on which a composite rule may have rows.
    pub nodes: List<NodeId>,
}

/// The part of an atomic rule, by its rows.
pub fn atomic_part(alloc: Global, info: &RuleInfo, rows: List<OutRow>) -> RulePart
    ensures info { result.info ≡ info.now }
    ensures part { (book : Book) (page : Document) (js : List Judgement) → is_atomic info.now ≡ true
        → rows ≡ atomic_rows book page js info.now.no → IsPart book page js result }
{
    RulePart {
        info: *info,
        rows,
        nodes: List::from_vec(Vec::new(alloc)),
    }
}

/// The part of a composite rule in the outcomes of a page: it may have rows on all nodes. Fails only for want of
/// memory.
pub fn composite_part(alloc: Global, info: &RuleInfo, tree: &Tree) -> Result<RulePart, OutOfMemory>
    ensures info { IfOk result (λ part. part.info ≡ info.now) }
    ensures part { (book : Book) (js : List Judgement) → is_atomic info.now ≡ false
        → IfOk result (λ part. IsPart book tree.now js part) }
{
    let nodes = nodes_of(alloc, tree)?;
    Ok(RulePart {
        info: *info,
        rows: List::from_vec(Vec::new(alloc)),
        nodes: List::from_vec(nodes),
    })
}

// The numbers of a page's nodes, in document order.
fn nodes_of(alloc: Global, tree: &Tree) -> Result<Vec<NodeId>, OutOfMemory>
    ensures { IfOk result (λ nodes. nodes.items ≡ map (λ row. row.id) (rows_of tree.now.trees)) }
{
    let mut nodes = Vec::with_capacity(alloc, tree.rows().len())?;
    for row in tree.rows() {
        nodes.push(row.id)?;
    }
    Ok(nodes)
}

fn part_numbered(parts: &[RulePart], number: u16) -> Option<&RulePart>
    ensures { option_copied result ≡ find (λ p. number == p.info.no.0) parts.now }
{
    parts.iter().find(|part| number == part.info.no.0)
}

/// The rows in the part of the rule of a number; none where there is no such rule.
pub(crate) fn rows_found(parts: &[RulePart], number: u16) -> &[OutRow]
    ensures { result.now ≡ rows_found parts.now number }
{
    match part_numbered(parts, number) {
        Some(part) => part.rows.as_slice(),
        None => &[],
    }
}

// The rows of a composite rule, by the parts of its inputs; none for an atomic rule.
fn merged_rows(
    alloc: Global,
    part: &RulePart,
    parts: &[RulePart],
) -> Result<List<OutRow>, OutOfMemory>
    ensures { (book : Book) (page : Document) (js : List Judgement) → SaysByAtomic book → AreParts book page js parts.now
        → IsPart book page js part.now → IfOk result
        (λ rows. rows ≡ (if is_atomic part.now.info then [] else composite_rows book page js part.now.info)) }
{
    if part.info.is_atomic() {
        return Ok(List::from_vec(Vec::new(alloc)));
    }
    let rows = composite_rows(alloc, &part.info, part.nodes.as_slice(), parts)?;
    Ok(List::from_vec(rows))
}

// The rows of the composite rules, by the parts of their inputs.
fn all_merged(alloc: Global, parts: &[RulePart]) -> Result<Vec<List<OutRow>>, OutOfMemory>
    ensures { (book : Book) (page : Document) (js : List Judgement) → SaysByAtomic book → AreParts book page js parts.now → IfOk result
        (λ groups. groups.items
        ≡ map (λ p. if is_atomic p.info then [] else composite_rows book page js p.info) parts.now) }
{
    let mut groups = Vec::with_capacity(alloc, parts.len())?;
    for part in parts {
        groups.push(merged_rows(alloc, part, parts)?)?;
    }
    Ok(groups)
}

fn append(rows: &mut Vec<OutRow>, more: List<OutRow>) -> Result<(), OutOfMemory>
    ensures { OnOk result (rows.new.items ≡ rows.old.items ++ more) }
{
    let mut more = more.into_vec();
    rows.append(&mut more)?;
    Ok(())
}

/// The outcomes of a page whose parts these are: the rows of each rule in turn, those of composite rules merged. Fails
/// only for want of memory.
pub fn joined_parts(alloc: Global, parts: Vec<RulePart>) -> Result<Vec<OutRow>, OutOfMemory>
    ensures { (book : Book) (page : Document) (js : List Judgement) → SaysByAtomic book → AreParts book page js parts.items
        → IfOk result (λ rows. rows.items ≡ outcomes book page js) }
{
    let merged = all_merged(alloc, parts.as_slice())?;
    let mut rows = Vec::new(alloc);
    for (part, merged) in parts.into_iter().zip(merged.into_iter()) {
        append(&mut rows, part.rows)?;
        append(&mut rows, merged)?;
    }
    Ok(rows)
}
