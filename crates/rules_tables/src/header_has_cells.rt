ghost use Rattle.std.specs.Prelude.{◌≡◌, ◌++◌, codes, decimal, option_and_then, IfOk};
ghost use Rattle.rule_core.specs.Findings.{verdict_of};
ghost use Rattle.acc_tree.specs.Seen.{seen_row, seen};
ghost use Rattle.snap_tree.specs.Trees.{Document};
ghost use Rattle.snap_tree.specs.declared.row.NodeId.{NodeId};
ghost use Rattle.rules_tables.specs.TargetLaws.{JudgesHeaders};
ghost use Rattle.rules_tables.specs.HeaderHasCells.{is_header_role, is_header_target, header_finding, cells_text};
ghost use Rattle.rules_tables.specs.HeaderHasCells.{header_verdict, header_has_cells, header_has_cells_info};
ghost use Rattle.rules_tables.specs.Heads.{IsOf, AreOfPage};
ghost use Rattle.rules_tables.specs.TableRows.{table_rows};
ghost use Rattle.rules_tables.specs.Tables.{below};

use crate::heads::{Heads, heads_among, heads_of};
use crate::tables::{below, in_table};
use acc_tree::{Above, included_at, role_at};
use aria_tables::Role;
use rule_core::{
    Class, Finding, NodeVerdict, Reason, Rule, RuleInfo, RuleNo, Verdict, push_verdict,
};
use rule_sights::sight_of_html;
use snap_tree::{Branches, NodeId, OutOfMemory, Row, Text, Tree};
use std::alloc::Global;

/// ACT rule d0f69e, Table header cell has assigned cells
/// (<https://www.w3.org/WAI/standards-guidelines/act/rules/d0f69e/>). Its target is an included HTML `th`
/// of role columnheader or rowheader whose nearest table has the role table or grid. It fails where no cell
/// of role cell or gridcell is assigned to it, by the grid of the table or by `headers`; a grid of more than
/// 100,000 slots isn't searched, and a person has to judge. The evidence is the number of the table's cells.
#[derive(Clone, Copy, Debug, PartialEq, Eq)]
pub struct HeaderHasCells;

impl HeaderHasCells {
    /// Its number.
    pub const NO: u16 = 25;

    /// What the rule says of itself.
    pub const INFO: RuleInfo = RuleInfo {
        no: RuleNo(Self::NO),
        id: *b"d0f69e",
        applies: Class::SelfOnly,
        expects: Class::Table,
        inputs: [0; 4],
    };

    /// The law of its targets: on each page it has a verdict exactly where the node is one. It does nothing: the clause
    /// is what it is for.
    #[tactic(auto, using(crate::proofs::Local::judges_headers))]
    pub fn law_of_targets()
        ensures { (page : Document) (n : NodeId) → JudgesHeaders page n }
    {}
}

fn is_header_role(role: Option<Role>) -> bool
    ensures { result ≡ is_header_role role }
{
    matches!(role, Some(Role::Columnheader | Role::Rowheader))
}

fn is_target(above: &Above, row: &Row) -> bool
    ensures { result ≡ is_header_target above.now (seen_row row.now) }
{
    is_header_role(role_at(above, row)) && in_table(above) && included_at(above, row)
}

fn finding(heads: &Heads<'_>, above: &Above, header: &Row, table: &Branches<'_>) -> Finding
    requires { IsOf (seen table.now) heads.now }
    ensures { result ≡ header_finding above.now (seen_row header.now) (table_rows 0 (seen table.now)) }
{
    if heads.wide {
        Finding::cant_tell(Reason::LargeGrid)
    } else if heads.cells.finds(header) {
        Finding::met()
    } else {
        Finding::failed(Reason::NoCells)
    }
}

fn cells_text(alloc: Global, cells: usize) -> Result<Text, OutOfMemory>
    ensures { IfOk result (λ text. text ≡ codes "cells " ++ decimal cells) }
{
    Ok(Text::from_string(format!(in alloc; "cells {cells}")?))
}

// The verdict on a header, given what is kept of its table, and what is below that.
fn verdict(
    alloc: Global,
    heads: &Heads<'_>,
    above: &Above,
    header: &Row,
    table: &Branches<'_>,
) -> Result<Verdict, OutOfMemory>
    requires { IsOf (seen table.now) heads.now }
    ensures { IfOk result (λ verdict.
        verdict ≡ verdict_of (header_finding above.now (seen_row header.now) (table_rows 0 (seen table.now)))
        (cells_text (table_rows 0 (seen table.now)))) }
{
    let finding = finding(heads, above, header, table);
    let text = cells_text(alloc, heads.count)?;
    finding.verdict(alloc, &text)
}

// The verdict on a cell, given the number of its nearest table. What is kept of that is looked for among
// these, and else found anew.
fn verdict_in(
    alloc: Global,
    tables: &[Heads<'_>],
    tree: &Tree,
    table: NodeId,
    above: &Above,
    row: &Row,
) -> Result<Option<Verdict>, OutOfMemory>
    requires { AreOfPage (seen tree.now.trees) tables.now }
    ensures { IfOk result (λ verdict. verdict ≡ option_and_then
        (header_verdict above.now (seen_row row.now)) (below (seen tree.now.trees) table)) }
{
    let Some(inside) = below(tree, table) else {
        return Ok(None);
    };
    if !is_target(above, row) {
        return Ok(None);
    }
    match heads_among(tables, table) {
        Some(heads) => Ok(Some(verdict(alloc, heads, above, row, &inside)?)),
        None => {
            let heads = Heads::of(alloc, table, &inside)?;
            Ok(Some(verdict(alloc, &heads, above, row, &inside)?))
        }
    }
}

// The verdict on a node, given what is kept of some tables of the page.
fn verdict_among(
    alloc: Global,
    tables: &[Heads<'_>],
    tree: &Tree,
    n: NodeId,
) -> Result<Option<Verdict>, OutOfMemory>
    requires { AreOfPage (seen tree.now.trees) tables.now }
    ensures { IfOk result (λ verdict. verdict ≡ header_has_cells tree.now n) }
{
    let Some(sight) = sight_of_html(tree, n, "th") else {
        return Ok(None);
    };
    match sight.above.table() {
        Some(table) => verdict_in(alloc, tables, tree, table.node, &sight.above, sight.row),
        None => Ok(None),
    }
}

impl Rule for HeaderHasCells {
    ghost means = { header_has_cells };

    ghost described = { header_has_cells_info };

    fn info(&self) -> RuleInfo {
        Self::INFO
    }

    fn judge(&self, alloc: Global, tree: &Tree, n: NodeId) -> Result<Option<Verdict>, OutOfMemory> {
        verdict_among(alloc, &[], tree, n)
    }

    /// Each table of the page is gone over once, whatever the number of its headers.
    fn judge_page(&self, alloc: Global, tree: &Tree) -> Result<Vec<NodeVerdict>, OutOfMemory> {
        let tables = heads_of(alloc, tree)?;
        let mut verdicts = Vec::new(alloc);
        for row in tree.rows() {
            let verdict = verdict_among(alloc, tables.as_slice(), tree, row.id)?;
            push_verdict(&mut verdicts, row.id, verdict)?;
        }
        Ok(verdicts)
    }

    #[tactic(auto, using(crate::proofs::Local::headers_local))]
    fn law_of_locality(&self) {}
}
