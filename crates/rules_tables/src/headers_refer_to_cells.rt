ghost use Rattle.std.specs.Prelude.{◌≡◌, option_and_then, IfOk};
ghost use Rattle.texts.specs.Words.{words};
ghost use Rattle.acc_tree.specs.declared.attributes.Attribute.TheVariants as attribute;
ghost use Rattle.acc_tree.specs.Seen.{seen_row, seen, text_at};
ghost use Rattle.rule_core.specs.Findings.{verdict_of};
ghost use Rattle.snap_tree.specs.Trees.{Document};
ghost use Rattle.snap_tree.specs.declared.row.NodeId.{NodeId};
ghost use Rattle.rules_tables.specs.TargetLaws.{JudgesReferences};
ghost use Rattle.rules_tables.specs.HeadersReferToCells.{refer_inside, headers_finding, is_headers_target, headers_verdict};
ghost use Rattle.rules_tables.specs.HeadersReferToCells.{headers_refer_to_cells, headers_refer_to_cells_info};
ghost use Rattle.rules_tables.specs.TableIds.{AreIds, AreAllIds};
ghost use Rattle.rules_tables.specs.Tables.{below};

use crate::bearers::{Bearers, has_other};
use crate::table_ids::{TableIds, all_ids, ids_among, ids_inside};
use crate::table_rows::is_cell;
use crate::tables::{below, in_table};
use acc_tree::{Above, Attribute, attr, exposed_at, is_blank_at, text_at};
use rule_core::{
    Class, Finding, NodeVerdict, Reason, Rule, RuleInfo, RuleNo, Verdict, push_verdict,
};
use rule_sights::sight_with;
use snap_tree::{Branches, NodeId, OutOfMemory, Row, Tree, next_word};
use std::alloc::Global;

/// ACT rule a25f45, Headers attribute specified on a cell refers to cells in the same table element
/// (<https://www.w3.org/WAI/standards-guidelines/act/rules/a25f45/>). Its target is an exposed HTML `td` or
/// `th` whose `headers` isn't blank and whose nearest table has the role table or grid. It fails where a
/// token is the id of no other `td` or `th` of that table. The evidence is `headers`.
#[derive(Clone, Copy, Debug, PartialEq, Eq)]
pub struct HeadersReferToCells;

impl HeadersReferToCells {
    /// Its number.
    pub const NO: u16 = 24;

    /// What the rule says of itself.
    pub const INFO: RuleInfo = RuleInfo {
        no: RuleNo(Self::NO),
        id: *b"a25f45",
        applies: Class::SelfOnly,
        expects: Class::Table,
        inputs: [0; 4],
    };

    /// The law of its targets: on each page it has a verdict exactly where the node is one. It does nothing: the clause
    /// is what it is for.
    #[tactic(auto, using(crate::proofs::Local::judges_references))]
    pub fn law_of_targets()
        ensures { (page : Document) (n : NodeId) → JudgesReferences page n }
    {}
}

fn refer_inside(ids: &Bearers<'_>, inside: &Branches<'_>, n: NodeId, text: &str) -> bool
    requires { AreIds (seen inside.now) ids.now }
    ensures { result ≡ refer_inside (seen inside.now) n (words text.now) }
{
    let mut rest = text;
    while let Some((word, later)) = next_word(rest) {
        if !has_other(ids, word, n) {
            return false;
        }
        rest = later;
    }
    true
}

fn finding(ids: &Bearers<'_>, inside: &Branches<'_>, row: &Row) -> Finding
    requires { AreIds (seen inside.now) ids.now }
    ensures { result ≡ headers_finding (seen_row row.now) (seen inside.now) }
{
    let headers = text_at(row, Attribute::Headers);
    if refer_inside(ids, inside, row.id, headers) {
        Finding::met()
    } else {
        Finding::failed(Reason::HeadersOutside)
    }
}

fn is_target(above: &Above, row: &Row) -> bool
    ensures { result ≡ is_headers_target above.now (seen_row row.now) }
{
    is_cell(row)
        && !is_blank_at(row, Attribute::Headers)
        && in_table(above)
        && exposed_at(above, row)
}

// The verdict on a target, given the ids of its table's cells, and what is below that.
fn verdict(
    alloc: Global,
    ids: &Bearers<'_>,
    inside: &Branches<'_>,
    row: &Row,
) -> Result<Verdict, OutOfMemory>
    requires { AreIds (seen inside.now) ids.now }
    ensures { IfOk result (λ verdict. verdict
        ≡ verdict_of (headers_finding (seen_row row.now) (seen inside.now)) (text_at attribute.Headers (seen_row row.now))) }
{
    let finding = finding(ids, inside, row);
    finding.verdict_on(alloc, attr(row, Attribute::Headers))
}

// The verdict on a node, given the number of its nearest table. The ids of that are looked for among these,
// and else found anew.
fn verdict_in(
    alloc: Global,
    tables: &[TableIds<'_>],
    tree: &Tree,
    table: NodeId,
    above: &Above,
    row: &Row,
) -> Result<Option<Verdict>, OutOfMemory>
    requires { AreAllIds (seen tree.now.trees) tables.now }
    ensures { IfOk result (λ verdict. verdict ≡ option_and_then
        (headers_verdict above.now (seen_row row.now)) (below (seen tree.now.trees) table)) }
{
    let Some(inside) = below(tree, table) else {
        return Ok(None);
    };
    if !is_target(above, row) {
        return Ok(None);
    }
    match ids_among(tables, table) {
        Some(known) => Ok(Some(verdict(alloc, &known.ids, &inside, row)?)),
        None => {
            let ids = ids_inside(alloc, &inside)?;
            Ok(Some(verdict(alloc, &ids, &inside, row)?))
        }
    }
}

// The verdict on a node, given the ids of the cells of some tables of the page.
fn verdict_among(
    alloc: Global,
    tables: &[TableIds<'_>],
    tree: &Tree,
    n: NodeId,
) -> Result<Option<Verdict>, OutOfMemory>
    requires { AreAllIds (seen tree.now.trees) tables.now }
    ensures { IfOk result (λ verdict. verdict ≡ headers_refer_to_cells tree.now n) }
{
    let Some(sight) = sight_with(tree, n, Attribute::Headers) else {
        return Ok(None);
    };
    match sight.above.table() {
        Some(table) => verdict_in(alloc, tables, tree, table.node, &sight.above, sight.row),
        None => Ok(None),
    }
}

impl Rule for HeadersReferToCells {
    ghost means = { headers_refer_to_cells };

    ghost described = { headers_refer_to_cells_info };

    fn info(&self) -> RuleInfo {
        Self::INFO
    }

    fn judge(&self, alloc: Global, tree: &Tree, n: NodeId) -> Result<Option<Verdict>, OutOfMemory> {
        verdict_among(alloc, &[], tree, n)
    }

    /// Each table of the page is gone over once, whatever the number of the cells with `headers`.
    fn judge_page(&self, alloc: Global, tree: &Tree) -> Result<Vec<NodeVerdict>, OutOfMemory> {
        let tables = all_ids(alloc, tree)?;
        let mut verdicts = Vec::new(alloc);
        for row in tree.rows() {
            let verdict = verdict_among(alloc, tables.as_slice(), tree, row.id)?;
            push_verdict(&mut verdicts, row.id, verdict)?;
        }
        Ok(verdicts)
    }

    #[tactic(auto, using(crate::proofs::Local::references_local))]
    fn law_of_locality(&self) {}
}
