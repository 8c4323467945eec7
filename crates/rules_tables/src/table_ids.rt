ghost use Rattle.std.specs.Prelude.{◌≡◌, ◌==◌, IfOk, OnOk};
ghost use Rattle.std.specs.List.{find};
ghost use Rattle.std.specs.Option.{option_copied};
ghost use Rattle.acc_tree.specs.Seen.{seen_row, seen};
ghost use Rattle.rules_tables.specs.TableIds.{HasId, HasIds, HasCell, AreIds, AreAllIds};

use crate::bearers::{Bearers, put};
use crate::table_rows::is_cell;
use crate::tables::{below, is_table};
use acc_tree::{Attribute, attr};
use snap_tree::{Branch, Branches, NodeId, OutOfMemory, Row, Tree};
use std::alloc::Global;
use std::collections::BTreeMap;

/// The ids of the cells of a table.
#[derive(Drop)]
pub(crate) struct TableIds<'a> {
    table: NodeId,
    pub(crate) ids: Bearers<'a>,
}

fn put_id<'a>(ids: &mut Bearers<'a>, row: &'a Row) -> Result<(), OutOfMemory>
    ensures { OnOk result (HasId ids.old ids.new (seen_row row.now)) }
{
    let Some(own) = attr(row, Attribute::Id) else {
        return Ok(());
    };
    if !own.is_empty() {
        put(ids, own.as_str(), row.id)?;
    }
    Ok(())
}

fn put_cell<'a>(ids: &mut Bearers<'a>, row: &'a Row) -> Result<(), OutOfMemory>
    ensures { OnOk result (HasCell ids.old ids.new (seen_row row.now)) }
{
    if is_cell(row) {
        put_id(ids, row)?;
    }
    Ok(())
}

// The ids of the cells among these trees that stand in no table among them.
#[tactic(auto, using(crate::proofs::Seeing::lent_first))]
fn put_ids<'a>(ids: &mut Bearers<'a>, table: &Branches<'a>) -> Result<(), OutOfMemory>
    ensures { OnOk result (HasIds ids.old ids.new (seen table.now)) }
{
    let mut next = table.first();
    while let Some(Branch { row, kids, after }) = next {
        put_cell(ids, row)?;
        if !is_table(row) {
            put_ids(ids, &kids)?;
        }
        next = after.first();
    }
    Ok(())
}

/// The ids of the cells of a table, given what is below it.
pub(crate) fn ids_inside<'a>(
    alloc: Global,
    inside: &Branches<'a>,
) -> Result<Bearers<'a>, OutOfMemory>
    ensures { IfOk result (AreIds (seen inside.now)) }
{
    let mut ids: Bearers<'a> = BTreeMap::new(alloc);
    put_ids(&mut ids, inside)?;
    Ok(ids)
}

/// The ids of the cells of the table of a number, where it is among these.
pub(crate) fn ids_among<'b, 'a>(
    tables: &'b [TableIds<'a>],
    table: NodeId,
) -> Option<&'b TableIds<'a>>
    ensures { option_copied result ≡ find (λ t. t.table.0 == table.0) tables.now }
{
    tables.iter().find(|ids| ids.table.0 == table.0)
}

/// The ids of the cells of each table of a page.
pub(crate) fn all_ids(alloc: Global, tree: &Tree) -> Result<Vec<TableIds<'_>>, OutOfMemory>
    ensures { IfOk result (λ tables. AreAllIds (seen tree.now.trees) tables.items) }
{
    let mut tables = Vec::new(alloc);
    for row in tree.rows() {
        if is_table(row) {
            add_table(alloc, &mut tables, tree, row.id)?;
        }
    }
    Ok(tables)
}

fn add_table<'a>(
    alloc: Global,
    tables: &mut Vec<TableIds<'a>>,
    tree: &'a Tree,
    table: NodeId,
) -> Result<(), OutOfMemory>
    ensures { AreAllIds (seen tree.now.trees) tables.old.items
        → OnOk result (AreAllIds (seen tree.now.trees) tables.new.items) }
{
    if let Some(inside) = below(tree, table) {
        let ids = ids_inside(alloc, &inside)?;
        tables.push(TableIds { table, ids })?;
    }
    Ok(())
}
