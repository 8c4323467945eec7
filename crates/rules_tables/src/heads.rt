ghost use Rattle.std.specs.Prelude.{◌≡◌, ◌==◌, ◌++◌, [], ◌∷◌, List, map, IfOk, OnOk};
ghost use Rattle.std.specs.List.{list_any, find};
ghost use Rattle.std.specs.Option.{option_copied};
ghost use Rattle.acc_tree.specs.Seen.{seen_row, seen};
ghost use Rattle.rules_tables.specs.Grid.{Placed};
ghost use Rattle.rules_tables.specs.Heads.{leads_to, place_among, is_named_in, finds, HasData, Keeps, IsOf, AreOfPage};
ghost use Rattle.rules_tables.specs.Survey.{seen_placed};

use crate::assigned::{direction_of, is_data, is_led_to};
use crate::bearers::{Bearers, has_other, put_words};
use crate::grid::Area;
use crate::survey::{PlacedCell, Survey};
use crate::tables::{below, is_table};
use acc_tree::{Attribute, is_blank_at, text_at};
use snap_tree::{Branches, NodeId, OutOfMemory, Row, Tree};
use std::alloc::Global;
use std::collections::BTreeMap;

/// A cell's number, and the slots that it covers.
#[derive(Clone, Copy, Debug, PartialEq, Eq)]
pub(crate) struct CellPlace {
    id: NodeId,
    area: Area,
}

/// What is kept of the cells of a table.
#[derive(Drop)]
pub(crate) struct Cells<'a> {
    /// The places of all.
    places: Vec<CellPlace>,
    /// The places of the data cells whose `headers` is blank: a header is assigned those that it leads to.
    open: Vec<CellPlace>,
    /// By each word of the `headers` of the other data cells, which of them have it.
    named: Bearers<'a>,
}

fn place_among(n: NodeId, places: &[CellPlace]) -> Option<Area>
    ensures { result ≡ place_among n places.now }
{
    match places.iter().find(|place| place.id.0 == n.0) {
        Some(place) => Some(place.area),
        None => None,
    }
}

fn leads_to_any(header: &Row, place: Option<Area>, places: &[CellPlace]) -> bool
    ensures { result ≡ list_any (leads_to (seen_row header.now) place) places.now }
{
    let direction = direction_of(header);
    let n = header.id;
    places.iter().any(|other| other.id.0 != n.0 && is_led_to(direction, place, other.area))
}

fn is_named_in(named: &Bearers<'_>, header: &Row) -> bool
    ensures { result ≡ is_named_in named.now (seen_row header.now) }
{
    !is_blank_at(header, Attribute::Id)
        && has_other(named, text_at(header, Attribute::Id), header.id)
}

impl<'a> Cells<'a> {
    fn new(alloc: Global) -> Self
        ensures { Keeps result [] }
    {
        Cells {
            places: Vec::new(alloc),
            open: Vec::new(alloc),
            named: BTreeMap::new(alloc),
        }
    }

    // A data cell more.
    fn add_data(&mut self, cell: &'a Row, area: Area) -> Result<(), OutOfMemory>
        ensures { OnOk result (HasData self.old self.new (record { cell = seen_row cell.now; area = area })) }
    {
        if is_blank_at(cell, Attribute::Headers) {
            self.open.push(CellPlace { id: cell.id, area })?;
        } else {
            put_words(&mut self.named, text_at(cell, Attribute::Headers), cell.id)?;
        }
        Ok(())
    }

    // A cell more.
    fn add(&mut self, placed: &PlacedCell<'a>) -> Result<(), OutOfMemory>
        ensures { (before : List Placed) → Keeps self.old before
            → OnOk result (Keeps self.new (before ++ seen_placed placed.now ∷ [])) }
    {
        let PlacedCell { cell, area } = *placed;
        self.places.push(CellPlace { id: cell.id, area })?;
        if is_data(cell) {
            self.add_data(cell, area)?;
        }
        Ok(())
    }

    fn of(alloc: Global, placed: &[PlacedCell<'a>]) -> Result<Self, OutOfMemory>
        ensures { IfOk result (λ cells. Keeps cells (map seen_placed placed.now)) }
    {
        let mut cells = Cells::new(alloc);
        for one in placed {
            cells.add(one)?;
        }
        Ok(cells)
    }

    /// Whether some of the cells is assigned to a header.
    pub(crate) fn finds(&self, header: &Row) -> bool
        ensures { result ≡ finds self.now (seen_row header.now) }
    {
        let place = place_among(header.id, self.places.as_slice());
        leads_to_any(header, place, self.open.as_slice()) || is_named_in(&self.named, header)
    }
}

/// What is kept of a table, by which each of its headers is answered.
#[derive(Drop)]
pub(crate) struct Heads<'a> {
    table: NodeId,
    /// The number of its cells.
    pub(crate) count: usize,
    /// Its grid is too large.
    pub(crate) wide: bool,
    pub(crate) cells: Cells<'a>,
}

impl<'a> Heads<'a> {
    /// What is kept of the table of a number, given what is below it.
    pub(crate) fn of(
        alloc: Global,
        table: NodeId,
        inside: &Branches<'a>,
    ) -> Result<Self, OutOfMemory>
        ensures table { IfOk result (λ heads. heads.table ≡ table) }
        ensures is { IfOk result (IsOf (seen inside.now)) }
    {
        let _most = inside.len();
        let survey = Survey::of(alloc, inside)?;
        Ok(Heads {
            table,
            count: survey.cells,
            wide: survey.wide,
            cells: Cells::of(alloc, survey.placed.as_slice())?,
        })
    }
}

/// What is kept of the table of a number, where it is among these.
pub(crate) fn heads_among<'b, 'a>(tables: &'b [Heads<'a>], table: NodeId) -> Option<&'b Heads<'a>>
    ensures { option_copied result ≡ find (λ t. t.table.0 == table.0) tables.now }
{
    tables.iter().find(|heads| heads.table.0 == table.0)
}

/// What is kept of each table of a page.
pub(crate) fn heads_of(alloc: Global, tree: &Tree) -> Result<Vec<Heads<'_>>, OutOfMemory>
    ensures { IfOk result (λ tables. AreOfPage (seen tree.now.trees) tables.items) }
{
    let mut tables = Vec::new(alloc);
    for row in tree.rows() {
        if is_table(row) {
            add_table(alloc, &mut tables, tree, row.id)?;
        }
    }
    Ok(tables)
}

fn add_table<'a>(
    alloc: Global,
    tables: &mut Vec<Heads<'a>>,
    tree: &'a Tree,
    table: NodeId,
) -> Result<(), OutOfMemory>
    ensures { AreOfPage (seen tree.now.trees) tables.old.items
        → OnOk result (AreOfPage (seen tree.now.trees) tables.new.items) }
{
    if let Some(inside) = below(tree, table) {
        tables.push(Heads::of(alloc, table, &inside)?)?;
    }
    Ok(())
}
