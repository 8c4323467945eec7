ghost use Rattle.std.specs.Prelude.{◌≡◌, ◌+◌, ◌^◌, ◌<◌, ◌≤◌, None, length, nat_lt, IfOk};
ghost use Rattle.std.specs.Option.{option_copied};
ghost use Rattle.std.specs.List.{sum_by, AllByRecursion};
ghost use Rattle.snap_tree.specs.Grown.{grown};
ghost use Rattle.snap_tree.specs.Faults.{shape_fault};
ghost use Rattle.snap_tree.specs.WellRow.{IsWellRow};
ghost use Rattle.snap_tree.specs.Spots.{spots};
ghost use Rattle.snap_tree.specs.Indexed.{IsIndex};
ghost use Rattle.snap_tree.specs.Weight.{bytes_in, node_weight, weight_of, id_weight, listed, references, reference_weight};
ghost use Rattle.snap_tree.specs.Labels.{labels_with};
ghost use Rattle.snap_tree.specs.Weighing.{saturated, sums_from, HasSums, weight_at};

use crate::build::MOST_NODES;
use crate::groups::group;
use crate::index::Index;
use crate::labels::{id_of, labels_by};
use crate::row::{Attr, Body, NodeId, Row};
use std::alloc::Global;
use std::marker::Model;
use texts::{OutOfMemory, Text, next_word};

/// How much the references of a page weigh at the most.
pub const MOST_WEIGHT: u64 = 100_000;

fn value_bytes(attrs: &[Attr]) -> usize
    requires { sum_by (λ a. length a.value) attrs.now < 2 ^ 64 }
    ensures { result ≡ sum_by (λ a. length a.value) attrs.now }
{
    attrs.iter().map(|a| a.value.len()).sum()
}

fn bytes_in(body: &Body) -> usize
    requires { bytes_in body.now < 2 ^ 64 }
    ensures { result ≡ bytes_in body.now }
{
    match body {
        Body::Element { attrs, .. } => value_bytes(attrs.as_slice()),
        Body::Words { text } => text.len(),
    }
}

// The weight of a node within its limits, which is at most 1 + 64 * 65,536 / 64.
#[tactic(auto, using(crate::proofs::Weights::light_row), unfolding(crate::specs::Weight::node_weight))]
fn node_weight(row: &Row) -> u64
    requires { IsWellRow row.now }
    ensures weight { result ≡ node_weight row.now }
    ensures small { result ≤ 65537 }
{
    1 + bytes_in(row.body.get()) as u64 / 64
}

// What the rows before each place weigh, and at the end what all weigh.
fn sums_of(alloc: Global, rows: &[Row]) -> Result<Vec<u64>, OutOfMemory>
    requires few { length rows.now ≤ MOST_NODES }
    requires well { AllByRecursion IsWellRow rows.now }
    ensures { IfOk result (λ sums. sums.items ≡ sums_from 0 rows.now) }
{
    let mut sums = Vec::new(alloc);
    let mut sum = 0;
    sums.push(sum)?;
    for row in rows {
        sum += node_weight(row);
        sums.push(sum)?;
    }
    Ok(sums)
}

fn weight_at(sizes: &[usize], sums: &[u64], place: usize) -> u64
    requires { HasSums sizes.now sums.now place }
    ensures { result ≡ weight_at sizes.now sums.now place }
{
    let end = place + sizes[place];
    sums[end] - sums[place]
}

// Rows, their index and the sums of their weights. Contracts see the trees that the rows make.
#[derive(Drop)]
struct Scale<'a> {
    rows: &'a [Row],
    index: &'a Index,
    sums: Vec<u64>,
}

impl<'a> Model for Scale<'a> {
    ghost use Rattle.snap_tree.specs.Trees.{Trees};
    ghost use Rattle.snap_tree.specs.Grown.{grown};
    ghost use Rattle.snap_tree.specs.Codes.{coded_trees};
    ghost use Rattle.snap_tree.specs.Weighing.{IsScale};

    ghost Value = { Trees };

    ghost coded = { coded_trees };

    ghost view = { λ s. grown s.rows.now };

    ghost invariant = { λ s. IsScale s.rows.now s.index.now s.sums.items };
}

impl<'a> Scale<'a> {
    #[tactic(auto, using(crate::proofs::Wellness::few_rows, crate::proofs::Wellness::well_rows))]
    fn of(alloc: Global, rows: &'a [Row], index: &'a Index) -> Result<Self, OutOfMemory>
        requires indexed { IsIndex rows.now index.now }
        requires sound { shape_fault rows.now ≡ None }
        ensures { IfOk result (λ scale. scale ≡ grown rows.now) }
    {
        let sums = sums_of(alloc, rows)?;
        Ok(Scale { rows, index, sums })
    }

    // The weight of a node and of all that is below it; 0 for a stranger.
    fn weight_of(&self, n: NodeId) -> u64
        ensures { result ≡ weight_of self.now n }
    {
        match self.index.places.at(n.0) {
            Some(place) => weight_at(self.index.sizes.as_slice(), self.sums.as_slice(), place),
            None => 0,
        }
    }

    fn add_numbers(&self, from: u64, numbers: &[NodeId]) -> u64
        ensures { result ≡ saturated (from + sum_by (weight_of self.now) numbers.now) }
    {
        let mut sum = from;
        for n in numbers {
            sum = sum.saturating_add(self.weight_of(*n));
        }
        sum
    }

    fn id_weight(&self, id: &str) -> u64
        ensures { result ≡ id_weight self.now id.now }
    {
        match group(&self.index.ids, id).first() {
            Some(n) => self.weight_of(*n),
            None => 0,
        }
    }

    // Adds what each id finds that the value lists.
    fn add_listed(&self, from: u64, value: Option<&Text>) -> u64
        ensures { result ≡ saturated (from + sum_by (id_weight self.now) (listed (option_copied value.entry))) }
    {
        let Some(text) = value else {
            return from;
        };
        let mut sum = from;
        let mut rest = text.as_str();
        while let Some((id, later)) = next_word(rest) {
            sum = sum.saturating_add(self.id_weight(id));
            rest = later;
        }
        sum
    }

    #[tactic(auto, using(crate::proofs::Weights::refers_to_nothing), unfolding(crate::specs::Weight::references))]
    fn add_references(&self, sum: u64, row: &Row) -> u64
        ensures { result ≡ saturated (sum + sum_by (id_weight self.now) (references row.now)) }
    {
        if row.attrs().is_empty() {
            return sum;
        }
        let sum = self.add_listed(sum, row.attribute("aria-labelledby"));
        self.add_listed(sum, row.attribute("aria-owns"))
    }

    // Adds what the row's labels find, given the label around it that counts for it.
    fn add_labels(&self, sum: u64, row: &Row, outer: Option<NodeId>) -> u64
        ensures { result ≡ saturated (sum + sum_by (weight_of self.now) (labels_with self.now row.now outer)) }
    {
        if !row.is_labelable() {
            return sum;
        }
        let sum = self.add_numbers(sum, labels_by(&self.index.ids, &self.index.fors, row));
        match outer {
            Some(label) => sum.saturating_add(self.weight_of(label)),
            None => sum,
        }
    }

    fn reference_weight(&self) -> u64
        ensures { result ≡ saturated (reference_weight self.now) }
    {
        let mut sum = 0;
        for (place, row) in self.rows.iter().enumerate() {
            sum = self.add_references(sum, row);
            sum = self.add_labels(sum, row, self.index.outer[place]);
        }
        sum
    }
}

/// What references find in rows, weighed together.
pub(crate) fn reference_weight(
    alloc: Global,
    rows: &[Row],
    index: &Index,
) -> Result<u64, OutOfMemory>
    requires indexed { IsIndex rows.now index.now }
    requires sound { shape_fault rows.now ≡ None }
    ensures { IfOk result (λ weight. weight ≡ saturated (reference_weight (grown rows.now))) }
{
    Ok(Scale::of(alloc, rows, index)?.reference_weight())
}
