ghost use Rattle.std.specs.Prelude.{◌≡◌, ◌++◌, None, IfOk, OnOk};
ghost use Rattle.std.specs.Option.{option_copied};
ghost use Rattle.std.specs.List.{find};
ghost use Rattle.snap_tree.specs.Rows.{attribute};
ghost use Rattle.snap_tree.specs.Labels.{filled, id_of, for_of, has_for, has_type, is_label, is_labelable};
ghost use Rattle.snap_tree.specs.Labelling.{is_shown_input, is_labelable_by, labels_in, all_labels_in, around_by, around_below, label_around, labels_around};

use crate::branches::Branches;
use crate::groups::{Groups, group};
use crate::row::{Body, NodeId, Row, Space, is_number};
use std::alloc::Global;
use texts::{OutOfMemory, Text, same_folded};

fn filled(value: Option<&Text>) -> Option<&Text>
    ensures { option_copied result ≡ filled (option_copied value.entry) }
{
    let text = value?;
    if text.is_empty() { None } else { Some(text) }
}

// Whether the row's `type` is this word, which compares ASCII case-insensitively.
fn has_type(row: &Row, word: &str) -> bool
    ensures { result ≡ has_type word.now row.now }
{
    match row.attribute("type") {
        Some(own) => same_folded(word, own.as_str()),
        None => false,
    }
}

// Whether the tag is `input`, and the row's type isn't `hidden`.
fn is_shown_input(row: &Row, tag: &str) -> bool
    ensures { result ≡ is_shown_input row.now tag.now }
{
    same_folded("input", tag) && !has_type(row, "hidden")
}

// Whether an HTML element of this tag is labelable. Tags are told apart by their lengths first.
#[tactic(auto, using(crate::proofs::Tagging::tags_of_5, crate::proofs::Tagging::tags_of_6, crate::proofs::Tagging::tags_of_8))]
fn is_labelable_by(row: &Row, tag: &str) -> bool
    ensures { result ≡ is_labelable_by row.now tag.now }
{
    match tag.len() {
        5 => same_folded("meter", tag) | is_shown_input(row, tag),
        6 => same_folded("button", tag) | same_folded("output", tag) | same_folded("select", tag),
        8 => same_folded("progress", tag) | same_folded("textarea", tag),
        _ => false,
    }
}

impl Row {
    /// Whether the node is one of HTML's labelable elements: button, meter, output, progress, select,
    /// textarea, or an input whose type isn't `hidden`.
    #[tactic(auto, unfolding(crate::specs::Labels::is_labelable))]
    pub fn is_labelable(&self) -> bool
        ensures { result ≡ is_labelable self.now }
    {
        match self.body.get() {
            Body::Element {
                space: Space::Html,
                tag,
                ..
            } => is_labelable_by(self, tag.as_str()),
            _ => false,
        }
    }
}

/// The element's id; None where it has none or an empty one.
#[tactic(auto, unfolding(crate::specs::Labels::id_of))]
pub(crate) fn id_of(row: &Row) -> Option<&Text>
    ensures { option_copied result ≡ id_of row.now }
{
    filled(row.attribute("id"))
}

#[tactic(auto, unfolding(crate::specs::Labels::is_label))]
fn is_label(row: &Row) -> bool
    ensures { result ≡ is_label row.now }
{
    row.is_html("label")
}

#[tactic(auto, unfolding(crate::specs::Labels::has_for))]
fn has_for(row: &Row) -> bool
    ensures { result ≡ has_for row.now }
{
    row.attribute("for").is_some()
}

/// The id that a label names; None for another row, and for a label that names none.
#[tactic(auto, unfolding(crate::specs::Labels::for_of))]
pub(crate) fn for_of(row: &Row) -> Option<&Text>
    ensures { option_copied result ≡ for_of row.now }
{
    if !is_label(row) {
        return None;
    }
    filled(row.attribute("for"))
}

/// The labels that name the element's id, where it is the first element with that id: the elements of
/// each id and the labels that name each id are given.
pub(crate) fn labels_by<'a>(ids: &Groups, fors: &'a Groups, row: &Row) -> &'a [NodeId]
    ensures { result.now ≡ labels_in ids.now fors.now row.now.id (id_of row.now) }
{
    let Some(id) = id_of(row) else {
        return &[];
    };
    let first = group(ids, id.as_str()).first().copied();
    if is_number(first, row.id) {
        group(fors, id.as_str())
    } else {
        &[]
    }
}

/// All labels of a row, given the label around it that counts for it.
pub(crate) fn all_labels(
    alloc: Global,
    ids: &Groups,
    fors: &Groups,
    row: &Row,
    outer: Option<NodeId>,
) -> Result<Vec<NodeId>, OutOfMemory>
    ensures { IfOk result (λ labels. labels.items ≡ all_labels_in ids.now fors.now row.now outer) }
{
    if !row.is_labelable() {
        return Ok(Vec::new(alloc));
    }
    let mut labels = Vec::from_slice(alloc, labels_by(ids, fors, row))?;
    if let Some(outer) = outer {
        labels.push(outer)?;
    }
    Ok(labels)
}

// A label around some nodes, and the only element for which it counts.
#[derive(Clone, Copy)]
struct Around {
    label: NodeId,
    first: NodeId,
}

// A row is looked at once for each label above it that has no `for`: at most 127 times.
fn first_labelable(rows: &[Row]) -> Option<&Row>
    ensures { option_copied result ≡ find is_labelable rows.now }
{
    rows.iter().find(|row| row.is_labelable())
}

fn around_by(label: &Row, below: &[Row]) -> Option<Around>
    ensures { result ≡ around_by label.now below.now }
{
    if has_for(label) {
        return None;
    }
    match first_labelable(below) {
        Some(row) => Some(Around {
            label: label.id,
            first: row.id,
        }),
        None => None,
    }
}

fn around_below(row: &Row, below: &[Row], around: Option<Around>) -> Option<Around>
    ensures { result ≡ around_below row.now below.now around }
{
    if is_label(row) {
        around_by(row, below)
    } else {
        around
    }
}

fn label_around(n: NodeId, around: Option<Around>) -> Option<NodeId>
    ensures { result ≡ label_around n around }
{
    match around {
        Some(around) if around.first.0 == n.0 => Some(around.label),
        _ => None,
    }
}

fn add_labels_around(
    labels: &mut Vec<Option<NodeId>>,
    around: Option<Around>,
    trees: Branches<'_>,
) -> Result<(), OutOfMemory>
    ensures { OnOk result (labels.new.items ≡ labels.old.items ++ labels_around around trees.entry) }
{
    let mut rest = trees;
    while let Some(branch) = rest.first() {
        labels.push(label_around(branch.row.id, around))?;
        let inner = around_below(branch.row, branch.kids.rows(), around);
        add_labels_around(labels, inner, branch.kids)?;
        rest = branch.after;
    }
    Ok(())
}

/// For each node in document order the nearest label above it, where that counts for it.
pub(crate) fn labels_around(
    alloc: Global,
    trees: Branches<'_>,
) -> Result<Vec<Option<NodeId>>, OutOfMemory>
    ensures { IfOk result (λ labels. labels.items ≡ labels_around None trees.entry) }
{
    let mut labels = Vec::new(alloc);
    add_labels_around(&mut labels, None, trees)?;
    Ok(labels)
}
