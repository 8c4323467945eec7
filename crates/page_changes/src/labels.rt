ghost use Rattle.std.specs.Prelude.{◌≡◌, IfOk, OnOk};
ghost use Rattle.std.specs.Option.{option_copied};
ghost use Rattle.std.specs.String.{string_bytes};
ghost use Rattle.snap_tree.specs.Groups.{group_at, HasPut};
ghost use Rattle.snap_tree.specs.Labels.{filled, id_of, for_of, is_label};
ghost use Rattle.snap_tree.specs.Rows.{is_html};
ghost use Rattle.acc_tree.specs.Seen.{seen_row, seen};
ghost use Rattle.page_changes.specs.References.{AreNaming, AreLabels, label_under};

use acc_tree::{Attribute, attr};
use snap_tree::{NodeId, OutOfMemory, Row, Text, Tree};
use std::alloc::Global;
use std::collections::BTreeMap;

/// The labels of a page by the id that they name, in document order.
pub(crate) type Labels = BTreeMap<String, Vec<NodeId>>;

/// Whether the node is an HTML element of this tag.
#[inline(always)]
pub(crate) fn is_html(row: &Row, tag: &str) -> bool
    ensures { result ≡ is_html tag.now (seen_row row.now) }
{
    row.is_html(tag)
}

fn filled(value: Option<&Text>) -> Option<&Text>
    ensures { option_copied result ≡ filled (option_copied value.entry) }
{
    let text = value?;
    if text.is_empty() { None } else { Some(text) }
}

/// The element's id; None where it has none or an empty one.
#[tactic(auto, unfolding(snap_tree::specs::Labels::id_of, acc_tree::specs::Attributes::attribute_name))]
pub(crate) fn id_of(row: &Row) -> Option<&Text>
    ensures { option_copied result ≡ id_of (seen_row row.now) }
{
    filled(attr(row, Attribute::Id))
}

#[tactic(auto, unfolding(snap_tree::specs::Labels::is_label))]
fn is_label(row: &Row) -> bool
    ensures { result ≡ is_label (seen_row row.now) }
{
    is_html(row, "label")
}

// The id that a label names; None for another row, and for a label that names none.
#[inline(always)]
#[tactic(auto, unfolding(snap_tree::specs::Labels::for_of, acc_tree::specs::Attributes::attribute_name))]
fn for_of(row: &Row) -> Option<&Text>
    ensures { option_copied result ≡ for_of (seen_row row.now) }
{
    if !is_label(row) {
        return None;
    }
    filled(attr(row, Attribute::For))
}

/// The nearest label above the children of a row.
#[inline(always)]
pub(crate) fn label_under(label: Option<NodeId>, row: &Row) -> Option<NodeId>
    ensures { result ≡ label_under label (seen_row row.now) }
{
    if is_label(row) { Some(row.id) } else { label }
}

// Adds a label at the end of those of an id.
fn put(labels: &mut Labels, id: String, label: NodeId) -> Result<(), OutOfMemory>
    ensures { OnOk result (HasPut labels.old labels.new (string_bytes id) label) }
{
    labels.entry(id)?.or_default().push(label)?;
    Ok(())
}

fn labels_among(alloc: Global, rows: &[Row]) -> Result<Labels, OutOfMemory>
    ensures { IfOk result (λ labels. AreNaming rows.now labels) }
{
    let mut labels: Labels = BTreeMap::new(alloc);
    for row in rows {
        if let Some(id) = for_of(row) {
            put(&mut labels, String::from_str(alloc, id.as_str())?, row.id)?;
        }
    }
    Ok(labels)
}

/// The labels of a page by the id that they name.
pub(crate) fn labels_by_id(alloc: Global, page: &Tree) -> Result<Labels, OutOfMemory>
    ensures { IfOk result (λ labels. AreLabels (seen page.now.trees) labels) }
{
    labels_among(alloc, page.rows())
}

/// The labels that name an id.
pub(crate) fn labels_naming<'a>(labels: &'a Labels, id: &str) -> &'a [NodeId]
    ensures { result.now ≡ group_at labels.now id.now }
{
    match labels.get(id) {
        Some(labels) => labels.as_slice(),
        None => &[],
    }
}
