ghost use Rattle.std.specs.Prelude.{◌≡◌, ◌<◌, None, IfOk, IfErr, OnOk, vec_len, slice_set, slice_index_or};
ghost use Rattle.std.specs.Option.{option_copied};
ghost use Rattle.snap_tree.specs.Grown.{grown};
ghost use Rattle.snap_tree.specs.Faults.{tree_fault};
ghost use Rattle.snap_tree.specs.declared.row.Row.{Row};
ghost use Rattle.snap_edit.specs.declared.edit.Edit.TheVariants.{SetText, SetFacts};
ghost use Rattle.snap_edit.specs.Attrs.{attrs_after, body_with, with_attrs, with_text, with_facts};
ghost use Rattle.snap_edit.specs.Edits.{attrs_changed, effect};
ghost use Rattle.snap_edit.specs.Made.{Makes, Declines};

use crate::attrs::attrs_after;
use crate::fault::{EditKind, EditRefusal};
use crate::place::{element_at, node_at};
use snap_tree::{Attr, Body, Facts, List, NodeId, OutOfMemory, Row, SharedBody, Text};
use std::alloc::Global;

// A body with these attributes, where it is an element's; else the same body.
fn body_with(alloc: Global, body: &SharedBody, attrs: Vec<Attr>) -> Result<SharedBody, OutOfMemory>
    ensures { IfOk result (λ new. new ≡ body_with (λ _. attrs.items) body.now) }
{
    match body.get() {
        Body::Element { space, tag, .. } => {
            let element = Body::Element {
                space: *space,
                tag: tag.copy(alloc)?,
                attrs: List::from_vec(attrs),
            };
            SharedBody::new(alloc, element)
        }
        Body::Words { .. } => body.copy(),
    }
}

// Gives the element at a place these attributes.
fn put_attrs(
    alloc: Global,
    rows: &mut Vec<Row>,
    place: usize,
    attrs: Vec<Attr>,
) -> Result<(), OutOfMemory>
    requires { place < vec_len rows.old }
    ensures { OnOk result ((d : Row) → rows.new.items ≡ slice_set rows.old.items place (with_attrs (λ _. attrs.items) (slice_index_or rows.old.items place d))) }
{
    rows[place].body = body_with(alloc, &rows[place].body, attrs)?;
    Ok(())
}

/// Sets an attribute of an element, or takes it out where there is no value.
pub(crate) fn change_attr(
    alloc: Global,
    mut rows: Vec<Row>,
    node: NodeId,
    name: &Text,
    value: Option<&Text>,
) -> Result<Vec<Row>, EditRefusal>
    requires { tree_fault rows.items ≡ None }
    ensures made { IfOk result (λ new. Makes new.items
        (attrs_changed (grown rows.items) node (attrs_after name.now (option_copied value.entry)))) }
    ensures refused { IfErr result (λ f. Declines f
        (attrs_changed (grown rows.items) node (attrs_after name.now (option_copied value.entry)))) }
{
    let place = element_at(rows.as_slice(), node)?;
    let attrs = attrs_after(alloc, rows[place].attrs(), name, value)?;
    put_attrs(alloc, &mut rows, place, attrs)?;
    Ok(rows)
}

/// Replaces the text of a text.
pub(crate) fn set_text(
    alloc: Global,
    mut rows: Vec<Row>,
    node: NodeId,
    text: &Text,
) -> Result<Vec<Row>, EditRefusal>
    requires { tree_fault rows.items ≡ None }
    ensures made { IfOk result (λ new. Makes new.items (effect (grown rows.items) (SetText node text.now))) }
    ensures refused { IfErr result (λ f. Declines f (effect (grown rows.items) (SetText node text.now))) }
{
    let place = node_at(rows.as_slice(), node)?;
    if !rows[place].is_text() {
        return Err(EditRefusal::Kind(EditKind::NotText));
    }
    let text = text.copy(alloc)?;
    rows[place].body = SharedBody::new(alloc, Body::Words { text })?;
    Ok(rows)
}

/// Replaces the facts of a node.
pub(crate) fn set_facts(
    mut rows: Vec<Row>,
    node: NodeId,
    facts: Facts,
) -> Result<Vec<Row>, EditRefusal>
    requires { tree_fault rows.items ≡ None }
    ensures made { IfOk result (λ new. Makes new.items (effect (grown rows.items) (SetFacts node facts))) }
    ensures refused { IfErr result (λ f. Declines f (effect (grown rows.items) (SetFacts node facts))) }
{
    let place = node_at(rows.as_slice(), node)?;
    rows[place].facts = facts;
    Ok(rows)
}
