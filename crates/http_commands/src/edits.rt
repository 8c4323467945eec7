ghost use Rattle.std.specs.Prelude.{◌≡◌, IfOk};
ghost use Rattle.serde_json.specs.View.{view, items_view};
ghost use Rattle.std.specs.Result.{result_ok};
ghost use Rattle.snap_json.specs.Seen.{seen};
ghost use Rattle.snap_json.specs.Pages.{sent_rows_of};
ghost use Rattle.http_commands.specs.Shapes.{Gives};
ghost use Rattle.http_commands.specs.Edits.{place_of, sent_facts, sent_rows, set_attr, drop_attr, set_text, set_facts, insert, remove, move_to, edit_named, edit_of};
ghost use Rattle.http_commands.specs.EditLists.{edits_from, edits_in};

use crate::shape::in_shape;
use crate::unasked::Unasked;
use http_routes::Part;
use serde_json::Value;
use snap_edit::Edit;
use snap_json::{SnapFault, facts_of, lent_text, number_of, rows_of, text_of};
use snap_tree::{Facts, List, OutOfMemory, Row};
use std::alloc::Global;

/// The edits of a list that is the body's.
pub(crate) fn edits_in(alloc: Global, body: &Value) -> Result<List<Edit>, Unasked>
    ensures { Gives result (edits_in (view body.now)) }
{
    in_shape(Part::Body, 0, body.as_object())?;
    let edits = body.get("edits").and_then(Value::as_array);
    let edits = in_shape(Part::Edits, 0, edits)?;
    each_edit(alloc, edits.as_slice())
}

// The edits of a list, in its order.
fn each_edit(alloc: Global, edits: &[Value]) -> Result<List<Edit>, Unasked>
    ensures { Gives result (edits_from 1 (items_view edits.now)) }
{
    let mut found = Vec::new(alloc);
    let mut place = 1u32;
    for edit in edits {
        let edit = edit_of(alloc, edit)?;
        match in_shape(Part::Edits, place, edit) {
            Ok(edit) => found.push(edit)?,
            Err(fault) => return Err(fault),
        }
        place = place.saturating_add(1);
    }
    Ok(List::from_vec(found))
}

// The edit that a value is.
fn edit_of(alloc: Global, value: &Value) -> Result<Option<Edit>, OutOfMemory>
    ensures { IfOk result (λ edit. edit ≡ edit_of (view value.now)) }
{
    match lent_text(value.get("op")) {
        Some(op) => edit_named(alloc, op, value),
        None => Ok(None),
    }
}

fn edit_named(alloc: Global, op: &str, value: &Value) -> Result<Option<Edit>, OutOfMemory>
    ensures { IfOk result (λ edit. edit ≡ edit_named op.now (view value.now)) }
{
    if op == "setAttr" {
        set_attr(alloc, value)
    } else if op == "dropAttr" {
        drop_attr(alloc, value)
    } else if op == "setText" {
        set_text(alloc, value)
    } else if op == "setFacts" {
        Ok(set_facts(value))
    } else if op == "insert" {
        insert(alloc, value)
    } else if op == "remove" {
        Ok(remove(value))
    } else if op == "move" {
        Ok(move_to(value))
    } else {
        Ok(None)
    }
}

fn set_attr(alloc: Global, edit: &Value) -> Result<Option<Edit>, OutOfMemory>
    ensures { IfOk result (λ made. made ≡ set_attr (view edit.now)) }
{
    let Some(node) = number_of(edit.get("node")) else {
        return Ok(None);
    };
    let Some(name) = text_of(alloc, edit.get("name"))? else {
        return Ok(None);
    };
    let Some(value) = text_of(alloc, edit.get("value"))? else {
        return Ok(None);
    };
    Ok(Some(Edit::SetAttr { node, name, value }))
}

fn drop_attr(alloc: Global, edit: &Value) -> Result<Option<Edit>, OutOfMemory>
    ensures { IfOk result (λ made. made ≡ drop_attr (view edit.now)) }
{
    let Some(node) = number_of(edit.get("node")) else {
        return Ok(None);
    };
    let Some(name) = text_of(alloc, edit.get("name"))? else {
        return Ok(None);
    };
    Ok(Some(Edit::DropAttr { node, name }))
}

fn set_text(alloc: Global, edit: &Value) -> Result<Option<Edit>, OutOfMemory>
    ensures { IfOk result (λ made. made ≡ set_text (view edit.now)) }
{
    let Some(node) = number_of(edit.get("node")) else {
        return Ok(None);
    };
    let Some(text) = text_of(alloc, edit.get("text"))? else {
        return Ok(None);
    };
    Ok(Some(Edit::SetText { node, text }))
}

fn set_facts(edit: &Value) -> Option<Edit>
    ensures { result ≡ set_facts (view edit.now) }
{
    let node = number_of(edit.get("node"))?;
    let facts = sent_facts(edit.get("f"))?;
    Some(Edit::SetFacts { node, facts })
}

fn insert(alloc: Global, edit: &Value) -> Result<Option<Edit>, OutOfMemory>
    ensures { IfOk result (λ made. made ≡ insert (view edit.now)) }
{
    let Some(parent) = number_of(edit.get("parent")) else {
        return Ok(None);
    };
    let Some(place) = place_of(edit.get("place")) else {
        return Ok(None);
    };
    let Some(rows) = sent_rows(alloc, edit.get("rows"))? else {
        return Ok(None);
    };
    Ok(Some(Edit::Insert {
        parent,
        place,
        rows,
    }))
}

fn remove(edit: &Value) -> Option<Edit>
    ensures { result ≡ remove (view edit.now) }
{
    let node = number_of(edit.get("node"))?;
    Some(Edit::Remove { node })
}

fn move_to(edit: &Value) -> Option<Edit>
    ensures { result ≡ move_to (view edit.now) }
{
    let node = number_of(edit.get("node"))?;
    let parent = number_of(edit.get("parent"))?;
    let place = place_of(edit.get("place"))?;
    Some(Edit::Move {
        node,
        parent,
        place,
    })
}

// A whole number below 2^32.
fn place_of(member: Option<&Value>) -> Option<u32>
    ensures { result ≡ place_of (seen member.entry) }
{
    u32::try_from(member?.as_u64()?).ok()
}

// Facts that are there.
fn sent_facts(member: Option<&Value>) -> Option<Facts>
    ensures { result ≡ sent_facts (seen member.entry) }
{
    match member {
        Some(_) => facts_of(member),
        None => None,
    }
}

// Rows that are there.
fn sent_rows(alloc: Global, member: Option<&Value>) -> Result<Option<List<Row>>, OutOfMemory>
    ensures { IfOk result (λ rows. rows ≡ sent_rows (seen member.entry)) }
{
    match member {
        Some(value) => rows_in(alloc, value),
        None => Ok(None),
    }
}

fn rows_in(alloc: Global, value: &Value) -> Result<Option<List<Row>>, OutOfMemory>
    ensures { IfOk result (λ rows. rows ≡ result_ok (sent_rows_of (view value.now))) }
{
    match rows_of(alloc, value) {
        Ok(rows) => Ok(Some(rows)),
        Err(SnapFault::OutOfMemory) => Err(OutOfMemory),
        Err(_) => Ok(None),
    }
}
