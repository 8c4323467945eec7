ghost use Rattle.std.specs.Prelude.{◌≡◌};
ghost use Rattle.serde_json.specs.View.{view, items_view};
ghost use Rattle.snap_json.specs.Faults.{in_shape, Gives, Answers};
ghost use Rattle.snap_json.specs.Pages.{element_from, words_from, body_of, row_of, rows_of, next_place, sent_rows_of};

use crate::fault::{Field, SnapFault};
use crate::fields;
use serde_json::Value;
use snap_tree::{Body, List, Row, SharedBody};
use std::alloc::Global;

/// What a field means, or the fault that it is out of shape.
pub(crate) fn in_shape<T>(place: u32, field: Field, meaning: Option<T>) -> Result<T, SnapFault>
    ensures { result ≡ in_shape place field meaning }
{
    match meaning {
        Some(value) => Ok(value),
        None => Err(SnapFault::Shape { place, field }),
    }
}

/// Reads the rows that a JSON value is, as those of a snapshot are read. The faults are Shape with place
/// 0 and field Nodes where the value isn't a list, and else Shape with the place of the first bad row,
/// counted from 1, and its first bad field.
#[tactic(auto, using(crate::proofs::Answering::answers))]
pub fn rows_of(alloc: Global, value: &Value) -> Result<List<Row>, SnapFault>
    ensures { Answers result (sent_rows_of (view value.now)) }
{
    let rows = in_shape(0, Field::Nodes, value.as_array())?;
    each_row(alloc, rows.as_slice())
}

/// The rows of a list, in its order.
pub(crate) fn each_row(alloc: Global, rows: &[Value]) -> Result<List<Row>, SnapFault>
    ensures { Gives result (rows_of 1 (items_view rows.now)) }
{
    let mut found = Vec::new(alloc);
    let mut place = 1u32;
    for row in rows {
        match row_of(alloc, place, row) {
            Ok(row) => found.push(row)?,
            Err(fault) => return Err(fault),
        }
        place = place.saturating_add(1);
    }
    Ok(List::from_vec(found))
}

/// The row at a place of the list.
#[tactic(auto, unfolding(crate::specs::Pages::row_of))]
fn row_of(alloc: Global, place: u32, row: &Value) -> Result<Row, SnapFault>
    ensures { Gives result (row_of place (view row.now)) }
{
    in_shape(place, Field::Row, row.as_object())?;
    let id = in_shape(place, Field::N, fields::number_of(row.get("n")))?;
    let parent = in_shape(place, Field::P, fields::parent_of(row.get("p")))?;
    let body = SharedBody::new(alloc, body_of(alloc, place, row)?)?;
    let facts = in_shape(place, Field::F, fields::facts_of(row.get("f")))?;
    Ok(Row {
        id,
        parent,
        body,
        facts,
    })
}

/// The body of the row at a place: an element where the row has a tag, a text where it has a text.
#[tactic(auto, unfolding(crate::specs::Pages::body_of))]
fn body_of(alloc: Global, place: u32, row: &Value) -> Result<Body, SnapFault>
    ensures { Gives result (body_of place (view row.now)) }
{
    match (row.get("tag"), row.get("text")) {
        (Some(tag), None) => element_of(alloc, place, row, tag),
        (None, Some(text)) => words_of(alloc, place, text),
        _ => Err(SnapFault::Shape {
            place,
            field: Field::Tag,
        }),
    }
}

fn element_of(alloc: Global, place: u32, row: &Value, tag: &Value) -> Result<Body, SnapFault>
    ensures { Gives result (element_from place (view row.now) (view tag.now)) }
{
    let tag = in_shape(place, Field::Tag, fields::name_of(alloc, Some(tag))?)?;
    let space = in_shape(place, Field::Ns, fields::space_of(row.get("ns")))?;
    let attrs = in_shape(
        place,
        Field::Attrs,
        fields::attrs_of(alloc, row.get("attrs"))?,
    )?;
    Ok(Body::Element { space, tag, attrs })
}

fn words_of(alloc: Global, place: u32, text: &Value) -> Result<Body, SnapFault>
    ensures { Gives result (words_from place (view text.now)) }
{
    let text = in_shape(place, Field::Text, fields::text_of(alloc, Some(text))?)?;
    Ok(Body::Words { text })
}
