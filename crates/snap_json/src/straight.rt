ghost use Rattle.std.specs.Prelude.{◌≡◌, ℕ, Ok, IfOk, OnOk};
ghost use Rattle.serde_json.specs.Data.{Members as Object, no_members, object};
ghost use Rattle.web_address.specs.Address.{IsWebAddress};
ghost use Rattle.snap_json.specs.Pages.{page_by_value, body_of, row_of};
ghost use Rattle.snap_json.specs.Straight.{Holds, HoldsBody, Adds, AddsToPage, TakesMembers, TakesPageMembers, TakesRow, TakesRows, TakesPage};

use crate::fault::SnapFault;
use crate::limits::Limits;
use crate::reading::address_from;
use crate::tokens;
use crate::unread::Unread;
use json::{Reader, Scratch};
use snap_tree::{Attr, Body, Facts, List, NodeId, Raw, Row, SharedBody, Space, Text};
use std::alloc::Global;

// What was read of a row's members so far, with what an absent one means.
#[derive(Drop)]
struct Members {
    id: Option<NodeId>,
    parent: Option<Option<NodeId>>,
    space: Space,
    tag: Option<Text>,
    attrs: List<Attr>,
    text: Option<Text>,
    facts: Facts,
}

// What was read of a page's members so far.
#[derive(Drop)]
struct PageMembers<'a> {
    url: Option<&'a str>,
    rows: Option<List<Row>>,
}

/// The page that bytes are, read from their tokens with no JSON value between. It reads snapshots as they
/// are mostly written; of any other it says nothing, whether it has a fault or not.
pub(crate) fn page(alloc: Global, limits: Limits, bytes: &[u8]) -> Result<Raw, Unread>
    ensures exact { IfOk result (λ raw. page_by_value limits bytes.now ≡ Ok raw) }
    ensures web_address { IfOk result (λ raw. IsWebAddress raw.address) }
{
    let Ok(text) = simdutf8::compat::from_utf8(bytes) else {
        return Err(Unread::Unusual);
    };
    let mut scratch = Scratch::new(alloc);
    let mut reader = Reader::new(text, &mut scratch)?;
    let page = take_page(alloc, limits, &mut reader)?;
    if reader.next().is_some() {
        return Err(Unread::Unusual);
    }
    Ok(page)
}

fn take_page(alloc: Global, limits: Limits, reader: &mut Reader<'_>) -> Result<Raw, Unread>
    ensures exact { IfOk result (λ raw. TakesPage limits reader.old raw reader.new) }
    ensures web_address { IfOk result (λ raw. IsWebAddress raw.address) }
{
    tokens::begin_object(reader)?;
    let found = take_page_members(alloc, reader)?;
    let (Some(url), Some(rows)) = (found.url, found.rows) else {
        return Err(Unread::Unusual);
    };
    match address_from(alloc, limits.address, url) {
        Ok(address) => Ok(Raw { address, rows }),
        Err(SnapFault::OutOfMemory) => Err(Unread::OutOfMemory),
        Err(_) => Err(Unread::Unusual),
    }
}

// The members of a page up to the brace that ends it.
fn take_page_members<'a>(alloc: Global, reader: &mut Reader<'a>) -> Result<PageMembers<'a>, Unread>
    ensures { IfOk result (λ found. TakesPageMembers reader.old found reader.new) }
{
    let mut found = PageMembers {
        url: None,
        rows: None,
    };
    'members: while let Some(key) = reader.next_key()? {
        take_page_member(alloc, reader, key, &mut found)?;
    }
    Ok(found)
}

fn take_page_member<'a>(
    alloc: Global,
    reader: &mut Reader<'a>,
    key: &str,
    found: &mut PageMembers<'a>,
) -> Result<(), Unread>
    ensures { OnOk result (AddsToPage key.now reader.old found.old reader.new found.new) }
{
    if key == "url" {
        found.url = Some(tokens::lent(reader)?);
    } else if key == "nodes" {
        tokens::begin_array(reader)?;
        found.rows = Some(take_rows(alloc, reader)?);
    } else {
        tokens::plain(reader)?;
    }
    Ok(())
}

// The rows up to the bracket that ends their list.
fn take_rows(alloc: Global, reader: &mut Reader<'_>) -> Result<List<Row>, Unread>
    ensures { IfOk result (λ found. TakesRows reader.old found reader.new) }
{
    let mut found = Vec::new(alloc);
    'rows: while !reader.take_end_array() {
        let row = take_row(alloc, reader)?;
        found.push(row)?;
    }
    Ok(List::from_vec(found))
}

fn take_row(alloc: Global, reader: &mut Reader<'_>) -> Result<Row, Unread>
    ensures { IfOk result (λ row. TakesRow reader.old row reader.new) }
{
    tokens::begin_object(reader)?;
    let members = take_members(alloc, reader)?;
    let row = made_of(alloc, members)?;
    Ok(row)
}

// The members of a row up to the brace that ends it.
fn take_members(alloc: Global, reader: &mut Reader<'_>) -> Result<Members, Unread>
    ensures { IfOk result (λ found. TakesMembers reader.old found reader.new) }
{
    let mut found = none(alloc);
    'members: while let Some(key) = reader.next_key()? {
        take_member(alloc, reader, key, &mut found)?;
    }
    Ok(found)
}

// What no member says.
fn none(alloc: Global) -> Members
    ensures { Holds result no_members }
{
    Members {
        id: None,
        parent: None,
        space: Space::Html,
        tag: None,
        attrs: List::from_vec(Vec::new(alloc)),
        text: None,
        facts: Facts {
            rendered: true,
            visible: true,
            focusable: false,
            tabbable: false,
        },
    }
}

fn take_member(
    alloc: Global,
    reader: &mut Reader<'_>,
    key: &str,
    found: &mut Members,
) -> Result<(), Unread>
    ensures { OnOk result (Adds key.now reader.old found.old reader.new found.new) }
{
    if key == "n" {
        found.id = Some(tokens::number(reader)?);
    } else if key == "p" {
        found.parent = Some(tokens::parent(reader)?);
    } else if key == "ns" {
        found.space = tokens::space(reader)?;
    } else if key == "tag" {
        found.tag = Some(tokens::name(alloc, reader)?);
    } else if key == "attrs" {
        found.attrs = tokens::attrs(alloc, reader)?;
    } else if key == "text" {
        found.text = Some(tokens::text(alloc, reader)?);
    } else if key == "f" {
        found.facts = tokens::facts(reader)?;
    } else {
        tokens::unasked(reader)?;
    }
    Ok(())
}

// What an element has a tag for, and a text a text.
fn body_of(
    space: Space,
    tag: Option<Text>,
    attrs: List<Attr>,
    text: Option<Text>,
) -> Result<Body, Unread>
    ensures { IfOk result (λ body. (ms : Object) → HoldsBody space tag attrs text ms → (place : ℕ) → body_of place (object ms) ≡ Ok body) }
{
    match (tag, text) {
        (Some(tag), None) => Ok(Body::Element { space, tag, attrs }),
        (None, Some(text)) => Ok(Body::Words { text }),
        _ => Err(Unread::Unusual),
    }
}

// The row that members make.
fn made_of(alloc: Global, members: Members) -> Result<Row, Unread>
    ensures { IfOk result (λ row. (ms : Object) → Holds members ms → (place : ℕ) → row_of place (object ms) ≡ Ok row) }
{
    let Members {
        id,
        parent,
        space,
        tag,
        attrs,
        text,
        facts,
    } = members;
    let Some(id) = id else {
        return Err(Unread::Unusual);
    };
    let Some(parent) = parent else {
        return Err(Unread::Unusual);
    };
    let body = body_of(space, tag, attrs, text)?;
    let body = SharedBody::new(alloc, body)?;
    Ok(Row {
        id,
        parent,
        body,
        facts,
    })
}
