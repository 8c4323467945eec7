ghost use Rattle.std.specs.Prelude.{◌≡◌, ◌++◌, None, IfOk, IfErr, OnOk};
ghost use Rattle.snap_tree.specs.Faults.{tree_fault};
ghost use Rattle.snap_tree.specs.Grown.{page_of};
ghost use Rattle.fixture_pages.specs.Texts.{attr_in, named_in, attrs_in, space_in, tag_in, element_in, body_in, row_of, row_in, rows_in, raw_in, Breaks};

use crate::fault::{PageFault, RowFault};
use crate::letters::{facts, named};
use crate::pages::built;
use crate::words::{cut, number, spaced};
use snap_tree::{Attr, Body, Facts, List, NodeId, OutOfMemory, Row, SharedBody, Space, Text, Tree};
use std::alloc::Global;

fn attr_of(alloc: Global, name: &str, value: &str) -> Result<Attr, OutOfMemory>
    ensures { IfOk result (λ a. a ≡ attr_in name.now value.now) }
{
    let name = Text::from_str(alloc, name)?;
    let value = spaced(alloc, value)?;
    Ok(Attr { name, value })
}

// Adds the attribute that a part of an element says; an empty part says none.
fn add_attr(alloc: Global, attrs: &mut Vec<Attr>, part: &str) -> Result<(), RowFault>
    ensures { OnOk result (attrs.new.items ≡ attrs.old.items ++ named_in part.now) }
{
    match part.split_once('=') {
        Some((name, value)) => attrs.push(attr_of(alloc, name, value)?)?,
        None if part.is_empty() => (),
        None => return Err(RowFault::NoRow),
    }
    Ok(())
}

#[tactic(auto, using(crate::proofs::Cutting::attrs_at, crate::proofs::Cutting::attrs_whole))]
fn attrs_of(alloc: Global, text: &str) -> Result<List<Attr>, RowFault>
    ensures { IfOk result (λ list. list ≡ attrs_in text.now) }
{
    let mut attrs = Vec::new(alloc);
    let mut rest = text;
    while let Some((part, later)) = rest.split_once(' ') {
        add_attr(alloc, &mut attrs, part)?;
        rest = later;
    }
    add_attr(alloc, &mut attrs, rest)?;
    Ok(List::from_vec(attrs))
}

// The space of an element, and its tag in it.
fn tag_of(word: &str) -> (Space, &str)
    ensures space { result.0 ≡ space_in word.now }
    ensures tag { result.1.now ≡ tag_in word.now }
{
    match word.split_once(':') {
        Some(("svg", tag)) => (Space::Svg, tag),
        Some((_, tag)) => (Space::Other, tag),
        None => (Space::Html, word),
    }
}

fn element_of(alloc: Global, word: &str, attrs: &str) -> Result<Body, RowFault>
    ensures { IfOk result (λ body. body ≡ element_in word.now attrs.now) }
{
    let (space, tag) = tag_of(word);
    let tag = Text::from_str(alloc, tag)?;
    let attrs = attrs_of(alloc, attrs)?;
    Ok(Body::Element { space, tag, attrs })
}

fn body_of(alloc: Global, word: &str, attrs: &str) -> Result<Body, RowFault>
    ensures { IfOk result (λ body. body ≡ body_in word.now attrs.now) }
{
    match word.split_once('#') {
        Some(("", text)) if attrs.is_empty() => {
            let text = spaced(alloc, text)?;
            Ok(Body::Words { text })
        }
        Some(_) => Err(RowFault::NoRow),
        None => element_of(alloc, word, attrs),
    }
}

fn row_of(alloc: Global, text: &str, facts: Facts) -> Result<Row, RowFault>
    ensures { IfOk result (λ row. row ≡ row_of text.now facts) }
{
    let (id, text) = cut(text);
    let (parent, text) = cut(text);
    let (word, attrs) = cut(text);
    Ok(Row {
        id: NodeId(number(id)?),
        parent: named(number(parent)?),
        body: SharedBody::new(alloc, body_of(alloc, word, attrs)?)?,
        facts,
    })
}

/// The row that a text stands for. Fails where it is none, and for want of memory.
pub fn row_in(alloc: Global, text: &str) -> Result<Row, RowFault>
    ensures { IfOk result (λ row. row ≡ row_in text.now) }
{
    match text.split_once('!') {
        Some((text, letters)) if text.ends_with(' ') => row_of(alloc, text, facts(letters)),
        Some(_) => Err(RowFault::NoRow),
        None => row_of(alloc, text, facts("rv")),
    }
}

#[tactic(auto, using(crate::proofs::Cutting::rows_at, crate::proofs::Cutting::rows_whole))]
fn rows_of(alloc: Global, text: &str) -> Result<Vec<Row>, RowFault>
    ensures { IfOk result (λ rows. rows.items ≡ rows_in text.now) }
{
    let mut rows = Vec::new(alloc);
    let mut rest = text;
    while let Some((text, later)) = rest.split_once(';') {
        rows.push(row_in(alloc, text)?)?;
        rest = later;
    }
    rows.push(row_in(alloc, rest)?)?;
    Ok(rows)
}

/// The page that a text stands for: the tree of its rows, at the address of these pages. Where they make none
/// it is refused with their first fault; else it isn't read as rows, or wants memory.
pub fn page_in(alloc: Global, text: &str) -> Result<Tree, PageFault>
    ensures tree { IfOk result (λ tree. tree ≡ page_of (raw_in text.now)) }
    ensures sound { OnOk result (tree_fault (rows_in text.now) ≡ None) }
    ensures fault { IfErr result (λ f. Breaks f (tree_fault (rows_in text.now))) }
{
    let rows = rows_of(alloc, text)?;
    Ok(built(alloc, rows)?)
}
