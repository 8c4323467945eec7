ghost use Rattle.std.specs.Prelude.{◌≡◌, None, map, IfOk, IfErr, OnOk};
ghost use Rattle.snap_tree.specs.Faults.{tree_fault};
ghost use Rattle.snap_tree.specs.Grown.{page_of};
ghost use Rattle.snap_tree.specs.Opened.{Breaks};
ghost use Rattle.fixture_pages.specs.Sketches.{attr_of, element_of, body_of, facts_of, parent_of, row_of, numbered, at_address, sketched};

use crate::letters::{facts, named};
use crate::node::{Attrs, Node};
use snap_tree::{
    Attr, Body, BuildFault, Facts, List, NodeId, OutOfMemory, Raw, Row, SharedBody, Space, Text,
    Tree,
};
use std::alloc::Global;

/// The address of every small page.
pub const ADDRESS: &str = "https://example.org/";

fn attr_of(alloc: Global, name: &str, value: &str) -> Result<Attr, OutOfMemory>
    ensures { IfOk result (λ a. a ≡ record { name = name.now; value = value.now }) }
{
    let name = Text::from_str(alloc, name)?;
    let value = Text::from_str(alloc, value)?;
    Ok(Attr { name, value })
}

fn attrs_of(alloc: Global, attrs: Attrs) -> Result<List<Attr>, OutOfMemory>
    ensures { IfOk result (λ list. list ≡ map attr_of attrs.now) }
{
    let mut list = Vec::new(alloc);
    for (name, value) in attrs {
        list.push(attr_of(alloc, name, value)?)?;
    }
    Ok(List::from_vec(list))
}

fn element_of(alloc: Global, space: Space, tag: &str, attrs: Attrs) -> Result<Body, OutOfMemory>
    ensures { IfOk result (λ body. body ≡ element_of space tag.now attrs.now) }
{
    let tag = Text::from_str(alloc, tag)?;
    let attrs = attrs_of(alloc, attrs)?;
    Ok(Body::Element { space, tag, attrs })
}

fn words_of(alloc: Global, text: &str) -> Result<Body, OutOfMemory>
    ensures { IfOk result (λ body. body ≡ Body.Words text.now) }
{
    let text = Text::from_str(alloc, text)?;
    Ok(Body::Words { text })
}

fn body_of(alloc: Global, node: Node) -> Result<Body, OutOfMemory>
    ensures { IfOk result (λ body. body ≡ body_of node.entry) }
{
    match node {
        Node::Element(_, space, tag, attrs, _) => element_of(alloc, space, tag, attrs),
        Node::Html(_, tag, attrs) => element_of(alloc, Space::Html, tag, attrs),
        Node::Svg(_, tag, attrs) => element_of(alloc, Space::Svg, tag, attrs),
        Node::Stop(_, tag, attrs) => element_of(alloc, Space::Html, tag, attrs),
        Node::Facts(_, tag, attrs, _) => element_of(alloc, Space::Html, tag, attrs),
        Node::Words(_, text) => words_of(alloc, text),
        Node::Text(_, text, _) => words_of(alloc, text),
    }
}

fn facts_of(node: Node) -> Facts
    ensures { result ≡ facts_of node.entry }
{
    match node {
        Node::Html(..) => facts("rv"),
        Node::Svg(..) => facts("rv"),
        Node::Words(..) => facts("rv"),
        Node::Stop(..) => facts("rvft"),
        Node::Element(_, _, _, _, letters) => facts(letters),
        Node::Facts(_, _, _, letters) => facts(letters),
        Node::Text(_, _, letters) => facts(letters),
    }
}

fn parent_of(node: Node) -> u32
    ensures { result ≡ parent_of node.entry }
{
    match node {
        Node::Element(parent, ..) => parent,
        Node::Html(parent, ..) => parent,
        Node::Svg(parent, ..) => parent,
        Node::Stop(parent, ..) => parent,
        Node::Facts(parent, ..) => parent,
        Node::Words(parent, ..) => parent,
        Node::Text(parent, ..) => parent,
    }
}

/// The row of a node that has this number. Fails only for want of memory.
pub fn row(alloc: Global, number: u32, node: Node) -> Result<Row, OutOfMemory>
    ensures { IfOk result (λ row. row ≡ row_of number node.entry) }
{
    let body = SharedBody::new(alloc, body_of(alloc, node)?)?;
    let parent = named(parent_of(node));
    let facts = facts_of(node);
    Ok(Row {
        id: NodeId(number),
        parent,
        body,
        facts,
    })
}

/// What some nodes make, numbered from 1, at the address of small pages. Fails only for want of memory.
pub fn raw(alloc: Global, nodes: &[Node]) -> Result<Raw, OutOfMemory>
    ensures { IfOk result (λ raw. raw ≡ sketched nodes.now) }
{
    let mut rows = Vec::new(alloc);
    let mut last = 0u32;
    for node in nodes {
        last = last.saturating_add(1);
        rows.push(row(alloc, last, *node)?)?;
    }
    let address = Text::from_str(alloc, ADDRESS)?;
    let rows = List::from_vec(rows);
    Ok(Raw { address, rows })
}

/// The page of some nodes, numbered from 1: the tree of their rows, at the address of small pages. It is
/// refused exactly where the rows have a fault, with the first one; else it wants memory.
pub fn page(alloc: Global, nodes: &[Node]) -> Result<Tree, BuildFault>
    ensures tree { IfOk result (λ tree. tree ≡ page_of (sketched nodes.now)) }
    ensures sound { OnOk result (tree_fault (sketched nodes.now).rows ≡ None) }
    ensures fault { IfErr result (λ f. Breaks f (tree_fault (sketched nodes.now).rows)) }
{
    let raw = raw(alloc, nodes)?;
    Tree::build(alloc, raw)
}

/// The page of some rows, at the address of small pages. It is refused exactly where they have a fault,
/// with the first one; else it wants memory.
pub fn built(alloc: Global, rows: Vec<Row>) -> Result<Tree, BuildFault>
    ensures tree { IfOk result (λ tree. tree ≡ page_of (at_address rows.items)) }
    ensures sound { OnOk result (tree_fault rows.items ≡ None) }
    ensures fault { IfErr result (λ f. Breaks f (tree_fault rows.items)) }
{
    let address = Text::from_str(alloc, ADDRESS)?;
    let rows = List::from_vec(rows);
    Tree::build(alloc, Raw { address, rows })
}
