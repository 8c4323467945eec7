//! Look-ups in a page, each also in a copy of it.

use crate::names::{
    above, followed, is_named, items_of, name_of, owns, owns_through, roles, standing,
};
use acc_tree::{
    Attribute, aboves, aria_attrs, attr, first_found, has, is_blank_at, labels_of, text_at,
};
use aria_tables::{AriaAttr, Role};
use fixture_sketches::{
    Trouble, cut, line_of, lines_of, number, number_of, push_number, push_quoted, push_word,
    quoted, unquoted,
};
use rule_sights::{row_of, sight_as, sight_of_html, sight_with};
use rules_tables::{Area, cell_places};
use snap_tree::{NodeId, Text, Tree};
use std::alloc::Global;

/// What a step finds in a page; nothing where it finds none. The same has to be found in a copy.
pub fn looked_up(
    alloc: Global,
    tree: &Tree,
    word: &str,
    rest: &str,
) -> Result<Vec<String>, Trouble> {
    let found = found(alloc, tree, word, rest)?;
    let copy = tree.copy()?;
    let copied = self::found(alloc, &copy, word, rest)?;
    let mut lines = Vec::new(alloc);
    if found.as_str() != copied.as_str() {
        lines.push(format!(in alloc; "{found}, but in a copy {copied}")?)?;
    } else if !found.is_empty() {
        lines.push(found)?;
    }
    Ok(lines)
}

fn found(alloc: Global, tree: &Tree, word: &str, rest: &str) -> Result<String, Trouble> {
    match word {
        "tagged" => tagged(alloc, tree, rest),
        "id" => id(alloc, tree, rest),
        "find" => find(alloc, tree, rest),
        "nodes" => Ok(format!(in alloc; "{}", tree.rows().len())?),
        "address" => quoted(alloc, tree.address().as_str()),
        "langs" => langs(alloc, tree),
        _ => {
            let (node, how) = cut(rest, ' ');
            of_node(alloc, tree, word, node_of(tree, node)?, how)
        }
    }
}

// The language subtags that the page's site accepts.
fn langs(alloc: Global, tree: &Tree) -> Result<String, Trouble> {
    let mut line = String::new(alloc);
    for lang in tree.langs().as_slice() {
        push_word(&mut line, lang.as_str())?;
    }
    Ok(line)
}

// The node of a number; `last` is the last of the page.
fn node_of(tree: &Tree, word: &str) -> Result<NodeId, Trouble> {
    if word != "last" {
        return Ok(NodeId(number(word)?));
    }
    match tree.rows().last() {
        Some(row) => Ok(row.id),
        None => Err(Trouble::NoPage),
    }
}

fn of_node(
    alloc: Global,
    tree: &Tree,
    word: &str,
    node: NodeId,
    how: &str,
) -> Result<String, Trouble> {
    match (word, how) {
        ("name", "") => name_of(alloc, tree, node),
        ("named", "") => is_named(alloc, tree, node),
        ("roles", "") => roles(alloc, tree, node),
        ("stands", "") => standing(alloc, tree, node),
        ("owns", "") => owns(alloc, tree, node),
        ("owns", "through groups") => owns_through(alloc, tree, node),
        ("items", "") => items_of(alloc, tree, node, 1),
        ("items", "without following") => items_of(alloc, tree, node, 0),
        ("follows", "") => followed(alloc, tree, node),
        ("above", "") => all_above(alloc, tree, node),
        ("row", "") => row(alloc, tree, node),
        ("kids", "") => kids(alloc, tree, node),
        ("labels", "") => labels(alloc, tree, node),
        ("aria", "") => aria(alloc, tree, node),
        ("looked", "") => looked(alloc, tree, node),
        ("sight", how) => sight(alloc, tree, node, how),
        ("attribute", name) => attribute(alloc, tree, node, name),
        _ => Err(Trouble::NotInForm),
    }
}

// What is above a node, where each node of the page has a summary of that.
fn all_above(alloc: Global, tree: &Tree, node: NodeId) -> Result<String, Trouble> {
    if aboves(alloc, tree)?.len() != tree.rows().len() {
        return Ok(String::from_str(alloc, "not one summary for each node")?);
    }
    above(alloc, tree, node)
}

// The row of a node, where its parent is the one that the page answers, and it is said to be a node.
fn row(alloc: Global, tree: &Tree, node: NodeId) -> Result<String, Trouble> {
    let Some(row) = tree.node(node) else {
        let is_strange = tree.parent(node).is_none() && tree.below(node).is_none();
        let said = if is_strange {
            ""
        } else {
            "something below a stranger"
        };
        return Ok(String::from_str(alloc, said)?);
    };
    if tree.below(node).is_none() || tree.parent(node) != row.parent {
        return Ok(String::from_str(alloc, "another parent, or nothing below")?);
    }
    line_of(alloc, row)
}

fn kids(alloc: Global, tree: &Tree, node: NodeId) -> Result<String, Trouble> {
    let mut line = String::new(alloc);
    for kid in tree.kids(node) {
        push_number(alloc, &mut line, kid.0)?;
    }
    Ok(line)
}

fn push_all(alloc: Global, line: &mut String, nodes: &[NodeId]) -> Result<(), Trouble> {
    for node in nodes {
        push_number(alloc, line, node.0)?;
    }
    Ok(())
}

// The labels of a node, as the page and the accessibility tree answer them.
fn labels(alloc: Global, tree: &Tree, node: NodeId) -> Result<String, Trouble> {
    let mut line = String::new(alloc);
    let found = tree.labels_for(alloc, node)?;
    let seen = labels_of(alloc, tree, node)?;
    push_all(alloc, &mut line, found.as_slice())?;
    if found.as_slice() != seen.as_slice() {
        line.push_str(", but otherwise in the accessibility tree")?;
    }
    Ok(line)
}

fn tagged(alloc: Global, tree: &Tree, tag: &str) -> Result<String, Trouble> {
    let mut line = String::new(alloc);
    let found = tree.tagged(alloc, &Text::from_str(alloc, tag)?)?;
    push_all(alloc, &mut line, found.as_slice())?;
    Ok(line)
}

// The first element of an id, in both calls.
fn id(alloc: Global, tree: &Tree, rest: &str) -> Result<String, Trouble> {
    let mut line = String::new(alloc);
    let id = Text::from_string(unquoted(alloc, rest)?);
    let found = tree.first_with_id(&id);
    if tree.by_id(id.as_str()) != found {
        line.push_str("two answers")?;
    } else if found.is_some() {
        push_number(alloc, &mut line, number_of(found))?;
    }
    Ok(line)
}

// The elements that the words of a text find by their ids.
fn find(alloc: Global, tree: &Tree, rest: &str) -> Result<String, Trouble> {
    let mut line = String::new(alloc);
    let text = unquoted(alloc, rest)?;
    let mut rest = text.as_str();
    for _ in 0..text.len() {
        let Some((node, later)) = first_found(tree, rest) else {
            break;
        };
        push_number(alloc, &mut line, node.0)?;
        rest = later;
    }
    Ok(line)
}

// The attributes of a node whose names begin `aria-`.
fn aria(alloc: Global, tree: &Tree, node: NodeId) -> Result<String, Trouble> {
    let mut line = String::new(alloc);
    let Some(row) = tree.node(node) else {
        return Ok(line);
    };
    for attr in aria_attrs(row) {
        if !line.is_empty() {
            line.push(' ')?;
        }
        line.push_str(attr.name.as_str())?;
        line.push('=')?;
        push_quoted(alloc, &mut line, attr.value.as_str())?;
    }
    Ok(line)
}

// How a node's title, alt and aria-owns are looked at.
fn looked(alloc: Global, tree: &Tree, node: NodeId) -> Result<String, Trouble> {
    let Some(row) = tree.node(node) else {
        return Ok(String::new(alloc));
    };
    let mut line = quoted(alloc, text_at(row, Attribute::Title))?;
    for (is_so, word) in [
        (attr(row, Attribute::Alt).is_none(), "no-alt"),
        (is_blank_at(row, Attribute::Alt), "blank-alt"),
        (has(row, Attribute::Aria(AriaAttr::Owns)), "owns"),
    ] {
        if is_so {
            push_word(&mut line, word)?;
        }
    }
    Ok(line)
}

// Whether a node is in the page, is an HTML element of a tag, has the attribute role, or has one of two roles.
fn sight(alloc: Global, tree: &Tree, node: NodeId, how: &str) -> Result<String, Trouble> {
    let is_so = match how.split_once(' ') {
        None => row_of(tree, node).is_some(),
        Some(("html", tag)) => sight_of_html(tree, node, tag).is_some(),
        Some(("with", "role")) => sight_with(tree, node, Attribute::RoleAttr).is_some(),
        Some(("as", "list or listitem")) => {
            sight_as(tree, node, &[Role::ListRole, Role::Listitem]).is_some()
        }
        _ => return Err(Trouble::NotInForm),
    };
    Ok(String::from_str(alloc, if is_so { "yes" } else { "" })?)
}

fn attribute(alloc: Global, tree: &Tree, node: NodeId, name: &str) -> Result<String, Trouble> {
    match tree.node(node) {
        Some(row) => match row.attribute(name) {
            Some(value) => quoted(alloc, value.as_str()),
            None => Ok(String::new(alloc)),
        },
        None => Ok(String::new(alloc)),
    }
}

/// Where the cells of a table are placed: a line for each, with the rows and the columns that it covers.
pub fn cells(alloc: Global, tree: &Tree, rest: &str) -> Result<Vec<String>, Trouble> {
    let mut lines = Vec::new(alloc);
    for place in cell_places(alloc, tree, NodeId(number(rest)?))?.as_slice() {
        let NodeId(cell) = place.cell;
        let Area {
            top,
            bottom,
            left,
            right,
        } = place.area;
        lines.push(format!(in alloc; "{cell} rows {top}..{bottom} columns {left}..{right}")?)?;
    }
    Ok(lines)
}

/// The lines of a page, where a copy and copies of its rows have the same.
pub fn page_lines(alloc: Global, tree: &Tree) -> Result<Vec<String>, Trouble> {
    let mut lines = lines_of(alloc, tree.rows())?;
    let copied = lines_of(alloc, tree.copy()?.rows())?;
    let rows = copied_lines(alloc, tree)?;
    if copied.as_slice() != lines.as_slice() || rows.as_slice() != lines.as_slice() {
        lines.push(String::from_str(alloc, "but a copy differs")?)?;
    }
    Ok(lines)
}

// The lines of copies of a page's rows.
fn copied_lines(alloc: Global, tree: &Tree) -> Result<Vec<String>, Trouble> {
    let mut lines = Vec::new(alloc);
    for row in tree.rows() {
        lines.push(line_of(alloc, &row.copy(alloc)?)?)?;
    }
    Ok(lines)
}
