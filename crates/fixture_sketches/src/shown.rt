//! Writes rows as lines, in the form in which pages are written.

use crate::trouble::Trouble;
use crate::words::push_quoted;
use snap_tree::{Attr, Body, Facts, NodeId, Row, Space};
use std::alloc::Global;

/// A line for each row: its number, its parent's, and the node.
pub fn lines_of(alloc: Global, rows: &[Row]) -> Result<Vec<String>, Trouble> {
    let mut lines = Vec::new(alloc);
    for row in rows {
        lines.push(line_of(alloc, row)?)?;
    }
    Ok(lines)
}

/// The line of a row, as `7 in 5 <input id="q" !rvf>`.
pub fn line_of(alloc: Global, row: &Row) -> Result<String, Trouble> {
    let NodeId(number) = row.id;
    let parent = number_of(row.parent);
    let mut line = format!(in alloc; "{number} in {parent} ")?;
    push_body(alloc, &mut line, row.body.get(), row.facts)?;
    Ok(line)
}

fn push_body(alloc: Global, line: &mut String, body: &Body, facts: Facts) -> Result<(), Trouble> {
    match body {
        Body::Words { text } => {
            push_quoted(alloc, line, text.as_str())?;
            push_facts(line, facts)
        }
        Body::Element { space, tag, attrs } => {
            push_tag(line, *space, tag.as_str())?;
            push_attrs(alloc, line, attrs.as_slice())?;
            push_facts(line, facts)?;
            push_tag_end(line)
        }
    }
}

fn push_tag(line: &mut String, space: Space, tag: &str) -> Result<(), Trouble> {
    line.push_str(opening(space))?;
    line.push_str(tag)?;
    Ok(())
}

fn push_tag_end(line: &mut String) -> Result<(), Trouble> {
    line.push('>')?;
    Ok(())
}

/// The number of a node; 0 where there is none.
pub fn number_of(node: Option<NodeId>) -> u32 {
    match node {
        Some(NodeId(number)) => number,
        None => 0,
    }
}

fn opening(space: Space) -> &'static str {
    match space {
        Space::Html => "<",
        Space::Svg => "<svg:",
        Space::Other => "<other:",
    }
}

fn push_attrs(alloc: Global, line: &mut String, attrs: &[Attr]) -> Result<(), Trouble> {
    for attr in attrs {
        line.push(' ')?;
        line.push_str(attr.name.as_str())?;
        line.push('=')?;
        push_quoted(alloc, line, attr.value.as_str())?;
    }
    Ok(())
}

fn push_facts(line: &mut String, facts: Facts) -> Result<(), Trouble> {
    if facts.rendered && facts.visible && !facts.focusable && !facts.tabbable {
        return Ok(());
    }
    line.push_str(" !")?;
    for (is_so, letter) in [
        (facts.rendered, 'r'),
        (facts.visible, 'v'),
        (facts.focusable, 'f'),
        (facts.tabbable, 't'),
    ] {
        if is_so {
            line.push(letter)?;
        }
    }
    Ok(())
}
