//! Reads edits of a page that are written as lines.

use crate::lines::Line;
use crate::sketch::{Sketch, facts};
use crate::trouble::Trouble;
use crate::words::{cut, number, unquoted};
use snap_edit::Edit;
use snap_tree::{List, NodeId, Text};
use std::alloc::Global;

// Rows that are to be inserted, as far as their lines are read.
#[derive(Drop)]
struct Inserting {
    parent: NodeId,
    place: u32,
    sketch: Sketch,
}

/// The edits that lines are: `set 2 class "x y"`, `drop 2 class`, `text 6 "Go"`, `facts 5 rv` or `facts 5 none`,
/// `remove 7`, `move 5 to 7 at 1`, and `insert in 2 at 0` with the rows indented below it, or behind `:` in one line.
pub fn edits_of(alloc: Global, lines: &[Line]) -> Result<Vec<Edit>, Trouble> {
    let mut edits = Vec::new(alloc);
    let mut open = None;
    for line in lines {
        let text = line.text.as_str();
        if text.starts_with(' ') {
            add_row(&mut open, text)?;
            continue;
        }
        close(&mut edits, open.take())?;
        match text.strip_prefix("insert in ") {
            Some(rest) => open = Some(begun(alloc, rest)?),
            None => edits.push(edit_of(alloc, text)?)?,
        }
    }
    close(&mut edits, open.take())?;
    Ok(edits)
}

fn add_row(open: &mut Option<Inserting>, text: &str) -> Result<(), Trouble> {
    match open {
        Some(inserting) => inserting
            .sketch
            .line(text.strip_prefix("  ").unwrap_or(text)),
        None => Err(Trouble::NotInForm),
    }
}

fn close(edits: &mut Vec<Edit>, open: Option<Inserting>) -> Result<(), Trouble> {
    let Some(inserting) = open else {
        return Ok(());
    };
    let Inserting {
        parent,
        place,
        sketch,
    } = inserting;
    let rows = List::from_vec(sketch.into_rows());
    edits.push(Edit::Insert {
        parent,
        place,
        rows,
    })?;
    Ok(())
}

fn begun(alloc: Global, rest: &str) -> Result<Inserting, Trouble> {
    let (parent, rest) = cut(rest, ' ');
    let parent = NodeId(number(parent)?);
    let rest = rest.strip_prefix("at ").unwrap_or(rest);
    let (place, row) = cut(rest, ':');
    let place = number(place)?;
    let mut sketch = Sketch::new(alloc);
    if !row.is_empty() {
        sketch.line(row.trim())?;
    }
    Ok(Inserting {
        parent,
        place,
        sketch,
    })
}

fn edit_of(alloc: Global, text: &str) -> Result<Edit, Trouble> {
    let (word, rest) = cut(text, ' ');
    let (node, rest) = cut(rest, ' ');
    let node = NodeId(number(node)?);
    match word {
        "set" => set(alloc, node, rest),
        "move" => moved(node, rest),
        "remove" => Ok(Edit::Remove { node }),
        "drop" => {
            let name = Text::from_str(alloc, rest)?;
            Ok(Edit::DropAttr { node, name })
        }
        "text" => {
            let text = Text::from_string(unquoted(alloc, rest)?);
            Ok(Edit::SetText { node, text })
        }
        "facts" => {
            let facts = facts(if rest == "none" { "" } else { rest })?;
            Ok(Edit::SetFacts { node, facts })
        }
        _ => Err(Trouble::NotInForm),
    }
}

fn set(alloc: Global, node: NodeId, rest: &str) -> Result<Edit, Trouble> {
    let (name, value) = cut(rest, ' ');
    let name = Text::from_str(alloc, name)?;
    let value = Text::from_string(unquoted(alloc, value)?);
    Ok(Edit::SetAttr { node, name, value })
}

fn moved(node: NodeId, rest: &str) -> Result<Edit, Trouble> {
    let (parent, place) = match rest.strip_prefix("to ") {
        Some(rest) => cut(rest, ' '),
        None => return Err(Trouble::NotInForm),
    };
    let parent = NodeId(number(parent)?);
    let place = number(place.strip_prefix("at ").unwrap_or(place))?;
    Ok(Edit::Move {
        node,
        parent,
        place,
    })
}
