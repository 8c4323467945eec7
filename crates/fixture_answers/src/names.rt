//! Names, roles and what else the accessibility tree says of a node.

ghost use Rattle.std.specs.Prelude.{◌≤◌};

use crate::aria::flags;
use acc_name::name;
use acc_tree::{
    decorative, explicit_role, exposed, follows, implicit_role, included, items, owned, owned_by,
    role, sight_of,
};
use aria_tables::Role;
use fixture_sketches::{Trouble, push_number, push_quoted, push_word};
use snap_tree::{NodeId, OutOfMemory, Tree};
use std::alloc::Global;

/// The name of a node and the clause that gives it, as `"Go" Content`; `out of memory` where it is too long.
pub fn name_of(alloc: Global, tree: &Tree, node: NodeId) -> Result<String, Trouble> {
    let mut line = String::new(alloc);
    match name(alloc, tree, node) {
        Err(OutOfMemory) => line.push_str(Trouble::OutOfMemory.said())?,
        Ok(name) => {
            let source = name.source;
            push_quoted(alloc, &mut line, name.text.as_str())?;
            line.push_str(format!(in alloc; " {source:?}")?.as_str())?;
        }
    }
    Ok(line)
}

/// `yes` where a node has a name, be it empty; `out of memory` where it is too long.
pub fn is_named(alloc: Global, tree: &Tree, node: NodeId) -> Result<String, Trouble> {
    let said = match name(alloc, tree, node) {
        Err(OutOfMemory) => Trouble::OutOfMemory.said(),
        Ok(_) => "yes",
    };
    Ok(String::from_str(alloc, said)?)
}

fn word_of(role: Option<Role>) -> &'static str {
    role.map_or("-", |role| role.word())
}

/// The explicit role of a node, the implicit one, and its role; `-` for none.
pub fn roles(alloc: Global, tree: &Tree, node: NodeId) -> Result<String, Trouble> {
    let mut line = String::from_str(alloc, word_of(explicit_role(tree, node)))?;
    push_word(&mut line, word_of(implicit_role(tree, node)))?;
    push_word(&mut line, word_of(role(tree, node)))?;
    Ok(line)
}

/// Whether a node is exposed, included and decorative.
pub fn standing(alloc: Global, tree: &Tree, node: NodeId) -> Result<String, Trouble> {
    flags(
        alloc,
        &[
            (exposed(tree, node), "exposed"),
            (included(tree, node), "included"),
            (decorative(tree, node), "decorative"),
        ],
    )
}

/// The numbers of the nodes that a node owns.
pub fn owns(alloc: Global, tree: &Tree, node: NodeId) -> Result<String, Trouble> {
    let mut line = String::new(alloc);
    for found in owned(alloc, tree, node)?.as_slice() {
        push_number(alloc, &mut line, found.0)?;
    }
    Ok(line)
}

/// What a node owns where aria-owns is followed so many times, 0 or 1, each with how many times one may still follow
/// from there on, as `5:1`.
pub fn items_of(alloc: Global, tree: &Tree, node: NodeId, number: u8) -> Result<String, Trouble>
    requires { number ≤ 1 }
{
    let mut line = String::new(alloc);
    for item in items(alloc, tree, node, number)?.as_slice() {
        let NodeId(found) = item.node;
        let number = item.number;
        push_word(&mut line, format!(in alloc; "{found}:{number}")?.as_str())?;
    }
    Ok(line)
}

/// The numbers of the nodes that a node follows by aria-owns.
pub fn followed(alloc: Global, tree: &Tree, node: NodeId) -> Result<String, Trouble> {
    let mut line = String::new(alloc);
    let Some(row) = tree.node(node) else {
        return Ok(line);
    };
    for found in follows(alloc, tree, row)?.as_slice() {
        push_number(alloc, &mut line, found.0)?;
    }
    Ok(line)
}

/// What a node owns where groups and row groups are looked through, with their roles.
pub fn owns_through(alloc: Global, tree: &Tree, node: NodeId) -> Result<String, Trouble> {
    let mut line = String::new(alloc);
    let Some(sight) = sight_of(tree, node) else {
        return Ok(line);
    };
    let through = [Role::Group, Role::Rowgroup];
    for found in owned_by(alloc, tree, sight, 1, &through)?.as_slice() {
        push_number(alloc, &mut line, found.node.0)?;
        push_word(&mut line, found.role.word())?;
    }
    Ok(line)
}

/// What is above a node: whether it is in a section, in a list, hidden and disabled, and the numbers of the
/// nearest table and the nearest label.
pub fn above(alloc: Global, tree: &Tree, node: NodeId) -> Result<String, Trouble> {
    let Some(sight) = sight_of(tree, node) else {
        return Ok(String::new(alloc));
    };
    let above = sight.above;
    let mut line = flags(
        alloc,
        &[
            (above.is_in_section(), "section"),
            (above.is_in_list(), "list"),
            (above.is_hidden(), "hidden"),
            (above.is_disabled(), "disabled"),
        ],
    )?;
    if let Some(table) = above.table() {
        push_nearest(alloc, &mut line, "table", table.node)?;
    }
    if let Some(label) = above.label() {
        push_nearest(alloc, &mut line, "label", label)?;
    }
    Ok(line)
}

fn push_nearest(alloc: Global, line: &mut String, word: &str, node: NodeId) -> Result<(), Trouble> {
    push_word(line, word)?;
    push_number(alloc, line, node.0)
}
