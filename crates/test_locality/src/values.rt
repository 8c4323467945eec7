use acc_tree::{Attribute, attr, role};
use aria_tables::AriaAttr;
use snap_tree::{Attr, Body, Facts, NodeId, Row, Space, Tree, same_folded};
use std::alloc::{AllocError, Global};

/// What can be asked of a page.
#[derive(Clone, Copy)]
pub(crate) enum Key<'a> {
    Frame(NodeId),
    Own(NodeId),
    Kids(NodeId),
    Id(&'a str),
    LabelFor(&'a str),
    Tagged(&'a str),
    /// The language subtags that the site accepts.
    Langs,
}

static LOOKED_AT: [&str; 25] = [
    "alt",
    "autocomplete",
    "colspan",
    "content",
    "disabled",
    "for",
    "headers",
    "href",
    "http-equiv",
    "id",
    "label",
    "lang",
    "list",
    "multiple",
    "name",
    "placeholder",
    "role",
    "rowspan",
    "scope",
    "selected",
    "size",
    "title",
    "type",
    "value",
    "xml:lang",
];

fn is_looked_at(name: &str) -> bool {
    let mut is = name.starts_with("aria-");
    for word in LOOKED_AT.as_slice() {
        is = is | same_folded(name, word);
    }
    is
}

fn value_of(row: &Row, name: Attribute) -> &str {
    match attr(row, name) {
        Some(value) => value.as_str(),
        None => "absent",
    }
}

fn add_number(alloc: Global, text: &mut String, n: NodeId) -> Result<(), AllocError> {
    let digits = format!(in alloc; " {}", n.0)?;
    text.push_str(digits.as_str())
}

fn tag_of(body: &Body) -> &str {
    match body {
        Body::Element { tag, .. } => tag.as_str(),
        Body::Words { .. } => "#",
    }
}

fn space_of(body: &Body) -> &'static str {
    match body {
        Body::Element {
            space: Space::Html,
            ..
        } => "html",
        Body::Element {
            space: Space::Svg,
            ..
        } => "svg",
        Body::Element {
            space: Space::Other,
            ..
        } => "other",
        Body::Words { .. } => "#",
    }
}

/// Adds a part of a text, behind the mark between parts.
pub(crate) fn add_part(text: &mut String, part: &str) -> Result<(), AllocError> {
    text.push('|')?;
    text.push_str(part)
}

fn add_frame(alloc: Global, text: &mut String, tree: &Tree, row: &Row) -> Result<(), AllocError> {
    if let Some(parent) = row.parent {
        add_number(alloc, text, parent)?;
    }
    let role = match role(tree, row.id) {
        Some(role) => role.word(),
        None => "-",
    };
    add_part(text, space_of(row.body.get()))?;
    add_part(text, tag_of(row.body.get()))?;
    add_part(text, role)?;
    add_part(text, value_of(row, Attribute::Aria(AriaAttr::Hidden)))?;
    add_part(text, value_of(row, Attribute::Lang))?;
    add_part(text, value_of(row, Attribute::Disabled))
}

fn add_facts(text: &mut String, facts: Facts) -> Result<(), AllocError> {
    for is_so in [
        facts.rendered,
        facts.visible,
        facts.focusable,
        facts.tabbable,
    ] {
        text.push(if is_so { '1' } else { '0' })?;
    }
    Ok(())
}

fn add_attr(text: &mut String, attr: &Attr) -> Result<(), AllocError> {
    if is_looked_at(attr.name.as_str()) {
        add_part(text, attr.name.as_str())?;
        text.push('=')?;
        text.push_str(attr.value.as_str())?;
    }
    Ok(())
}

fn add_own(text: &mut String, row: &Row) -> Result<(), AllocError> {
    add_facts(text, row.facts)?;
    match row.body.get() {
        Body::Words { text: words } => text.push_str(words.as_str())?,
        Body::Element { attrs, .. } => {
            for attr in attrs.as_slice() {
                add_attr(text, attr)?;
            }
        }
    }
    Ok(())
}

fn add_kids(alloc: Global, text: &mut String, tree: &Tree, n: NodeId) -> Result<(), AllocError> {
    text.push('k')?;
    for kid in tree.kids(n) {
        add_number(alloc, text, kid)?;
    }
    Ok(())
}

/// Whether a row is a label for this id.
pub(crate) fn is_label_for(row: &Row, id: &str) -> bool {
    row.is_html("label") && value_of(row, Attribute::For) == id
}

fn add_labels(alloc: Global, text: &mut String, tree: &Tree, id: &str) -> Result<(), AllocError> {
    for row in tree.rows() {
        if is_label_for(row, id) {
            add_number(alloc, text, row.id)?;
        }
    }
    Ok(())
}

fn add_tagged(alloc: Global, text: &mut String, tree: &Tree, tag: &str) -> Result<(), AllocError> {
    for row in tree.rows() {
        if row.is_html(tag) {
            add_number(alloc, text, row.id)?;
        }
    }
    Ok(())
}

fn add_langs(text: &mut String, tree: &Tree) -> Result<(), AllocError> {
    for lang in tree.langs().as_slice() {
        add_part(text, lang.as_str())?;
    }
    Ok(())
}

fn add_node(
    alloc: Global,
    text: &mut String,
    tree: &Tree,
    key: Key,
    row: &Row,
) -> Result<(), AllocError> {
    match key {
        Key::Frame(_) => add_frame(alloc, text, tree, row),
        Key::Own(_) => add_own(text, row),
        Key::Kids(n) => add_kids(alloc, text, tree, n),
        _ => Ok(()),
    }
}

/// What a page answers, as a text; no character for a node that it doesn't hold.
pub(crate) fn value(alloc: Global, tree: &Tree, key: Key) -> Result<String, AllocError> {
    let mut text = String::new(alloc);
    match key {
        Key::Frame(n) | Key::Own(n) | Key::Kids(n) => {
            if let Some(row) = tree.node(n) {
                add_node(alloc, &mut text, tree, key, row)?;
            }
        }
        Key::Id(id) => {
            if let Some(n) = tree.by_id(id) {
                add_number(alloc, &mut text, n)?;
            }
        }
        Key::LabelFor(id) => add_labels(alloc, &mut text, tree, id)?,
        Key::Tagged(tag) => add_tagged(alloc, &mut text, tree, tag)?,
        Key::Langs => add_langs(&mut text, tree)?,
    }
    Ok(text)
}
