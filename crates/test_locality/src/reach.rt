use crate::values::{Key, is_label_for};
use acc_tree::{Attribute, is_labelable, text_at};
use aria_tables::AriaAttr;
use fixture_sketches::Trouble;
use rule_core::Class;
use snap_tree::{MOST_DEPTH, NodeId, Row, Tree, next_word};
use std::alloc::AllocError;

/// What a smaller reach is, in the place of that by the classes of a rule.
#[derive(Clone, Copy, Debug, PartialEq, Eq)]
pub(crate) enum Less {
    /// No smaller.
    Nothing,
    /// The applicability has this class.
    Applies(Class),
    /// The expectations have this class.
    Expects(Class),
    /// The frame of the node itself is left out.
    Frame,
    /// What the node has of its own is left out.
    Own,
    /// The frames of the nodes above are left out.
    FramesAbove,
    /// Which the children of a node are is left out.
    Kids,
    /// An id that finds nothing is left out.
    LostIds,
    /// The labels that are found by their `for` are left out.
    LabelsFound,
}

static SMALLER: [(&str, Less); 11] = [
    ("", Less::Nothing),
    ("applies self", Less::Applies(Class::SelfOnly)),
    ("applies title", Less::Applies(Class::Title)),
    ("expects self", Less::Expects(Class::SelfOnly)),
    ("expects sub", Less::Expects(Class::Sub)),
    ("frame", Less::Frame),
    ("own", Less::Own),
    ("frames-above", Less::FramesAbove),
    ("kids", Less::Kids),
    ("lost-ids", Less::LostIds),
    ("labels-found", Less::LabelsFound),
];

/// What is smaller, by its words in a line.
pub(crate) fn less_of(words: &str) -> Result<Less, Trouble> {
    for (said, less) in SMALLER.as_slice() {
        if *said == words {
            return Ok(*less);
        }
    }
    Err(Trouble::NotInForm)
}

/// A page, with what is smaller.
#[derive(Clone, Copy)]
pub(crate) struct Place<'a> {
    pub(crate) tree: &'a Tree,
    pub(crate) less: Less,
}

fn add_above(keys: &mut Vec<Key<'_>>, place: Place<'_>, n: NodeId) -> Result<(), AllocError> {
    if place.less == Less::FramesAbove {
        return Ok(());
    }
    let mut above = place.tree.parent(n);
    for _ in 0..MOST_DEPTH {
        let Some(parent) = above else {
            return Ok(());
        };
        keys.push(Key::Frame(parent))?;
        above = place.tree.parent(parent);
    }
    Ok(())
}

fn add_self(keys: &mut Vec<Key<'_>>, place: Place<'_>, n: NodeId) -> Result<(), AllocError> {
    if place.less != Less::Frame {
        keys.push(Key::Frame(n))?;
    }
    if place.less != Less::Own {
        keys.push(Key::Own(n))?;
    }
    add_above(keys, place, n)
}

fn add_node(keys: &mut Vec<Key<'_>>, place: Place<'_>, n: NodeId) -> Result<(), AllocError> {
    keys.push(Key::Frame(n))?;
    keys.push(Key::Own(n))?;
    if place.less != Less::Kids {
        keys.push(Key::Kids(n))?;
    }
    Ok(())
}

fn rows_below<'a>(tree: &'a Tree, n: NodeId) -> &'a [Row] {
    match tree.below(n) {
        Some(below) => below.rows(),
        None => &[],
    }
}

fn add_tree(keys: &mut Vec<Key<'_>>, place: Place<'_>, n: NodeId) -> Result<(), AllocError> {
    add_node(keys, place, n)?;
    for row in rows_below(place.tree, n) {
        add_node(keys, place, row.id)?;
    }
    Ok(())
}

// The node by itself, and its subtree.
fn add_found(keys: &mut Vec<Key<'_>>, place: Place<'_>, n: NodeId) -> Result<(), AllocError> {
    add_above(keys, place, n)?;
    add_tree(keys, place, n)
}

fn add_word<'a>(
    keys: &mut Vec<Key<'a>>,
    place: Place<'a>,
    word: &'a str,
) -> Result<(), AllocError> {
    let found = place.tree.by_id(word);
    if found.is_some() | (place.less != Less::LostIds) {
        keys.push(Key::Id(word))?;
    }
    match found {
        Some(n) => add_found(keys, place, n),
        None => Ok(()),
    }
}

fn add_words<'a>(
    keys: &mut Vec<Key<'a>>,
    place: Place<'a>,
    text: &'a str,
) -> Result<(), AllocError> {
    let mut rest = text;
    while let Some((word, later)) = next_word(rest) {
        add_word(keys, place, word)?;
        rest = later;
    }
    Ok(())
}

// The labels that name an id.
fn add_labels<'a>(
    keys: &mut Vec<Key<'a>>,
    place: Place<'a>,
    id: &'a str,
) -> Result<(), AllocError> {
    keys.push(Key::Id(id))?;
    keys.push(Key::LabelFor(id))?;
    if place.less == Less::LabelsFound {
        return Ok(());
    }
    for row in place.tree.rows() {
        if is_label_for(row, id) {
            add_found(keys, place, row.id)?;
        }
    }
    Ok(())
}

fn is_html(tree: &Tree, n: NodeId, tag: &str) -> bool {
    match tree.node(n) {
        Some(row) => row.is_html(tag),
        None => false,
    }
}

// The nearest node above that has this tag.
fn nearest(tree: &Tree, n: NodeId, tag: &str) -> Option<NodeId> {
    let mut above = tree.parent(n);
    for _ in 0..MOST_DEPTH {
        let Some(parent) = above else {
            return None;
        };
        if is_html(tree, parent, tag) {
            return Some(parent);
        }
        above = tree.parent(parent);
    }
    None
}

// The nearest label around a node.
fn add_around(keys: &mut Vec<Key<'_>>, place: Place<'_>, n: NodeId) -> Result<(), AllocError> {
    match nearest(place.tree, n, "label") {
        Some(label) => add_found(keys, place, label),
        None => Ok(()),
    }
}

static REFERENCES: [AriaAttr; 5] = [
    AriaAttr::Labelledby,
    AriaAttr::Describedby,
    AriaAttr::Details,
    AriaAttr::Flowto,
    AriaAttr::Owns,
];

fn add_references<'a>(
    keys: &mut Vec<Key<'a>>,
    place: Place<'a>,
    row: &'a Row,
) -> Result<(), AllocError> {
    for name in REFERENCES.as_slice() {
        add_words(keys, place, text_at(row, Attribute::Aria(*name)))?;
    }
    if !is_labelable(row) {
        return Ok(());
    }
    let id = text_at(row, Attribute::Id);
    if !id.is_empty() {
        add_labels(keys, place, id)?;
    }
    add_around(keys, place, row.id)
}

fn add_sub<'a>(keys: &mut Vec<Key<'a>>, place: Place<'a>, n: NodeId) -> Result<(), AllocError> {
    add_found(keys, place, n)?;
    if let Some(row) = place.tree.node(n) {
        add_references(keys, place, row)?;
    }
    for row in rows_below(place.tree, n) {
        add_references(keys, place, row)?;
    }
    Ok(())
}

fn add_table(keys: &mut Vec<Key<'_>>, place: Place<'_>, n: NodeId) -> Result<(), AllocError> {
    match nearest(place.tree, n, "table") {
        Some(table) => add_tree(keys, place, table),
        None => Ok(()),
    }
}

fn is_root(tree: &Tree, n: NodeId) -> bool {
    match tree.node(n) {
        Some(row) => row.parent.is_none(),
        None => false,
    }
}

fn add_titles(keys: &mut Vec<Key<'_>>, place: Place<'_>, n: NodeId) -> Result<(), AllocError> {
    if !is_root(place.tree, n) {
        return Ok(());
    }
    keys.push(Key::Tagged("title"))?;
    for row in place.tree.rows() {
        if row.is_html("title") {
            add_tree(keys, place, row.id)?;
        }
    }
    Ok(())
}

fn add_metas(keys: &mut Vec<Key<'_>>, tree: &Tree, n: NodeId) -> Result<(), AllocError> {
    if !is_html(tree, n, "meta") {
        return Ok(());
    }
    keys.push(Key::Tagged("meta"))?;
    for row in tree.rows() {
        if row.is_html("meta") {
            keys.push(Key::Own(row.id))?;
        }
    }
    Ok(())
}

fn add_whole(keys: &mut Vec<Key<'_>>, place: Place<'_>, n: NodeId) -> Result<(), AllocError> {
    if !is_root(place.tree, n) {
        return Ok(());
    }
    for row in place.tree.rows() {
        add_node(keys, place, row.id)?;
    }
    Ok(())
}

fn add_langs(keys: &mut Vec<Key<'_>>) -> Result<(), AllocError> {
    keys.push(Key::Langs)?;
    Ok(())
}

/// Adds what a class looks at.
pub(crate) fn add_class<'a>(
    keys: &mut Vec<Key<'a>>,
    place: Place<'a>,
    class: Class,
    n: NodeId,
) -> Result<(), AllocError> {
    add_self(keys, place, n)?;
    match class {
        Class::SelfOnly => Ok(()),
        Class::Sub => add_sub(keys, place, n),
        Class::Table => add_table(keys, place, n),
        Class::Title => add_titles(keys, place, n),
        Class::Metas => add_metas(keys, place.tree, n),
        Class::Whole => add_whole(keys, place, n),
        Class::Lang => add_langs(keys),
        Class::SubLang => {
            add_langs(keys)?;
            add_sub(keys, place, n)
        }
    }
}
