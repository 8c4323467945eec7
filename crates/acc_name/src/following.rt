ghost use Rattle.std.specs.Prelude.{◌≡◌, ◌≤◌, [], Some, IfOk, unwrap_or};
ghost use Rattle.aria_tables.specs.declared.attr.AriaAttr.TheVariants as aria;
ghost use Rattle.snap_tree.specs.Labels.{labels_for};
ghost use Rattle.texts.specs.Words.{words};
ghost use Rattle.acc_tree.specs.References.{found, named_by};
ghost use Rattle.acc_tree.specs.Seen.{seen_row, seen};
ghost use Rattle.acc_name.specs.Names.{joined, referred, all_referred, told_of, told_by};
ghost use Rattle.acc_name.specs.Voices.{text_in, labelled_of, told_length};

use crate::named::How;
use crate::owning::all_followed;
use crate::references::{References, Untold};
use crate::room::{Nested, Room};
use crate::telling::spoken;
use crate::tidying::tidied;
use crate::told::{Scope, Told};
use acc_tree::{Above, Attribute, exposed_at, first_found, has, labels_of, sight_of, text_at};
use aria_tables::AriaAttr;
use snap_tree::{Branches, NodeId, OutOfMemory, Row, Text, Tree};
use std::alloc::Global;

// What a node says where it is referred to in the name of another. Hidden nodes count if it is hidden
// itself.
fn referred(
    alloc: Global,
    room: Room,
    nested: &mut Nested,
    tree: &Tree,
    node: NodeId,
    m: NodeId,
) -> Result<Text, OutOfMemory>
    ensures { IfOk result (λ t. t ≡ referred (seen tree.now.trees) node m) }
{
    let Some(sight) = sight_of(tree, m) else {
        return Ok(Text::new(alloc));
    };
    let hidden = !exposed_at(&sight.above, sight.row);
    let scope = Scope { node, hidden };
    let name = spoken(alloc, &Untold, scope, room, nested, How::Referred, sight)?;
    tidied(alloc, name.text)
}

fn text_of(alloc: Global, joined: Option<String>) -> Text
    ensures { result ≡ unwrap_or (text_in joined) [] }
{
    match joined {
        Some(text) => Text::from_string(text),
        None => Text::new(alloc),
    }
}

// A text of its own, or one after another with a space between.
fn with_text(
    alloc: Global,
    so_far: Option<String>,
    text: &str,
) -> Result<Option<String>, OutOfMemory>
    ensures { IfOk result (λ t. text_in t ≡ joined (text_in so_far) (Some text.now)) }
{
    let Some(mut joined) = so_far else {
        return Ok(Some(String::from_str(alloc, text)?));
    };
    joined.push_str(" ")?;
    joined.push_str(text)?;
    Ok(Some(joined))
}

fn len_of(text: &Option<String>) -> usize {
    match text {
        Some(text) => text.len(),
        None => 0,
    }
}

// What some elements say where they are referred to, and then a further one, with a space between.
fn with_referred(
    alloc: Global,
    room: Room,
    nested: &mut Nested,
    tree: &Tree,
    node: NodeId,
    so_far: Option<String>,
    m: NodeId,
) -> Result<Option<String>, OutOfMemory>
    ensures { IfOk result (λ t. text_in t ≡ joined (text_in so_far) (Some (referred (seen tree.now.trees) node m))) }
{
    let left = room.less(len_of(&so_far))?;
    let text = referred(alloc, left, nested, tree, node, m)?;
    left.less(text.len())?;
    with_text(alloc, so_far, text.as_str())
}

// What the elements say that the words of a text find.
fn all_named(
    alloc: Global,
    room: Room,
    nested: &mut Nested,
    tree: &Tree,
    node: NodeId,
    text: &str,
) -> Result<Text, OutOfMemory>
    ensures { IfOk result (λ t. t ≡ all_referred (seen tree.now.trees) node (found (seen tree.now.trees) (words text.now))) }
{
    let mut so_far = None;
    let mut rest = text;
    while let Some((m, later)) = first_found(tree, rest) {
        so_far = with_referred(alloc, room, nested, tree, node, so_far, m)?;
        rest = later;
    }
    Ok(text_of(alloc, so_far))
}

// What the elements say that aria-labelledby finds.
fn labelled_by(
    alloc: Global,
    room: Room,
    nested: &mut Nested,
    tree: &Tree,
    node: NodeId,
    row: &Row,
) -> Result<Text, OutOfMemory>
    ensures { IfOk result (λ t. t ≡ all_referred (seen tree.now.trees) node (found (seen tree.now.trees) (named_by aria.Labelledby (seen_row row.now)))) }
{
    let words = text_at(row, Attribute::Aria(AriaAttr::Labelledby));
    if words.is_empty() {
        return Ok(Text::new(alloc));
    }
    all_named(alloc, room, nested, tree, node, words)
}

// What the labels of a node say.
fn labels(
    alloc: Global,
    room: Room,
    nested: &mut Nested,
    tree: &Tree,
    node: NodeId,
    row: &Row,
) -> Result<Text, OutOfMemory>
    ensures { IfOk result (λ t. t ≡ all_referred (seen tree.now.trees) node (labels_for (seen tree.now.trees) row.now.id)) }
{
    let labels = labels_of(alloc, tree, row.id)?;
    let mut so_far = None;
    for label in labels.as_slice() {
        so_far = with_referred(alloc, room, nested, tree, node, so_far, *label)?;
    }
    Ok(text_of(alloc, so_far))
}

/// What references say of a row that isn't asked for its content, in the name of a node.
pub(crate) fn labelled_of(
    alloc: Global,
    room: Room,
    nested: &mut Nested,
    tree: &Tree,
    node: NodeId,
    row: &Row,
) -> Result<Told, OutOfMemory>
    ensures { IfOk result (λ told. told ≡ labelled_of (seen tree.now.trees) node (seen_row row.now)) }
{
    let labelled_by = labelled_by(alloc, room, nested, tree, node, row)?;
    let left = room.less(labelled_by.len())?;
    let labels = labels(alloc, left, nested, tree, node, row)?;
    Ok(Told {
        labelled_by,
        labels,
        owned: Text::new(alloc),
    })
}

// What references say of a row, in the name of a node.
fn told_of(
    alloc: Global,
    room: Room,
    nested: &mut Nested,
    tree: &Tree,
    scope: Scope,
    row: &Row,
) -> Result<Told, OutOfMemory>
    ensures tells { IfOk result (λ told. told ≡ told_of (seen tree.now.trees) scope.node scope.hidden (seen_row row.now)) }
    ensures fits { IfOk result (λ told. told_length told ≤ room.bytes) }
{
    let mut told = labelled_of(alloc, room, nested, tree, scope.node, row)?;
    if has(row, Attribute::Aria(AriaAttr::Owns)) {
        let left = told.within(room)?;
        told.owned = all_followed(alloc, left, nested, tree, scope, row)?;
    }
    told.within(room)?;
    Ok(told)
}

/// All references of a page, for the name of one node.
#[derive(Drop)]
pub(crate) struct OnPage<'a> {
    pub(crate) tree: &'a Tree,
    pub(crate) scope: Scope,
}

impl References for OnPage<'_> {
    ghost tells = { λ page s. told_by (seen page.tree.now.trees) page.scope.node page.scope.hidden s };

    fn told(
        &self,
        alloc: Global,
        room: Room,
        nested: &mut Nested,
        row: &Row,
        _below: &Branches<'_>,
        _above: &Above<'_>,
    ) -> Result<Told, OutOfMemory> {
        told_of(alloc, room, nested, self.tree, self.scope, row)
    }
}
