ghost use Rattle.std.specs.Prelude.{◌≡◌};
ghost use Rattle.std.specs.Option.{option_copied};
ghost use Rattle.std.specs.List.{find};
ghost use Rattle.snap_tree.specs.Grown.{is_number};
ghost use Rattle.snap_tree.specs.Rows.{is_text, is_html, attrs_of, attribute};
ghost use Rattle.texts.specs.Words.{same_folded};

use crate::shared::SharedBody;
use texts::{List, Text, same_folded};

/// A node's number. Numbers of a well tree are above 0 and differ.
#[derive(Clone, Copy, Debug, PartialEq, Eq, PartialOrd, Ord, Hash)]
pub struct NodeId(pub u32);

/// The name space of an element: that of HTML, that of SVG, or any other.
#[derive(Clone, Copy, Debug, PartialEq, Eq, Hash)]
pub enum Space {
    Html,
    Svg,
    Other,
}

/// What the browser says of a node.
#[derive(Clone, Copy, Debug, PartialEq, Eq, Hash)]
pub struct Facts {
    /// It has boxes on the page.
    pub rendered: bool,
    /// It is rendered, and its computed `visibility` is `visible`.
    pub visible: bool,
    /// `focus()` makes it the active element.
    pub focusable: bool,
    /// The Tab key stops at it.
    pub tabbable: bool,
}

/// An attribute, its name and value as sent.
#[derive(Debug, Drop)]
pub struct Attr {
    pub name: Text,
    pub value: Text,
}

/// A node is an element or a text.
#[derive(Debug, Drop)]
pub enum Body {
    Element {
        space: Space,
        tag: Text,
        attrs: List<Attr>,
    },
    Words {
        text: Text,
    },
}

/// A node of a page: its number, its parent's, what it is, and the browser's facts.
#[derive(Debug, Drop)]
pub struct Row {
    pub id: NodeId,
    pub parent: Option<NodeId>,
    pub body: SharedBody,
    pub facts: Facts,
}

/// What may make a page: an address, and rows in document order.
#[derive(Debug, Drop)]
pub struct Raw {
    pub address: Text,
    pub rows: List<Row>,
}

impl Row {
    /// Whether the node is a text.
    pub fn is_text(&self) -> bool
        ensures { result ≡ is_text self.now }
    {
        matches!(self.body.get(), Body::Words { .. })
    }

    /// Whether the node is an HTML element of this tag, which compares ASCII case-insensitively.
    pub fn is_html(&self, tag: &str) -> bool
        ensures { result ≡ is_html tag.now self.now }
    {
        match self.body.get() {
            Body::Element {
                space: Space::Html,
                tag: own,
                ..
            } => same_folded(tag, own.as_str()),
            _ => false,
        }
    }

    /// The element's attributes in their order; none for a text.
    pub fn attrs(&self) -> &[Attr]
        ensures { result.now ≡ attrs_of self.now }
    {
        match self.body.get() {
            Body::Element { attrs, .. } => attrs.as_slice(),
            Body::Words { .. } => &[],
        }
    }

    /// The value of the element's first attribute of this name, which compares ASCII
    /// case-insensitively; None where there is no such attribute.
    pub fn attribute(&self, name: &str) -> Option<&Text>
        ensures { option_copied result ≡ attribute name.now self.now }
    {
        match find(self.attrs(), name) {
            Some(attr) => Some(&attr.value),
            None => None,
        }
    }
}

fn find<'a>(attrs: &'a [Attr], name: &str) -> Option<&'a Attr>
    ensures { option_copied result ≡ find (λ a. same_folded a.name name.now) attrs.now }
{
    attrs
        .iter()
        .find(|attr| same_folded(attr.name.as_str(), name))
}

/// Whether the parent is there and has this number.
pub(crate) fn is_number(parent: Option<NodeId>, id: NodeId) -> bool
    ensures { result ≡ is_number parent id }
{
    match parent {
        Some(parent) => parent.0 == id.0,
        None => false,
    }
}
