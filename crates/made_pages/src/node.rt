ghost use Rattle.std.specs.Prelude.{◌≡◌, [], IfOk};
ghost use Rattle.made_pages.specs.Pages.{attr, below, element, no_facts, rv, rvft, words};

use snap_tree::{Attr, Body, Facts, List, NodeId, OutOfMemory, Row, SharedBody, Space, Text};
use std::alloc::Global;

/// The facts of what is rendered and visible, and stops the Tab key.
pub const RVFT: Facts = Facts {
    rendered: true,
    visible: true,
    focusable: true,
    tabbable: true,
};

/// The facts of what is rendered and visible.
pub const RV: Facts = Facts {
    rendered: true,
    visible: true,
    focusable: false,
    tabbable: false,
};

/// The facts of what isn't rendered.
pub const NO_FACTS: Facts = Facts {
    rendered: false,
    visible: false,
    focusable: false,
    tabbable: false,
};

/// The parent of this number.
pub fn below(number: u32) -> Option<NodeId>
    ensures { result ≡ below number }
{
    Some(NodeId(number))
}

/// No attribute. It takes no memory.
pub fn no_attrs(alloc: Global) -> List<Attr>
    ensures { result ≡ [] }
{
    List::from_vec(Vec::new(alloc))
}

/// The one attribute of this name and value.
pub fn attr(alloc: Global, name: &str, value: &str) -> Result<List<Attr>, OutOfMemory>
    ensures { IfOk result (λ attrs. attrs ≡ attr name.now value.now) }
{
    let name = Text::from_str(alloc, name)?;
    let value = Text::from_str(alloc, value)?;
    let mut attrs = Vec::new(alloc);
    attrs.push(Attr { name, value })?;
    Ok(List::from_vec(attrs))
}

/// The HTML element of this number, below its parent.
pub fn element(
    alloc: Global,
    number: u32,
    parent: Option<NodeId>,
    tag: &str,
    attrs: List<Attr>,
    facts: Facts,
) -> Result<Row, OutOfMemory>
    ensures { IfOk result (λ row. row ≡ element number parent tag.now attrs facts) }
{
    let tag = Text::from_str(alloc, tag)?;
    let body = Body::Element {
        space: Space::Html,
        tag,
        attrs,
    };
    Ok(Row {
        id: NodeId(number),
        parent,
        body: SharedBody::new(alloc, body)?,
        facts,
    })
}

/// The text of this number, below its parent.
pub fn words(
    alloc: Global,
    number: u32,
    parent: Option<NodeId>,
    text: Text,
    facts: Facts,
) -> Result<Row, OutOfMemory>
    ensures { IfOk result (λ row. row ≡ words number parent text facts) }
{
    let body = Body::Words { text };
    Ok(Row {
        id: NodeId(number),
        parent,
        body: SharedBody::new(alloc, body)?,
        facts,
    })
}
