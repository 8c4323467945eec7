use snap_tree::{Facts, List, NodeId, Row, Text};

/// How many edits one list has at the most.
pub const MOST_EDITS: usize = 200;

/// One change of a page.
#[derive(Debug, Drop)]
pub enum Edit {
    /// Gives the element's attribute of this name, compared ASCII case-insensitively, the value: it
    /// keeps its name and place, and a new one goes last.
    SetAttr {
        node: NodeId,
        name: Text,
        value: Text,
    },
    /// Takes the element's attribute of this name out; one that isn't there changes nothing.
    DropAttr {
        node: NodeId,
        name: Text,
    },
    /// Replaces the text of a text.
    SetText {
        node: NodeId,
        text: Text,
    },
    /// Replaces the browser's facts of a node.
    SetFacts {
        node: NodeId,
        facts: Facts,
    },
    /// Puts rows in as a subtree at this place among the parent's children, counted from 0. The first
    /// row has no parent of its own.
    Insert {
        parent: NodeId,
        place: u32,
        rows: List<Row>,
    },
    /// Takes the node out, and all that is below it.
    Remove {
        node: NodeId,
    },
    /// Takes the node out with all that is below it, and puts it in at this place among the parent's
    /// children, counted without it.
    Move {
        node: NodeId,
        parent: NodeId,
        place: u32,
    },
}
