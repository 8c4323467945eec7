ghost use Rattle.std.specs.Prelude.{◌≡◌};
ghost use Rattle.snap_tree.specs.declared.fault.BuildFault.TheVariants.{OutOfMemory};
ghost use Rattle.snap_tree.specs.FaultText.{fault_number, fault_name, fault_node, fault_text, build_fault_text};

use crate::row::NodeId;
use std::alloc::{AllocError, AllocFailed};
use std::error::Error;
use std::fmt;

/// What breaks a tree, with the node where there is one.
#[derive(Clone, Copy, Debug, PartialEq, Eq, Hash)]
pub enum TreeFault {
    /// There is no row.
    Empty,
    /// There are more than 10,000 rows.
    TooMany,
    /// An earlier row has the row's number.
    DoubleNumber { node: NodeId },
    /// The first row has a parent; or a later row has none, or one that is neither the row before it
    /// nor an ancestor of that row.
    ParentUnknownOrNotOpen { node: NodeId },
    /// The row's depth exceeds 128, where the root has depth 1.
    TooDeep { node: NodeId },
    /// The row has more than 64 attributes.
    TooManyAttrs { node: NodeId },
    /// The row's text or tag, or the name or the value of an attribute, exceeds 65,536 bytes.
    TextTooLong { node: NodeId },
    /// Two of the row's attribute names are equal but for the case of ASCII letters.
    DoubleAttr { node: NodeId },
    /// The row's parent is a text.
    TextHasKids { node: NodeId },
    /// The subtrees that references find weigh more than 100,000 together.
    ReferenceWeight,
    /// The first row is a text.
    RootNotElement { node: NodeId },
    /// The row's number is 0, its tag is empty, or the name of an attribute is.
    EmptyName { node: NodeId },
}

impl TreeFault {
    /// The number by which the fault is printed, from 1 to 12.
    pub fn number(self) -> u8
        ensures { result ≡ fault_number self }
    {
        match self {
            TreeFault::Empty => 1,
            TreeFault::TooMany => 2,
            TreeFault::DoubleNumber { .. } => 3,
            TreeFault::ParentUnknownOrNotOpen { .. } => 4,
            TreeFault::TooDeep { .. } => 5,
            TreeFault::TooManyAttrs { .. } => 6,
            TreeFault::TextTooLong { .. } => 7,
            TreeFault::DoubleAttr { .. } => 8,
            TreeFault::TextHasKids { .. } => 9,
            TreeFault::ReferenceWeight => 10,
            TreeFault::RootNotElement { .. } => 11,
            TreeFault::EmptyName { .. } => 12,
        }
    }

    /// The name by which the fault is printed: its variant's.
    pub fn name(self) -> &'static str
        ensures { result.now ≡ fault_name self }
    {
        match self {
            TreeFault::Empty => "Empty",
            TreeFault::TooMany => "TooMany",
            TreeFault::DoubleNumber { .. } => "DoubleNumber",
            TreeFault::ParentUnknownOrNotOpen { .. } => "ParentUnknownOrNotOpen",
            TreeFault::TooDeep { .. } => "TooDeep",
            TreeFault::TooManyAttrs { .. } => "TooManyAttrs",
            TreeFault::TextTooLong { .. } => "TextTooLong",
            TreeFault::DoubleAttr { .. } => "DoubleAttr",
            TreeFault::TextHasKids { .. } => "TextHasKids",
            TreeFault::ReferenceWeight => "ReferenceWeight",
            TreeFault::RootNotElement { .. } => "RootNotElement",
            TreeFault::EmptyName { .. } => "EmptyName",
        }
    }

    /// The node whose row has the fault; None for a fault of the whole tree.
    pub fn node(self) -> Option<NodeId>
        ensures { result ≡ fault_node self }
    {
        match self {
            TreeFault::Empty | TreeFault::TooMany | TreeFault::ReferenceWeight => None,
            TreeFault::DoubleNumber { node }
            | TreeFault::ParentUnknownOrNotOpen { node }
            | TreeFault::TooDeep { node }
            | TreeFault::TooManyAttrs { node }
            | TreeFault::TextTooLong { node }
            | TreeFault::DoubleAttr { node }
            | TreeFault::TextHasKids { node }
            | TreeFault::RootNotElement { node }
            | TreeFault::EmptyName { node } => Some(node),
        }
    }
}

/// The fault's number and name, and its node where there is one: as `7 TextTooLong node 12`.
impl fmt::Display for TreeFault {
    ghost use Rattle.std.specs.Prelude.{Some};

    ghost output = { λ fault. Some (fault_text fault) };

    fn fmt<W: fmt::Write>(&self, f: &mut fmt::Formatter<W>) -> fmt::Result {
        let number = self.number();
        let name = self.name();
        match self.node() {
            Some(NodeId(node)) => write!(f, "{number} {name} node {node}"),
            None => write!(f, "{number} {name}"),
        }
    }
}

impl Error for TreeFault {}

/// Why a tree isn't built.
#[derive(Clone, Copy, Debug, PartialEq, Eq, Hash)]
pub enum BuildFault {
    /// The rows make no tree: their first fault.
    Tree(TreeFault),
    /// Want of memory, which is no fault of the rows.
    OutOfMemory,
}

/// The fault of the rows, or `no memory`.
impl fmt::Display for BuildFault {
    ghost use Rattle.std.specs.Prelude.{Some};

    ghost output = { λ fault. Some (build_fault_text fault) };

    fn fmt<W: fmt::Write>(&self, f: &mut fmt::Formatter<W>) -> fmt::Result {
        match self {
            BuildFault::Tree(fault) => write!(f, "{fault}"),
            BuildFault::OutOfMemory => f.write_str("no memory"),
        }
    }
}

impl Error for BuildFault {}

impl From<AllocError> for BuildFault {
    ghost from_gives = { λ _ f. f ≡ OutOfMemory };

    fn from(_error: AllocError) -> Self {
        BuildFault::OutOfMemory
    }
}

impl<T: Drop> From<AllocFailed<T>> for BuildFault {
    ghost from_gives = { λ _ f. f ≡ OutOfMemory };

    fn from(_error: AllocFailed<T>) -> Self {
        BuildFault::OutOfMemory
    }
}

impl From<texts::OutOfMemory> for BuildFault {
    ghost from_gives = { λ _ f. f ≡ OutOfMemory };

    fn from(_error: texts::OutOfMemory) -> Self {
        BuildFault::OutOfMemory
    }
}
