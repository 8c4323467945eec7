ghost use Rattle.std.specs.Prelude.{◌≡◌};
ghost use Rattle.snap_edit.specs.declared.fault.EditRefusal.TheVariants.{OutOfMemory};
ghost use Rattle.snap_edit.specs.declared.fault.EditFault.TheVariants as fault;
ghost use Rattle.snap_edit.specs.Numbers.{kind_number};

use snap_tree::TreeFault;
use std::alloc::{AllocError, AllocFailed};

/// What keeps an edit from being carried out.
#[derive(Clone, Copy, Debug, PartialEq, Eq, Hash)]
pub enum EditKind {
    /// The page holds no node of the number.
    NoNode,
    /// The node is a text.
    NotElement,
    /// The node is an element.
    NotText,
    /// A row's number is in the page.
    NumberTaken,
    /// The new parent is the node itself, or below it.
    IntoItself,
    /// The node is the root.
    RootMoved,
    /// The place exceeds the number of children.
    PlaceOut,
    /// The edited page has a fault, or the inserted rows have one when they are taken alone.
    Tree(TreeFault),
    /// The list has more than 200 edits.
    TooManyEdits,
}

impl EditKind {
    /// The number by which the kind is printed, from 1 to 9.
    pub fn number(self) -> u8
        ensures { result ≡ kind_number self }
    {
        match self {
            EditKind::NoNode => 1,
            EditKind::NotElement => 2,
            EditKind::NotText => 3,
            EditKind::NumberTaken => 4,
            EditKind::IntoItself => 5,
            EditKind::RootMoved => 6,
            EditKind::PlaceOut => 7,
            EditKind::Tree(_) => 8,
            EditKind::TooManyEdits => 9,
        }
    }
}

/// Why a list of edits isn't carried out.
#[derive(Clone, Copy, Debug, PartialEq, Eq, Hash)]
pub enum EditFault {
    /// The edit of this index, counted from 0, has the fault.
    At { index: u32, kind: EditKind },
    OutOfMemory,
}

impl From<snap_tree::OutOfMemory> for EditFault {
    ghost from_gives = { λ _ f. f ≡ fault.OutOfMemory };

    fn from(_error: snap_tree::OutOfMemory) -> Self {
        EditFault::OutOfMemory
    }
}

/// Why one edit isn't carried out.
#[derive(Clone, Copy)]
pub(crate) enum EditRefusal {
    Kind(EditKind),
    OutOfMemory,
}

impl From<AllocError> for EditRefusal {
    ghost from_gives = { λ _ f. f ≡ OutOfMemory };

    fn from(_error: AllocError) -> Self {
        EditRefusal::OutOfMemory
    }
}

impl<T: Drop> From<AllocFailed<T>> for EditRefusal {
    ghost from_gives = { λ _ f. f ≡ OutOfMemory };

    fn from(_error: AllocFailed<T>) -> Self {
        EditRefusal::OutOfMemory
    }
}

impl From<snap_tree::OutOfMemory> for EditRefusal {
    ghost from_gives = { λ _ f. f ≡ OutOfMemory };

    fn from(_error: snap_tree::OutOfMemory) -> Self {
        EditRefusal::OutOfMemory
    }
}
