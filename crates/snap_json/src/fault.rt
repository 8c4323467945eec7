ghost use Rattle.std.specs.Prelude.{◌≡◌, codes};
ghost use Rattle.snap_json.specs.Faults.{fault_number, fault_name, fault_text, field_name};
ghost use Rattle.snap_json.specs.declared.fault.SnapFault.TheVariants.{OutOfMemory as Unread};

use snap_tree::{OutOfMemory, TreeFault};
use std::alloc::{AllocError, AllocFailed};
use std::error::Error;
use std::fmt;

/// A part of a snapshot that can be out of shape: the value as a whole (`Top`), its address, its list of
/// rows, a row as a whole, or a member of a row, by the member's name.
#[derive(Clone, Copy, Debug, PartialEq, Eq, Hash)]
pub enum Field {
    Top,
    Url,
    Nodes,
    Row,
    N,
    P,
    Ns,
    Tag,
    Attrs,
    Text,
    F,
}

impl Field {
    /// The field's name in lower case.
    pub fn name(self) -> &'static str
        ensures { result.now ≡ field_name self }
    {
        match self {
            Field::Top => "top",
            Field::Url => "url",
            Field::Nodes => "nodes",
            Field::Row => "row",
            Field::N => "n",
            Field::P => "p",
            Field::Ns => "ns",
            Field::Tag => "tag",
            Field::Attrs => "attrs",
            Field::Text => "text",
            Field::F => "f",
        }
    }
}

/// Why bytes were not read as a snapshot.
#[derive(Clone, Copy, Debug, PartialEq, Eq, Hash)]
pub enum SnapFault {
    /// The bytes aren't UTF-8, or aren't JSON nested at most 127 deep, or hold a number too great for a
    /// 64-bit float or an escape of a lone surrogate.
    NotJson,
    /// A field is out of shape. The place is 0 for the fields of the whole, and for the fields of a row
    /// the row's place in the list, counted from 1.
    Shape { place: u32, field: Field },
    /// The address exceeds 65,536 bytes, or is no URL of the scheme http or https.
    BadUrl,
    /// The rows make no tree.
    Tree(TreeFault),
    /// There are more than 8,388,608 bytes.
    TooLong,
    /// Want of memory, which is no fault of the snapshot.
    OutOfMemory,
}

impl SnapFault {
    /// The number by which the fault is printed, from 1 to 5; None for want of memory.
    pub fn number(self) -> Option<u8>
        ensures { result ≡ fault_number self }
    {
        match self {
            SnapFault::NotJson => Some(1),
            SnapFault::Shape { .. } => Some(2),
            SnapFault::BadUrl => Some(3),
            SnapFault::Tree(_) => Some(4),
            SnapFault::TooLong => Some(5),
            SnapFault::OutOfMemory => None,
        }
    }

    /// The name by which the fault is printed: its variant's.
    pub fn name(self) -> &'static str
        ensures { result.now ≡ fault_name self }
    {
        match self {
            SnapFault::NotJson => "NotJson",
            SnapFault::Shape { .. } => "Shape",
            SnapFault::BadUrl => "BadUrl",
            SnapFault::Tree(_) => "Tree",
            SnapFault::TooLong => "TooLong",
            SnapFault::OutOfMemory => "OutOfMemory",
        }
    }
}

/// The fault's number and name, and then its place and field, or the fault of the rows: as `1 NotJson`,
/// `2 Shape place 3 field tag` or `4 Tree 7 TextTooLong node 12`. Want of memory is `no memory`.
impl fmt::Display for SnapFault {
    ghost use Rattle.std.specs.Prelude.{Some};

    ghost output = { λ fault. Some (fault_text fault) };

    fn fmt<W: fmt::Write>(&self, f: &mut fmt::Formatter<W>) -> fmt::Result {
        let name = self.name();
        match (self.number(), self) {
            (None, _) => f.write_str("no memory"),
            (Some(number), SnapFault::Shape { place, field }) => {
                let field = field.name();
                write!(f, "{number} {name} place {place} field {field}")
            }
            (Some(number), SnapFault::Tree(fault)) => write!(f, "{number} {name} {fault}"),
            (Some(number), _) => write!(f, "{number} {name}"),
        }
    }
}

impl Error for SnapFault {}

impl From<OutOfMemory> for SnapFault {
    ghost from_gives = { λ _ e. e ≡ Unread };

    fn from(_error: OutOfMemory) -> Self {
        SnapFault::OutOfMemory
    }
}

impl From<AllocError> for SnapFault {
    ghost from_gives = { λ _ e. e ≡ Unread };

    fn from(_error: AllocError) -> Self {
        SnapFault::OutOfMemory
    }
}

impl<T: Drop> From<AllocFailed<T>> for SnapFault {
    ghost from_gives = { λ _ e. e ≡ Unread };

    fn from(_error: AllocFailed<T>) -> Self {
        SnapFault::OutOfMemory
    }
}
