ghost use Rattle.std.specs.Prelude.{◌≡◌, IfOk};
ghost use Rattle.case_run.specs.Faults.{fault_number, fault_name, fault_text, field_name, cases_line};
ghost use Rattle.case_run.specs.declared.fault.CasesFault.TheVariants.{OutOfMemory as Unread};

use snap_json::SnapFault;
use snap_tree::{OutOfMemory, Text};
use std::alloc::{AllocError, AllocFailed, Global};
use std::error::Error;
use std::fmt;

/// A part of a list of cases that can be out of shape: the value as a whole (`Top`), its list, a case as a whole, or a
/// member of a case, by the member's name.
#[derive(Clone, Copy, Debug, PartialEq, Eq, Hash)]
pub enum CaseField {
    Top,
    Cases,
    Case,
    Id,
    Rule,
    Expected,
    Snapshot,
}

impl CaseField {
    /// The field's name in lower case.
    pub fn name(self) -> &'static str
        ensures { result.now ≡ field_name self }
    {
        match self {
            CaseField::Top => "top",
            CaseField::Cases => "cases",
            CaseField::Case => "case",
            CaseField::Id => "id",
            CaseField::Rule => "rule",
            CaseField::Expected => "expected",
            CaseField::Snapshot => "snapshot",
        }
    }
}

/// Why bytes were not read as a list of cases.
#[derive(Clone, Copy, Debug, PartialEq, Eq, Hash)]
pub enum CasesFault {
    /// The bytes aren't UTF-8, or aren't JSON nested at most 127 deep, or hold a number too great for a
    /// 64-bit float or an escape of a lone surrogate.
    NotJson,
    /// A field is out of shape. The place is 0 for the fields of the whole, and for those of a case the case's place in
    /// the list, counted from 1.
    Shape { place: u32, field: CaseField },
    /// The case at this place, counted from 1, has a snapshot with a fault, which is neither NotJson nor TooLong.
    Snapshot { place: u32, fault: SnapFault },
    /// There are more than 8,388,608 bytes.
    TooLong,
    /// Want of memory, which is no fault of the list.
    OutOfMemory,
}

impl CasesFault {
    /// The number by which the fault is printed, from 1 to 4; None for want of memory.
    pub fn number(self) -> Option<u8>
        ensures { result ≡ fault_number self }
    {
        match self {
            CasesFault::NotJson => Some(1),
            CasesFault::Shape { .. } => Some(2),
            CasesFault::Snapshot { .. } => Some(3),
            CasesFault::TooLong => Some(4),
            CasesFault::OutOfMemory => None,
        }
    }

    /// The name by which the fault is printed: its variant's.
    pub fn name(self) -> &'static str
        ensures { result.now ≡ fault_name self }
    {
        match self {
            CasesFault::NotJson => "NotJson",
            CasesFault::Shape { .. } => "Shape",
            CasesFault::Snapshot { .. } => "Snapshot",
            CasesFault::TooLong => "TooLong",
            CasesFault::OutOfMemory => "OutOfMemory",
        }
    }
}

/// The fault's number and name, and then the place with the field or with the fault of the snapshot: as `1 NotJson`,
/// `2 Shape place 3 field id` or `3 Snapshot place 2 4 Tree 1 Empty`. Want of memory is `no memory`.
impl fmt::Display for CasesFault {
    ghost use Rattle.std.specs.Prelude.{Some};

    ghost output = { λ fault. Some (fault_text fault) };

    fn fmt<W: fmt::Write>(&self, f: &mut fmt::Formatter<W>) -> fmt::Result {
        let name = self.name();
        match (self.number(), self) {
            (None, _) => f.write_str("no memory"),
            (Some(number), CasesFault::Shape { place, field }) => {
                let field = field.name();
                write!(f, "{number} {name} place {place} field {field}")
            }
            (Some(number), CasesFault::Snapshot { place, fault }) => {
                write!(f, "{number} {name} place {place} {fault}")
            }
            (Some(number), _) => write!(f, "{number} {name}"),
        }
    }
}

impl Error for CasesFault {}

impl From<OutOfMemory> for CasesFault {
    ghost from_gives = { λ _ e. e ≡ Unread };

    fn from(_error: OutOfMemory) -> Self {
        CasesFault::OutOfMemory
    }
}

impl From<AllocError> for CasesFault {
    ghost from_gives = { λ _ e. e ≡ Unread };

    fn from(_error: AllocError) -> Self {
        CasesFault::OutOfMemory
    }
}

impl<T: Drop> From<AllocFailed<T>> for CasesFault {
    ghost from_gives = { λ _ e. e ≡ Unread };

    fn from(_error: AllocFailed<T>) -> Self {
        CasesFault::OutOfMemory
    }
}

/// The line that names what is wrong with a list: `cases fault `, the number and the name of the fault, and then the place
/// with the field or with the fault of the snapshot. Fails only for want of memory.
pub fn cases_line(alloc: Global, fault: CasesFault) -> Result<Text, OutOfMemory>
    ensures { IfOk result (λ line. line ≡ cases_line fault) }
{
    Ok(Text::from_string(format!(in alloc; "cases fault {fault}\n")?))
}
