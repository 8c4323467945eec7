ghost use Rattle.std.specs.Prelude.{◌≡◌};
ghost use Rattle.fixture_pages.specs.declared.fault.RowFault.TheVariants.{OutOfMemory};
ghost use Rattle.fixture_pages.specs.declared.fault.PageFault.TheVariants.{Rows, Build};

use snap_tree::BuildFault;
use std::alloc::AllocFailed;

/// Why a text isn't read as rows.
#[derive(Clone, Copy, Debug, PartialEq, Eq)]
pub enum RowFault {
    /// It isn't in the words of this crate.
    NoRow,
    /// Want of memory, which is no fault of the text.
    OutOfMemory,
}

impl From<snap_tree::OutOfMemory> for RowFault {
    ghost from_gives = { λ _ f. f ≡ OutOfMemory };

    fn from(_error: snap_tree::OutOfMemory) -> Self {
        RowFault::OutOfMemory
    }
}

impl<T: Drop> From<AllocFailed<T>> for RowFault {
    ghost from_gives = { λ _ f. f ≡ OutOfMemory };

    fn from(_error: AllocFailed<T>) -> Self {
        RowFault::OutOfMemory
    }
}

/// Why a text makes no page.
#[derive(Clone, Copy, Debug, PartialEq, Eq)]
pub enum PageFault {
    /// It isn't read as rows.
    Rows(RowFault),
    /// No tree is built of its rows.
    Build(BuildFault),
}

impl From<RowFault> for PageFault {
    ghost from_gives = { λ fault f. f ≡ Rows fault };

    fn from(fault: RowFault) -> Self {
        PageFault::Rows(fault)
    }
}

impl From<BuildFault> for PageFault {
    ghost from_gives = { λ fault f. f ≡ Build fault };

    fn from(fault: BuildFault) -> Self {
        PageFault::Build(fault)
    }
}
