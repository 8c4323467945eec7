ghost use Rattle.std.specs.Prelude.{◌≡◌};
ghost use Rattle.http_commands.specs.declared.unasked.Unasked.TheVariants.{OutOfMemory as Wanting};

use http_routes::RequestFault;
use snap_tree::OutOfMemory;
use std::alloc::{AllocError, AllocFailed};

/// Why a message was not read as a request: it is refused, or memory is wanted.
#[derive(Debug, Drop)]
pub(crate) enum Unasked {
    Refused(RequestFault),
    OutOfMemory,
}

impl From<OutOfMemory> for Unasked {
    ghost from_gives = { λ _ e. e ≡ Wanting };

    fn from(_error: OutOfMemory) -> Self {
        Unasked::OutOfMemory
    }
}

impl From<AllocError> for Unasked {
    ghost from_gives = { λ _ e. e ≡ Wanting };

    fn from(_error: AllocError) -> Self {
        Unasked::OutOfMemory
    }
}

impl<T: Drop> From<AllocFailed<T>> for Unasked {
    ghost from_gives = { λ _ e. e ≡ Wanting };

    fn from(_error: AllocFailed<T>) -> Self {
        Unasked::OutOfMemory
    }
}
