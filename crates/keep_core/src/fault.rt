ghost use Rattle.std.specs.Prelude.{◌≡◌};
ghost use Rattle.keep_core.specs.declared.fault.KeepFault.TheVariants as keep;

use snap_tree::OutOfMemory;

/// Why a call of a keeper gave no answer.
#[derive(Clone, Copy, Debug, PartialEq, Eq)]
pub enum KeepFault {
    /// The keeper met a fault, and counted it.
    Failed,
    OutOfMemory,
}

impl From<OutOfMemory> for KeepFault {
    ghost from_gives = { λ _ fault. fault ≡ keep.OutOfMemory };

    fn from(_error: OutOfMemory) -> Self {
        KeepFault::OutOfMemory
    }
}
