ghost use Rattle.std.specs.Prelude.{◌≡◌, ◌+◌, ◌<◌, IfOk, OnOk, OnErr};
ghost use Rattle.acc_name.specs.declared.room.TheConstants.{MOST_NAME_BYTES, MOST_NESTED_BYTES};

use snap_tree::OutOfMemory;

/// The most bytes of text that are held at once while one name is made, what references and selected
/// options say included. A name that would need more wants memory.
pub const MOST_NAME_BYTES: usize = 67_108_864;

/// The most bytes of text that the `select` elements within others say in one name. A name that would
/// need more wants memory.
///
/// There texts can double at each level of a page: what a `select` says is said by its option too, and
/// again by the `select` around that. No browser builds such a page.
pub const MOST_NESTED_BYTES: usize = 65_536;

/// How many more bytes of text a name in the making may hold.
#[derive(Clone, Copy, Debug)]
pub(crate) struct Room {
    pub(crate) bytes: usize,
}

impl Room {
    /// The room that each name begins with.
    pub(crate) const fn whole() -> Self
        ensures { result.bytes ≡ MOST_NAME_BYTES }
    {
        Room {
            bytes: MOST_NAME_BYTES,
        }
    }

    /// What is left while so many bytes are held; it wants memory where they don't fit.
    pub(crate) fn less(self, bytes: usize) -> Result<Self, OutOfMemory>
        ensures left { IfOk result (λ left. left.bytes + bytes ≡ self.bytes) }
        ensures full { OnErr result (self.bytes < bytes) }
    {
        match self.bytes.checked_sub(bytes) {
            Some(bytes) => Ok(Room { bytes }),
            None => Err(OutOfMemory),
        }
    }
}

/// How many more bytes the `select` elements within others may say in a name in the making.
#[derive(Debug, Drop)]
pub(crate) struct Nested {
    pub(crate) bytes: usize,
}

impl Nested {
    /// What each name begins with.
    pub(crate) const fn whole() -> Self
        ensures { result.bytes ≡ MOST_NESTED_BYTES }
    {
        Nested {
            bytes: MOST_NESTED_BYTES,
        }
    }

    /// Counts what a `select` within another says; it wants memory where that doesn't fit.
    pub(crate) fn count(&mut self, bytes: usize) -> Result<(), OutOfMemory>
        ensures left { OnOk result (self.new.bytes + bytes ≡ self.old.bytes) }
        ensures full { OnErr result (self.old.bytes < bytes) }
    {
        match self.bytes.checked_sub(bytes) {
            Some(left) => {
                self.bytes = left;
                Ok(())
            }
            None => Err(OutOfMemory),
        }
    }
}
