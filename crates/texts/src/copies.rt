ghost use Rattle.std.specs.Prelude.{◌≡◌, IfOk};

use crate::list::List;
use crate::memory::OutOfMemory;
use crate::text::Text;
use std::alloc::Global;

/// A value of which an equal one can be made in memory of its own.
pub trait Duplicate: Drop {
    /// An equal value.
    fn copy(&self, alloc: Global) -> Result<Self, OutOfMemory>
        ensures { IfOk result (λ copy. copy ≡ self.now) };
}

/// Copies of values, in their order.
pub fn copies_of<T: Duplicate>(alloc: Global, items: &[T]) -> Result<Vec<T>, OutOfMemory>
    ensures { IfOk result (λ copies. copies.items ≡ items.now) }
{
    let mut copies = Vec::with_capacity(alloc, items.len())?;
    for item in items {
        copies.push(item.copy(alloc)?)?;
    }
    Ok(copies)
}

impl<T: Duplicate> List<T> {
    /// An equal list.
    pub fn copy(&self, alloc: Global) -> Result<Self, OutOfMemory>
        ensures { IfOk result (λ copy. copy ≡ self.now) }
    {
        Ok(List::from_vec(copies_of(alloc, self.as_slice())?))
    }
}

impl Duplicate for Text {
    fn copy(&self, alloc: Global) -> Result<Self, OutOfMemory> {
        Text::copy(self, alloc)
    }
}
