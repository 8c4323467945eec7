ghost use Rattle.std.specs.Prelude.{◌≡◌, IfOk};

use crate::row::{Attr, Body, Row};
use std::alloc::Global;
use texts::{Duplicate, OutOfMemory};

impl Duplicate for Attr {
    fn copy(&self, alloc: Global) -> Result<Self, OutOfMemory> {
        Attr::copy(self, alloc)
    }
}

impl Duplicate for Row {
    fn copy(&self, alloc: Global) -> Result<Self, OutOfMemory> {
        Row::copy(self, alloc)
    }
}

impl Attr {
    /// An equal attribute.
    pub fn copy(&self, alloc: Global) -> Result<Self, OutOfMemory>
        ensures { IfOk result (λ copy. copy ≡ self.now) }
    {
        let name = self.name.copy(alloc)?;
        let value = self.value.copy(alloc)?;
        Ok(Attr { name, value })
    }
}

impl Body {
    /// An equal body.
    pub fn copy(&self, alloc: Global) -> Result<Self, OutOfMemory>
        ensures { IfOk result (λ copy. copy ≡ self.now) }
    {
        match self {
            Body::Element { space, tag, attrs } => Ok(Body::Element {
                space: *space,
                tag: tag.copy(alloc)?,
                attrs: attrs.copy(alloc)?,
            }),
            Body::Words { text } => Ok(Body::Words {
                text: text.copy(alloc)?,
            }),
        }
    }
}

impl Row {
    /// An equal row.
    pub fn copy(&self, alloc: Global) -> Result<Self, OutOfMemory>
        ensures { IfOk result (λ copy. copy ≡ self.now) }
    {
        let body = self.body.copy()?;
        Ok(Row {
            id: self.id,
            parent: self.parent,
            body,
            facts: self.facts,
        })
    }
}
