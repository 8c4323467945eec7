ghost use Rattle.std.specs.Prelude.{◌≡◌, [], IfOk};
ghost use Rattle.snap_tree.specs.Langs.{AreLangs};

use crate::row::Body;
use std::alloc::Global;
use std::marker::Model;
use std::sync::Arc;
use texts::{List, OutOfMemory, Text};

/// A body that rows share. Contracts see it as the `Body` that it holds. Nothing changes it, so its copies
/// share one body in memory, in any threads.
#[derive(Debug, Drop)]
pub struct SharedBody {
    body: Arc<Body>,
}

impl Model for SharedBody {
    ghost use Rattle.std.specs.Arc.{arc_value};
    ghost use Rattle.snap_tree.specs.declared.row.Body.{Body};

    ghost Value = { Body };

    ghost view = { λ s. arc_value s.body };
}

impl SharedBody {
    /// A body to share.
    pub fn new(alloc: Global, body: Body) -> Result<Self, OutOfMemory>
        ensures { IfOk result (λ shared. shared ≡ body) }
    {
        let body = Arc::new(alloc, body)?;
        Ok(SharedBody { body })
    }

    /// The body that is shared.
    pub fn get(&self) -> &Body
        ensures { result.now ≡ self.now }
    {
        &self.body
    }

    /// An equal body, which shares its memory with this one: it takes no memory of its own, and the same
    /// short time for any body. `OutOfMemory` says that there can be no more copies.
    pub fn copy(&self) -> Result<Self, OutOfMemory>
        ensures { IfOk result (λ copy. copy ≡ self.now) }
    {
        let body = Arc::try_clone(&self.body)?;
        Ok(SharedBody { body })
    }
}

// The language subtags that a page's site accepts. Contracts see them as a list. Nothing changes it, so that a
// tree, its copies and what edits make of it share one list in memory.
#[derive(Drop)]
pub(crate) struct SharedLangs {
    list: Arc<Langs>,
}

#[derive(Drop)]
struct Langs {
    list: List<Text>,
    ghost form: { AreLangs list },
}

impl Model for SharedLangs {
    ghost use Rattle.std.specs.Prelude.{ℕ, List as Items};
    ghost use Rattle.std.specs.Arc.{arc_value};

    ghost Value = { Items (Items ℕ) };

    ghost view = { λ s. (arc_value s.list).list };
}

impl SharedLangs {
    pub(crate) fn none(alloc: Global) -> Result<Self, OutOfMemory>
        ensures { IfOk result (λ shared. shared ≡ []) }
    {
        SharedLangs::new(alloc, List::from_vec(Vec::new(alloc)))
    }

    pub(crate) fn new(alloc: Global, list: List<Text>) -> Result<Self, OutOfMemory>
        requires { AreLangs list }
        ensures { IfOk result (λ shared. shared ≡ list) }
    {
        let list = Arc::new(alloc, Langs { list })?;
        Ok(SharedLangs { list })
    }

    pub(crate) fn get(&self) -> &List<Text>
        ensures list { result.now ≡ self.now }
        ensures form { AreLangs self.now }
    {
        &self.list.list
    }

    pub(crate) fn copy(&self) -> Result<Self, OutOfMemory>
        ensures { IfOk result (λ copy. copy ≡ self.now) }
    {
        let list = Arc::try_clone(&self.list)?;
        Ok(SharedLangs { list })
    }
}
