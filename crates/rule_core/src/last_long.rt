ghost use Rattle.std.specs.Prelude.{◌≡◌, IfOk, IfSome};
ghost use Rattle.std.specs.Option.{option_copied};
ghost use Rattle.rule_core.specs.Brief.{digested, brief};

use crate::evidence::{LONGEST, digested};
use snap_tree::{OutOfMemory, Text};
use std::alloc::Global;

// A text, and what stands for it where it is too long to stand in evidence as it is.
#[derive(Drop)]
struct Long {
    text: Text,
    shown: Text,
    ghost stands: { shown ≡ digested text },
}

impl Long {
    fn of(alloc: Global, text: &Text) -> Result<Self, OutOfMemory>
        ensures { IfOk result (λ long. long.shown ≡ digested text.now) }
    {
        Ok(Long {
            text: text.copy(alloc)?,
            shown: digested(alloc, text)?,
        })
    }
}

/// The text that was last too long to stand in evidence as it is, with what stands for it: of equal texts,
/// one after another, only the first is digested.
#[derive(Drop)]
pub struct LastLong {
    last: Option<Long>,
}

impl LastLong {
    /// There was no such text yet. It takes no memory.
    pub fn new() -> Self {
        LastLong { last: None }
    }

    // What stands for the text, where it is equal to the last.
    fn known(&self, text: &Text) -> Option<&Text>
        ensures { IfSome (option_copied result) (λ shown. shown ≡ digested text.now) }
    {
        match &self.last {
            Some(long) if long.text == *text => Some(&long.shown),
            _ => None,
        }
    }

    /// The text as it stands in evidence, the same as by `brief`. A text of at most 4,096 bytes leaves the last
    /// one as it was.
    #[tactic(auto, unfolding(crate::specs::Brief::brief))]
    pub fn brief(&mut self, alloc: Global, text: &Text) -> Result<Text, OutOfMemory>
        ensures { IfOk result (λ t. t ≡ brief text.now) }
    {
        if text.len() <= LONGEST {
            return text.copy(alloc);
        }
        if let Some(shown) = self.known(text) {
            return shown.copy(alloc);
        }
        let long = Long::of(alloc, text)?;
        let shown = long.shown.copy(alloc)?;
        self.last = Some(long);
        Ok(shown)
    }
}
