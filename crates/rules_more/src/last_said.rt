ghost use Rattle.std.specs.Prelude.{◌≡◌, IfOk, IfSome};
ghost use Rattle.std.specs.Option.{option_copied};
ghost use Rattle.rules_more.specs.LabelInName.{label_verdict};

use rule_core::Verdict;
use snap_tree::{OutOfMemory, Text};
use std::alloc::Global;

// What was said of an element that shows this text and has this name.
#[derive(Drop)]
struct Said {
    shown: Text,
    name: Text,
    verdict: Verdict,
    ghost says: { verdict ≡ label_verdict shown name },
}

// An equal verdict.
fn copied(alloc: Global, verdict: &Verdict) -> Result<Verdict, OutOfMemory>
    ensures { IfOk result (λ copy. copy ≡ verdict.now) }
{
    Ok(Verdict {
        auto: verdict.auto,
        reason: verdict.reason,
        evidence: verdict.evidence.copy(alloc)?,
    })
}

impl Said {
    fn of(alloc: Global, shown: &Text, name: &Text, verdict: &Verdict) -> Result<Self, OutOfMemory>
        requires { verdict.now ≡ label_verdict shown.now name.now }
    {
        Ok(Said {
            shown: shown.copy(alloc)?,
            name: name.copy(alloc)?,
            verdict: copied(alloc, verdict)?,
        })
    }
}

/// What was last said: of elements that show the same and have one name, one after another, as those that stand in one
/// another may, only for the first are the texts compared and digested.
#[derive(Drop)]
pub(crate) struct LastSaid {
    last: Option<Said>,
}

impl LastSaid {
    /// Nothing was said yet. It takes no memory.
    pub(crate) fn new() -> Self {
        LastSaid { last: None }
    }

    // The verdict, where it is the one that was last given.
    fn known(&self, shown: &Text, name: &Text) -> Option<&Verdict>
        ensures { IfSome (option_copied result) (λ verdict. verdict ≡ label_verdict shown.now name.now) }
    {
        match &self.last {
            Some(said) if said.shown == *shown && said.name == *name => Some(&said.verdict),
            _ => None,
        }
    }

    /// The verdict once more, where it is the one that was last given.
    pub(crate) fn again(
        &self,
        alloc: Global,
        shown: &Text,
        name: &Text,
    ) -> Result<Option<Verdict>, OutOfMemory>
        ensures { IfOk result (λ verdict. IfSome verdict (λ v. v ≡ label_verdict shown.now name.now)) }
    {
        match self.known(shown, name) {
            Some(verdict) => Ok(Some(copied(alloc, verdict)?)),
            None => Ok(None),
        }
    }

    /// Whether the last one showed this too.
    pub(crate) fn showed(&self, shown: &Text) -> bool {
        match &self.last {
            Some(said) => said.shown == *shown,
            None => false,
        }
    }

    /// Keeps a verdict as the one that was last given.
    pub(crate) fn keep(
        &mut self,
        alloc: Global,
        shown: &Text,
        name: &Text,
        verdict: &Verdict,
    ) -> Result<(), OutOfMemory>
        requires { verdict.now ≡ label_verdict shown.now name.now }
    {
        self.last = Some(Said::of(alloc, shown, name, verdict)?);
        Ok(())
    }
}
