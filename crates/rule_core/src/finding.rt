ghost use Rattle.std.specs.Prelude.{◌≡◌, IfOk};
ghost use Rattle.std.specs.Option.{option_copied};
ghost use Rattle.rule_core.specs.Findings.{passed, failed, cant_tell, met, verdict_of, verdict_on};

use crate::evidence::brief;
use crate::reason::Reason;
use crate::verdict::{Auto, Verdict};
use snap_tree::{OutOfMemory, Text};
use std::alloc::Global;

/// What a rule finds on a target: an outcome and its reason.
#[derive(Clone, Copy, Debug, PartialEq, Eq, Hash)]
pub struct Finding {
    pub auto: Auto,
    pub reason: Reason,
}

impl Finding {
    /// Passed, for this reason.
    pub fn passed(reason: Reason) -> Self
        ensures { result ≡ passed reason }
    {
        Finding {
            auto: Auto::Passed,
            reason,
        }
    }

    /// Failed, for this reason.
    pub fn failed(reason: Reason) -> Self
        ensures { result ≡ failed reason }
    {
        Finding {
            auto: Auto::Failed,
            reason,
        }
    }

    /// A person has to judge, for this reason.
    pub fn cant_tell(reason: Reason) -> Self
        ensures { result ≡ cant_tell reason }
    {
        Finding {
            auto: Auto::CantTell,
            reason,
        }
    }

    /// Passed, since every expectation is met.
    pub fn met() -> Self
        ensures { result ≡ met }
    {
        Finding::passed(Reason::Met)
    }

    /// The verdict that rests on a text: its evidence is `brief` of the text.
    pub fn verdict(self, alloc: Global, text: &Text) -> Result<Verdict, OutOfMemory>
        ensures { IfOk result (λ verdict. verdict ≡ verdict_of self text.now) }
    {
        Ok(Verdict {
            auto: self.auto,
            reason: self.reason,
            evidence: brief(alloc, text)?,
        })
    }

    /// The verdict that rests on a text which may be absent; then the evidence is empty.
    pub fn verdict_on(self, alloc: Global, text: Option<&Text>) -> Result<Verdict, OutOfMemory>
        ensures { IfOk result (λ verdict. verdict ≡ verdict_on self (option_copied text.entry)) }
    {
        match text {
            Some(text) => self.verdict(alloc, text),
            None => self.verdict(alloc, &Text::new(alloc)),
        }
    }
}
