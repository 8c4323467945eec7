ghost use Rattle.std.specs.Prelude.{◌≡◌, IfOk};

use crate::judgement::Judgement;
use crate::outcomes::{OutRow, Outcomes};
use snap_tree::{Duplicate, OutOfMemory};
use std::alloc::Global;

impl Duplicate for Judgement {
    fn copy(&self, alloc: Global) -> Result<Self, OutOfMemory> {
        Judgement::copy(self, alloc)
    }
}

impl Duplicate for OutRow {
    fn copy(&self, alloc: Global) -> Result<Self, OutOfMemory> {
        OutRow::copy(self, alloc)
    }
}

impl Duplicate for Outcomes {
    fn copy(&self, alloc: Global) -> Result<Self, OutOfMemory> {
        Outcomes::copy(self, alloc)
    }
}

impl Judgement {
    /// An equal judgement.
    pub fn copy(&self, alloc: Global) -> Result<Self, OutOfMemory>
        ensures { IfOk result (λ copy. copy ≡ self.now) }
    {
        let hand = self.hand.copy(alloc)?;
        let note = self.note.copy(alloc)?;
        let evidence = self.evidence.copy(alloc)?;
        Ok(Judgement {
            rule: self.rule,
            node: self.node,
            verdict: self.verdict,
            hand,
            note,
            evidence,
        })
    }
}

impl OutRow {
    /// An equal row.
    pub fn copy(&self, alloc: Global) -> Result<Self, OutOfMemory>
        ensures { IfOk result (λ copy. copy ≡ self.now) }
    {
        let evidence = self.evidence.copy(alloc)?;
        let hand = self.hand.copy(alloc)?;
        Ok(OutRow {
            rule: self.rule,
            node: self.node,
            auto: self.auto,
            reason: self.reason,
            evidence,
            last: self.last,
            hand,
        })
    }
}

impl Outcomes {
    /// Equal outcomes.
    pub fn copy(&self, alloc: Global) -> Result<Self, OutOfMemory>
        ensures { IfOk result (λ copy. copy ≡ self.now) }
    {
        let rows = self.rows.copy(alloc)?;
        Ok(Outcomes { rows })
    }
}
