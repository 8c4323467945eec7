use crate::chance::try_at_random;
use crate::entries::try_entries;
use crate::large::try_large;
use crate::takings::try_takings;
use snap_tree::OutOfMemory;
use std::alloc::Global;

/// How many expectations held, how many didn't, and a line for each of these.
#[derive(Drop)]
pub(crate) struct Tally {
    pub alloc: Global,
    pub held: u64,
    pub missed: u64,
    pub said: String,
}

impl Tally {
    /// No expectation yet.
    pub fn new(alloc: Global) -> Self {
        Tally {
            alloc,
            held: 0,
            missed: 0,
            said: String::new(alloc),
        }
    }

    /// Tries the two files, and what no file has.
    pub fn try_all(&mut self, entries: &str, takings: &str) -> Result<(), OutOfMemory> {
        try_entries(self, entries)?;
        try_takings(self, takings)?;
        try_at_random(self)?;
        try_large(self)
    }

    /// Holds what came at a place against what was expected.
    pub fn expect(
        &mut self,
        place: &str,
        number: usize,
        wanted: &str,
        came: &str,
    ) -> Result<(), OutOfMemory> {
        if wanted == came {
            self.held = self.held.saturating_add(1);
            return Ok(());
        }
        self.missed = self.missed.saturating_add(1);
        let line = format!(in self.alloc; "{place} {number}: expected {wanted}, came {came}\n")?;
        self.said.push_str(line.as_str())?;
        Ok(())
    }
}
