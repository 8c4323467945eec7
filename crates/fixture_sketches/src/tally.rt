//! Counts what holds, and says what doesn't.

use crate::lines::Line;
use crate::trouble::Trouble;
use std::alloc::Global;

/// How many expectations of a file held, how many didn't, and a line for each of these.
#[derive(Drop)]
pub struct Tally {
    alloc: Global,
    pub passed: u64,
    pub failed: u64,
    pub said: String,
}

/// Where an expectation stands: the file, and the line of the table's row that is filled in, or 0.
#[derive(Clone, Copy)]
pub struct Spot<'a> {
    pub file: &'a str,
    pub row: usize,
}

// What is shown of a line at the most.
const SHOWN: usize = 300;

impl Tally {
    /// No expectation yet.
    pub fn new(alloc: Global) -> Self {
        Tally {
            alloc,
            passed: 0,
            failed: 0,
            said: String::new(alloc),
        }
    }

    /// Holds what was expected at a line against what came, line by line.
    pub fn compare(
        &mut self,
        spot: Spot<'_>,
        at: usize,
        wanted: &[Line],
        got: &[String],
    ) -> Result<(), Trouble> {
        for place in 0..wanted.len().max(got.len()) {
            let line = wanted.get(place);
            let want = line.map_or("nothing", |line| line.text.trim());
            let came = got.get(place).map_or("nothing", |line| line.as_str());
            if want != came {
                return self.miss(spot, line.map_or(at, |line| line.at), want, came);
            }
        }
        self.passed = self.passed.saturating_add(1);
        Ok(())
    }

    /// Says that one thing was expected at a line and another came.
    pub fn miss(
        &mut self,
        spot: Spot<'_>,
        at: usize,
        want: &str,
        came: &str,
    ) -> Result<(), Trouble> {
        self.failed = self.failed.saturating_add(1);
        let file = spot.file;
        let place = match spot.row {
            0 => format!(in self.alloc; "{file}:{at}: expected ")?,
            row => format!(in self.alloc; "{file}:{at}, row of line {row}: expected ")?,
        };
        self.said.push_str(place.as_str())?;
        self.push_some(want)?;
        self.said.push_str(", got ")?;
        self.push_some(came)?;
        self.said.push('\n')?;
        Ok(())
    }

    fn push_some(&mut self, text: &str) -> Result<(), Trouble> {
        for sign in text.chars().take(SHOWN) {
            self.said.push(sign)?;
        }
        Ok(())
    }
}
