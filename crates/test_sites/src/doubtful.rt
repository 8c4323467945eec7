//! A keeper that ceases to tell what it keeps, and notes its calls.

use judge_core::{Judgement, Outcomes};
use keep_core::{Batch, KeepFault, Keeper, Membership, MemoryKeeper, Page, PageHead, Site};
use snap_tree::{List, Text};
use std::alloc::Global;

/// A call of a keeper.
#[derive(Clone, Copy, Debug, PartialEq, Eq)]
pub enum Call {
    Edition,
    Sites,
    Site,
    Memberships,
    Load,
    List,
    Judgements,
    Outcomes,
    Apply,
}

/// Which calls came: the last one, and all since the trail was looked at, a digit to the base sixteen for each.
#[derive(Clone, Copy)]
struct Noted {
    last: Option<Call>,
    trail: u64,
}

impl Noted {
    fn and(self, call: Call) -> Noted {
        Noted {
            last: Some(call),
            trail: trail_with(self.trail, call),
        }
    }
}

/// Calls, of which this one comes after those of a trail.
pub fn trail_with(trail: u64, call: Call) -> u64 {
    let digit = match call {
        Call::Site => 1,
        Call::Load => 2,
        Call::List => 3,
        Call::Judgements => 4,
        Call::Outcomes => 5,
        Call::Apply => 6,
        Call::Edition => 7,
        Call::Sites => 8,
        Call::Memberships => 9,
    };
    trail.wrapping_mul(16).wrapping_add(digit)
}

/// A keeper over one in memory that tells its tables until its first fault, as a store does that is shut
/// then. It notes its calls.
#[derive(Drop)]
pub struct Doubtful {
    memory: MemoryKeeper,
    noted: Noted,
}

impl Doubtful {
    pub fn over(memory: MemoryKeeper) -> Self {
        let noted = Noted {
            last: None,
            trail: 0,
        };
        Doubtful { memory, noted }
    }

    /// The last call; None before the first.
    pub fn last(&self) -> Option<Call> {
        self.noted.last
    }

    /// The calls since this was asked for before.
    pub fn trail(&mut self) -> u64 {
        let trail = self.noted.trail;
        self.noted.trail = 0;
        trail
    }
}

impl Keeper for Doubtful {
    ghost use Rattle.keep_core.specs.Telling.{told_until_fault};

    ghost tables = { λ k. told_until_fault k.memory.faults k.memory.tables };

    ghost faults = { λ k. k.memory.faults };

    fn edition(&mut self, alloc: Global) -> Result<u64, KeepFault> {
        self.noted = self.noted.and(Call::Edition);
        self.memory.edition(alloc)
    }

    fn sites(&mut self, alloc: Global) -> Result<List<Text>, KeepFault> {
        self.noted = self.noted.and(Call::Sites);
        self.memory.sites(alloc)
    }

    fn site(&mut self, alloc: Global, site: &Text) -> Result<Option<Site>, KeepFault> {
        self.noted = self.noted.and(Call::Site);
        self.memory.site(alloc, site)
    }

    fn memberships(&mut self, alloc: Global, user: &Text) -> Result<List<Membership>, KeepFault> {
        self.noted = self.noted.and(Call::Memberships);
        self.memory.memberships(alloc, user)
    }

    fn load(&mut self, alloc: Global, site: &Text, page: &Text) -> Result<Option<Page>, KeepFault> {
        self.noted = self.noted.and(Call::Load);
        self.memory.load(alloc, site, page)
    }

    fn list(&mut self, alloc: Global, site: &Text) -> Result<List<PageHead>, KeepFault> {
        self.noted = self.noted.and(Call::List);
        self.memory.list(alloc, site)
    }

    fn judgements(
        &mut self,
        alloc: Global,
        site: &Text,
        page: &Text,
    ) -> Result<List<Judgement>, KeepFault> {
        self.noted = self.noted.and(Call::Judgements);
        self.memory.judgements(alloc, site, page)
    }

    fn outcomes(&mut self, alloc: Global, site: &Text, page: &Text) -> Result<Outcomes, KeepFault> {
        self.noted = self.noted.and(Call::Outcomes);
        self.memory.outcomes(alloc, site, page)
    }

    fn apply(&mut self, alloc: Global, batch: &Batch) -> Result<(), KeepFault> {
        self.noted = self.noted.and(Call::Apply);
        self.memory.apply(alloc, batch)
    }
}
