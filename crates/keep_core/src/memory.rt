ghost use Rattle.std.specs.Prelude.{◌≡◌, ◌≤◌, Some, true, false, IfSome, IfOk, OnErr, MatchResult};
ghost use Rattle.counts.specs.Counts.{Rose};
ghost use Rattle.keep_core.specs.declared.fault.KeepFault.TheVariants as keep;
ghost use Rattle.keep_core.specs.Tables.{no_tables, edition_of, sites_of, site_of, memberships_of, page_of, heads_of, judgements_of, outcomes_of};
ghost use Rattle.keep_core.specs.Fits.{Fits, FitsSite, FitsPage, FitsHeads, FitNames, IsThere};
ghost use Rattle.keep_core.specs.Keeping.{Reads, Makes, CountsFaults};
ghost use Rattle.keep_core.specs.Memory.{Memory, fails_next, after_call, after_change, FailsByList};

use crate::change::Batch;
use crate::fault::KeepFault;
use crate::keeper::Keeper;
use crate::member::Membership;
use crate::page::{Page, PageHead};
use crate::site::Site;
use crate::tables::Tables;
use crate::{edits, lookups};
use counts::{is_named, next};
use judge_core::{Judgement, Outcomes};
use named_rows::Rows;
use snap_tree::{Duplicate, List, Text};
use std::alloc::Global;
use std::marker::Model;

/// A keeper in memory. It starts empty and of edition 0, always tells its tables, and wants memory for copies of what it keeps
/// and answers.
#[derive(Drop)]
pub struct MemoryKeeper {
    tables: Tables,
    fails: List<u64>,
    calls: u64,
    faults: u64,
}

impl Model for MemoryKeeper {
    ghost use Rattle.keep_core.specs.Memory.{Memory};
    ghost use Rattle.std.specs.Coded.{codes};
    ghost use Rattle.snap_tree.specs.Codes.{coded_document};

    ghost Value = { Memory };

    ghost coded = { Prim.hlevel (codes, coded_document) };

    ghost use Rattle.keep_core.specs.Fits.{FitTables};

    ghost view = { λ k. record { tables = k.tables; fails = k.fails; calls = k.calls; faults = k.faults } };

    ghost invariant = { λ k. FitTables k.tables };
}

impl MemoryKeeper {
    /// A keeper of nothing. Its calls are counted from 1, and those that `fails` names fail. It takes no
    /// memory.
    pub fn new(alloc: Global, fails: List<u64>) -> Self
        ensures { result ≡ record { tables = no_tables; fails = fails; calls = 0; faults = 0 } }
    {
        MemoryKeeper {
            tables: Tables {
                edition: 0,
                sites: Rows::new(alloc),
            },
            fails,
            calls: 0,
            faults: 0,
        }
    }

    // Counts a call, and fails where the list names it.
    fn count_call(&mut self) -> Result<(), KeepFault>
        ensures fails { MatchResult result (λ _. fails_next self.old ≡ false) (λ fault. (fault ≡ keep.Failed) × (fails_next self.old ≡ true)) }
        ensures never_falls { self.old.faults ≤ self.new.faults }
        ensures rose { OnErr result (Rose self.old.faults self.new.faults) }
        ensures after { self.new ≡ after_call self.old }
    {
        let fails = is_named(self.fails.as_slice(), self.calls);
        self.calls = next(self.calls);
        if fails {
            self.faults = next(self.faults);
            return Err(KeepFault::Failed);
        }
        Ok(())
    }
}

impl Keeper for MemoryKeeper {
    ghost tables = { λ k. Some k.tables };

    ghost faults = { λ k. k.faults };

    /// Fails exactly where the list names the call, as each call does.
    fn edition(&mut self, alloc: Global) -> Result<u64, KeepFault>
        ensures reads { Reads edition_of (Some self.old.tables) (Some self.new.tables) result }
        ensures faults { CountsFaults self.old.faults self.new.faults result }
        ensures fails { FailsByList self.old result }
        ensures after { self.new ≡ after_call self.old }
    {
        self.count_call()?;
        Ok(self.tables.edition)
    }

    fn sites(&mut self, alloc: Global) -> Result<List<Text>, KeepFault>
        ensures reads { Reads sites_of (Some self.old.tables) (Some self.new.tables) result }
        ensures fits { IfOk result FitNames }
        ensures faults { CountsFaults self.old.faults self.new.faults result }
        ensures fails { FailsByList self.old result }
        ensures after { self.new ≡ after_call self.old }
    {
        self.count_call()?;
        Ok(lookups::site_names(alloc, &self.tables)?)
    }

    fn site(&mut self, alloc: Global, site: &Text) -> Result<Option<Site>, KeepFault>
        ensures reads { Reads (site_of site.now) (Some self.old.tables) (Some self.new.tables) result }
        ensures fits { IfOk result (λ found. IfSome found FitsSite) }
        ensures faults { CountsFaults self.old.faults self.new.faults result }
        ensures fails { FailsByList self.old result }
        ensures after { self.new ≡ after_call self.old }
    {
        self.count_call()?;
        Ok(lookups::site_row(alloc, &self.tables, site)?)
    }

    fn memberships(&mut self, alloc: Global, user: &Text) -> Result<List<Membership>, KeepFault>
        ensures reads { Reads (memberships_of user.now) (Some self.old.tables) (Some self.new.tables) result }
        ensures faults { CountsFaults self.old.faults self.new.faults result }
        ensures fails { FailsByList self.old result }
        ensures after { self.new ≡ after_call self.old }
    {
        self.count_call()?;
        Ok(lookups::memberships(alloc, &self.tables, user)?)
    }

    fn load(&mut self, alloc: Global, site: &Text, page: &Text) -> Result<Option<Page>, KeepFault>
        ensures reads { Reads (page_of site.now page.now) (Some self.old.tables) (Some self.new.tables) result }
        ensures fits { IfOk result (λ found. IfSome found FitsPage) }
        ensures faults { CountsFaults self.old.faults self.new.faults result }
        ensures fails { FailsByList self.old result }
        ensures after { self.new ≡ after_call self.old }
    {
        self.count_call()?;
        Ok(lookups::page_row(alloc, &self.tables, site, page)?)
    }

    fn list(&mut self, alloc: Global, site: &Text) -> Result<List<PageHead>, KeepFault>
        ensures reads { Reads (heads_of site.now) (Some self.old.tables) (Some self.new.tables) result }
        ensures fits { IfOk result FitsHeads }
        ensures faults { CountsFaults self.old.faults self.new.faults result }
        ensures fails { FailsByList self.old result }
        ensures after { self.new ≡ after_call self.old }
    {
        self.count_call()?;
        Ok(lookups::heads(alloc, &self.tables, site)?)
    }

    fn judgements(
        &mut self,
        alloc: Global,
        site: &Text,
        page: &Text,
    ) -> Result<List<Judgement>, KeepFault>
        ensures reads { Reads (judgements_of site.now page.now) (Some self.old.tables) (Some self.new.tables) result }
        ensures faults { CountsFaults self.old.faults self.new.faults result }
        ensures fails { FailsByList self.old result }
        ensures after { self.new ≡ after_call self.old }
    {
        self.count_call()?;
        Ok(lookups::judgements(alloc, &self.tables, site, page)?)
    }

    fn outcomes(&mut self, alloc: Global, site: &Text, page: &Text) -> Result<Outcomes, KeepFault>
        ensures reads { Reads (outcomes_of site.now page.now) (Some self.old.tables) (Some self.new.tables) result }
        ensures faults { CountsFaults self.old.faults self.new.faults result }
        ensures fails { FailsByList self.old result }
        ensures after { self.new ≡ after_call self.old }
    {
        self.count_call()?;
        Ok(lookups::outcomes(alloc, &self.tables, site, page)?)
    }

    fn apply(&mut self, alloc: Global, batch: &Batch) -> Result<(), KeepFault>
        requires fits { Fits batch.now.change }
        ensures makes { Makes batch.now.change (Some self.old.tables) (Some self.new.tables) result }
        ensures faults { CountsFaults self.old.faults self.new.faults result }
        ensures fails { FailsByList self.old result }
        ensures after { self.new ≡ after_change batch.now.change self.old result }
    {
        self.count_call()?;
        edits::make(alloc, &mut self.tables, &batch.change)?;
        Ok(())
    }
}
