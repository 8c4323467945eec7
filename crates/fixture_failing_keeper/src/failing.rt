ghost use Rattle.std.specs.Prelude.{◌≡◌, true, false, IfSome, IfOk, MatchResult};
ghost use Rattle.keep_core.specs.declared.fault.KeepFault.TheVariants as keep;
ghost use Rattle.keep_core.specs.Tables.{edition_of, sites_of, site_of, memberships_of, page_of, heads_of, judgements_of, outcomes_of};
ghost use Rattle.keep_core.specs.Fits.{Fits, FitsSite, FitsPage, FitsHeads, FitNames, IsThere};
ghost use Rattle.keep_core.specs.Keeping.{Reads, Makes, CountsFaults};
ghost use Rattle.fixture_failing_keeper.specs.Failing.{Failing, all_faults, fails_next, after_failed, after_passed, FailsByList};

use counts::{is_named, next};
use judge_core::{Judgement, Outcomes};
use keep_core::{Batch, KeepFault, Keeper, Membership, Page, PageHead, Site};
use snap_tree::{List, Text};
use std::alloc::Global;
use std::marker::Model;

/// A keeper that passes each call on to another, unless a list names the call: then it counts a fault and fails.
///
/// It keeps what the other keeps, and its count of faults is that of the other and its own together, at most the
/// greatest `u64`. Calls are numbered from 1.
#[derive(Drop)]
pub struct FailingKeeper<K: Keeper> {
    inner: K,
    fails: List<u64>,
    calls: u64,
    faults: u64,
}

impl<K: Keeper> Model for FailingKeeper<K> {
    ghost use Rattle.fixture_failing_keeper.specs.Failing.{Failing, failing_code};

    ghost Value = { Failing K };

    ghost coded = { failing_code K.code };

    ghost view = { λ k. record { inner = k.inner; fails = k.fails; calls = k.calls; faults = k.faults } };
}

impl<K: Keeper> FailingKeeper<K> {
    /// A keeper over `inner`, of whose calls those fail that `fails` names. It takes no memory.
    pub fn new(inner: K, fails: List<u64>) -> Self
        ensures { result ≡ record { inner = inner; fails = fails; calls = 0; faults = 0 } }
    {
        FailingKeeper {
            inner,
            fails,
            calls: 0,
            faults: 0,
        }
    }

    /// How many calls failed because the list names them, at most the greatest `u64`.
    pub fn failed_calls(&self) -> u64
        ensures { result ≡ self.now.faults }
    {
        self.faults
    }

    // Counts a call, and fails where the list names it.
    fn count_call(&mut self) -> Result<(), KeepFault>
        ensures { MatchResult result
            (λ _. (fails_next self.old ≡ false) × (self.new ≡ after_passed self.old.inner self.old))
            (λ fault. (fault ≡ keep.Failed) × (fails_next self.old ≡ true) × (self.new ≡ after_failed self.old)) }
    {
        let fails = is_named(self.fails.as_slice(), self.calls);
        self.calls = next(self.calls);
        if fails {
            self.faults = next(self.faults);
            return Err(KeepFault::Failed);
        }
        Ok(())
    }
}

/// Each call fails where the list names it, and is the inner keeper's where it doesn't.
impl<K: Keeper> Keeper for FailingKeeper<K> {
    ghost tables = { λ k. K.tables k.inner };

    ghost faults = { all_faults K.faults };

    fn edition(&mut self, alloc: Global) -> Result<u64, KeepFault>
        ensures reads { Reads edition_of (K.tables self.old.inner) (K.tables self.new.inner) result }
        ensures faults { CountsFaults (all_faults K.faults self.old) (all_faults K.faults self.new) result }
        ensures fails { FailsByList K.faults self.old self.new result }
    {
        self.count_call()?;
        self.inner.edition(alloc)
    }

    fn sites(&mut self, alloc: Global) -> Result<List<Text>, KeepFault>
        ensures reads { Reads sites_of (K.tables self.old.inner) (K.tables self.new.inner) result }
        ensures fits { IfOk result FitNames }
        ensures faults { CountsFaults (all_faults K.faults self.old) (all_faults K.faults self.new) result }
        ensures fails { FailsByList K.faults self.old self.new result }
    {
        self.count_call()?;
        self.inner.sites(alloc)
    }

    fn site(&mut self, alloc: Global, site: &Text) -> Result<Option<Site>, KeepFault>
        ensures reads { Reads (site_of site.now) (K.tables self.old.inner) (K.tables self.new.inner) result }
        ensures fits { IfOk result (λ found. IfSome found FitsSite) }
        ensures faults { CountsFaults (all_faults K.faults self.old) (all_faults K.faults self.new) result }
        ensures fails { FailsByList K.faults self.old self.new result }
    {
        self.count_call()?;
        self.inner.site(alloc, site)
    }

    fn memberships(&mut self, alloc: Global, user: &Text) -> Result<List<Membership>, KeepFault>
        ensures reads { Reads (memberships_of user.now) (K.tables self.old.inner) (K.tables self.new.inner) result }
        ensures faults { CountsFaults (all_faults K.faults self.old) (all_faults K.faults self.new) result }
        ensures fails { FailsByList K.faults self.old self.new result }
    {
        self.count_call()?;
        self.inner.memberships(alloc, user)
    }

    fn load(&mut self, alloc: Global, site: &Text, page: &Text) -> Result<Option<Page>, KeepFault>
        ensures reads { Reads (page_of site.now page.now) (K.tables self.old.inner) (K.tables self.new.inner) result }
        ensures fits { IfOk result (λ found. IfSome found FitsPage) }
        ensures faults { CountsFaults (all_faults K.faults self.old) (all_faults K.faults self.new) result }
        ensures fails { FailsByList K.faults self.old self.new result }
    {
        self.count_call()?;
        self.inner.load(alloc, site, page)
    }

    fn list(&mut self, alloc: Global, site: &Text) -> Result<List<PageHead>, KeepFault>
        ensures reads { Reads (heads_of site.now) (K.tables self.old.inner) (K.tables self.new.inner) result }
        ensures fits { IfOk result FitsHeads }
        ensures faults { CountsFaults (all_faults K.faults self.old) (all_faults K.faults self.new) result }
        ensures fails { FailsByList K.faults self.old self.new result }
    {
        self.count_call()?;
        self.inner.list(alloc, site)
    }

    fn judgements(
        &mut self,
        alloc: Global,
        site: &Text,
        page: &Text,
    ) -> Result<List<Judgement>, KeepFault>
        ensures reads { Reads (judgements_of site.now page.now) (K.tables self.old.inner) (K.tables self.new.inner) result }
        ensures faults { CountsFaults (all_faults K.faults self.old) (all_faults K.faults self.new) result }
        ensures fails { FailsByList K.faults self.old self.new result }
    {
        self.count_call()?;
        self.inner.judgements(alloc, site, page)
    }

    fn outcomes(&mut self, alloc: Global, site: &Text, page: &Text) -> Result<Outcomes, KeepFault>
        ensures reads { Reads (outcomes_of site.now page.now) (K.tables self.old.inner) (K.tables self.new.inner) result }
        ensures faults { CountsFaults (all_faults K.faults self.old) (all_faults K.faults self.new) result }
        ensures fails { FailsByList K.faults self.old self.new result }
    {
        self.count_call()?;
        self.inner.outcomes(alloc, site, page)
    }

    fn apply(&mut self, alloc: Global, batch: &Batch) -> Result<(), KeepFault>
        requires fits { Fits batch.now.change }
        requires there { IfSome (K.tables self.old.inner) (IsThere batch.now.change) }
        ensures makes { Makes batch.now.change (K.tables self.old.inner) (K.tables self.new.inner) result }
        ensures faults { CountsFaults (all_faults K.faults self.old) (all_faults K.faults self.new) result }
        ensures fails { FailsByList K.faults self.old self.new result }
    {
        self.count_call()?;
        self.inner.apply(alloc, batch)
    }
}
