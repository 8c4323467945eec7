ghost use Rattle.std.specs.Prelude.{◌≡◌, ℕ, Option, IfSome, IfOk};
ghost use Rattle.keep_core.specs.declared.tables.Tables.{Tables};
ghost use Rattle.keep_core.specs.Tables.{edition_of, sites_of, site_of, memberships_of, page_of, heads_of, judgements_of, outcomes_of};
ghost use Rattle.keep_core.specs.Fits.{Fits, FitsSite, FitsPage, FitsHeads, FitNames, IsThere};
ghost use Rattle.keep_core.specs.Keeping.{Reads, Makes, CountsFaults};

use crate::change::Batch;
use crate::fault::KeepFault;
use crate::member::Membership;
use crate::page::{Page, PageHead};
use crate::site::Site;
use judge_core::{Judgement, Outcomes};
use snap_tree::{List, Text};
use std::alloc::Global;

/// What keeps sites, pages, judgements and outcomes, and the edition of the rules by which outcomes were found.
///
/// Its count of faults never falls, and a call answers `Failed` only where the count rose in that call. Where
/// it tells its tables, each answer is what the tables say; they change by `apply` alone. Whether it
/// tells them or not, every row that it answers fits.
pub trait Keeper {
    /// The tables, where it tells them. What is told after a call follows from what was told before it.
    ghost tables: { Self → Option Tables };

    /// The count of its faults.
    ghost faults: { Self → ℕ };

    /// The edition that is kept.
    fn edition(&mut self, alloc: Global) -> Result<u64, KeepFault>
        ensures reads { Reads edition_of (tables self.old) (tables self.new) result }
        ensures faults { CountsFaults (faults self.old) (faults self.new) result };

    /// The names of all sites, in byte order.
    fn sites(&mut self, alloc: Global) -> Result<List<Text>, KeepFault>
        ensures reads { Reads sites_of (tables self.old) (tables self.new) result }
        ensures fits { IfOk result FitNames }
        ensures faults { CountsFaults (faults self.old) (faults self.new) result };

    /// The row of a site; None exactly where there is none.
    fn site(&mut self, alloc: Global, site: &Text) -> Result<Option<Site>, KeepFault>
        ensures reads { Reads (site_of site.now) (tables self.old) (tables self.new) result }
        ensures fits { IfOk result (λ found. IfSome found FitsSite) }
        ensures faults { CountsFaults (faults self.old) (faults self.new) result };

    /// The sites of which a user is a member, with the role in each, in byte order of their names.
    fn memberships(&mut self, alloc: Global, user: &Text) -> Result<List<Membership>, KeepFault>
        ensures reads { Reads (memberships_of user.now) (tables self.old) (tables self.new) result }
        ensures faults { CountsFaults (faults self.old) (faults self.new) result };

    /// A page of a site; None exactly where there is none.
    fn load(&mut self, alloc: Global, site: &Text, page: &Text) -> Result<Option<Page>, KeepFault>
        ensures reads { Reads (page_of site.now page.now) (tables self.old) (tables self.new) result }
        ensures fits { IfOk result (λ found. IfSome found FitsPage) }
        ensures faults { CountsFaults (faults self.old) (faults self.new) result };

    /// The heads of a site's pages, in byte order of their names; none for a strange site.
    fn list(&mut self, alloc: Global, site: &Text) -> Result<List<PageHead>, KeepFault>
        ensures reads { Reads (heads_of site.now) (tables self.old) (tables self.new) result }
        ensures fits { IfOk result FitsHeads }
        ensures faults { CountsFaults (faults self.old) (faults self.new) result };

    /// The judgements of a page in order of acceptance; none for a strange page.
    fn judgements(
        &mut self,
        alloc: Global,
        site: &Text,
        page: &Text,
    ) -> Result<List<Judgement>, KeepFault>
        ensures reads { Reads (judgements_of site.now page.now) (tables self.old) (tables self.new) result }
        ensures faults { CountsFaults (faults self.old) (faults self.new) result };

    /// The outcomes of a page; none for a strange page.
    fn outcomes(&mut self, alloc: Global, site: &Text, page: &Text) -> Result<Outcomes, KeepFault>
        ensures reads { Reads (outcomes_of site.now page.now) (tables self.old) (tables self.new) result }
        ensures faults { CountsFaults (faults self.old) (faults self.new) result };

    /// Makes the change of a batch as one, which fits. After an error nothing is changed.
    fn apply(&mut self, alloc: Global, batch: &Batch) -> Result<(), KeepFault>
        requires fits { Fits batch.now.change }
        requires there { IfSome (tables self.old) (IsThere batch.now.change) }
        ensures makes { Makes batch.now.change (tables self.old) (tables self.new) result }
        ensures faults { CountsFaults (faults self.old) (faults self.new) result };
}
