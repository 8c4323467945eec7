//! The outcomes of a page that were read last.

ghost use Rattle.std.specs.Prelude.{◌≡◌, Some, IfOk, IfSome, IsTrue};

use judge_core::Outcomes;
use snap_tree::Text;
use std::alloc::Global;
use store_tables::StoreFault;

/// The outcomes of a page, with the names of its site and of itself.
#[derive(Drop)]
pub struct Known {
    site: Text,
    page: Text,
    outcomes: Outcomes,
}

impl Known {
    /// A copy of the outcomes of a page; None where memory is wanting.
    pub fn of(alloc: Global, site: &Text, page: &Text, outcomes: &Outcomes) -> Option<Self>
        ensures { IfSome result (λ known. known ≡ record { site = site.now; page = page.now; outcomes = outcomes.now }) }
    {
        match copied(alloc, site, page, outcomes) {
            Ok(known) => Some(known),
            Err(_) => None,
        }
    }

    fn is_of(&self, site: &Text, page: &Text) -> bool
        ensures { IsTrue result → (self.now.site ≡ site.now) × (self.now.page ≡ page.now) }
    {
        self.site == *site && self.page == *page
    }
}

fn copied(alloc: Global, site: &Text, page: &Text, outcomes: &Outcomes) -> Result<Known, StoreFault>
    ensures { IfOk result (λ known. known ≡ record { site = site.now; page = page.now; outcomes = outcomes.now }) }
{
    let site = site.copy(alloc)?;
    let page = page.copy(alloc)?;
    let outcomes = outcomes.copy(alloc)?;
    Ok(Known {
        site,
        page,
        outcomes,
    })
}

/// The outcomes of a page, where they are those that are known.
pub fn known_of(known: Option<Known>, site: &Text, page: &Text) -> Option<Outcomes>
    ensures { IfSome result (λ outcomes. known ≡ Some (record { site = site.now; page = page.now; outcomes = outcomes })) }
{
    match known {
        Some(known) if known.is_of(site, page) => Some(known.outcomes),
        _ => None,
    }
}
