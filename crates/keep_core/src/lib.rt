//! What the desk keeps: sites with their members, pages with their revisions, judgements and outcomes, and
//! the trait of what keeps them.
//!
//! Start with [`Keeper`]. Contracts see what it keeps as tables, nested by site and page, with an edition; a
//! keeper may tell them or not. [`MemoryKeeper`] keeps them in memory and always tells them.
#![tactic(auto)]

mod change;
mod copies;
mod edits;
mod fault;
mod keeper;
mod laws;
mod limits;
mod listing;
mod lookups;
mod member;
mod memory;
mod names;
mod page;
mod site;
mod tables;

pub use change::{Batch, Change};
pub use fault::KeepFault;
pub use keeper::Keeper;
pub use laws::laws_of_changes;
pub use limits::{MOST_NAME, MOST_REVISION, laws_of_limits};
pub use listing::listed;
pub use member::{Member, MemberRole, Membership, role_of};
pub use memory::MemoryKeeper;
pub use names::is_name;
pub use page::{Page, PageHead, PageOutcomes, PagePut, SitePage};
pub use site::Site;
pub use tables::{KeptPage, KeptSite, Tables};
