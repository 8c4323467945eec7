//! The machine of the desk: one request at a time, from what is kept to what is kept after it. Start with
//! `handle`. Its commands are those on sites, members and pages: put, import, edit, judge, take, drop and get.
#![tactic(auto)]

mod arrival;
mod building;
mod built;
mod command;
mod commit;
mod decided;
mod drop_page;
mod edit_page;
mod editions;
mod enter;
mod handling;
mod import;
mod judge;
mod languages;
mod laws;
mod limits;
mod listed;
mod look;
mod members;
mod members_told;
mod memberships;
mod more_judged;
mod page_state;
mod placed;
mod put_page;
mod reads;
mod refusal;
mod renewing;
mod reply;
mod rights;
mod room;
mod sent;
mod sheets;
mod store;
mod summaries;
mod take_earl;
mod verdicts;

pub use command::{Command, Entry};
pub use decided::Decided;
pub use editions::{edition_of, refresh};
pub use handling::handle;
pub use laws::{
    laws_of_claims, laws_of_refresh, laws_of_requests, laws_of_revisions, laws_of_sites,
    laws_of_soundness, laws_of_views,
};
pub use limits::{MOST_BATCH, MOST_ENTRIES, MOST_NOTE, MOST_PAGES, laws_of_limits};
pub use page_state::PageState;
pub use refusal::{Limit, Needed, Refusal};
pub use reply::{PageVerdicts, Reply, Sheet, Stored, Summary};
