//! The audit of pages by a book of rules (ACT Rules Format 1.1): every rule on every node, judgements
//! and composite rules included. Start with `audit_page`.
#![tactic(auto)]

mod atomic;
mod judged;
mod page;
mod pages;

pub use judged::after_judgement;
pub use page::audit_page;
pub use pages::{PageWork, audit_pages, busy, share};
