//! The audit of a page after an edit: what the edit doesn't reach stays as it was found, and the rest is judged. Start
//! with [`reaudit`]; [`reaudit_pages`] takes many pages, by many books. The audit of whole pages, and of a page under
//! other judgements, is handed on from the crate `audit`.
#![tactic(auto)]

mod again;
mod before;
mod by_number;
mod edited;
mod known;
mod marks;
mod nodes;
mod pages;
mod relisted;
mod same_rows;

pub use again::atomic_again;
pub use audit::{PageWork, after_judgement, audit_page, audit_pages};
pub use edited::reaudit;
pub use known::{Known, Placed, known_nodes};
pub use nodes::{Nodes, nodes_of};
pub use pages::{ReWork, reaudit_pages};
