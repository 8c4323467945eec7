//! The reports that people take away: of a page as text, of a site by success criterion, of a site's outcomes
//! as CSV (RFC 4180) and as EARL 1.0 in JSON-LD. Each is a function of outcomes and of the infos of the rules.
//! Start with `text_report` for a page and `site_report` for a site.
#![tactic(auto)]

mod assertions;
mod criterion;
mod graph;
mod pushing;
mod site;
mod summary;
mod sums;
mod table;
mod term;
mod text;

pub use assertions::earl;
pub use criterion::{CRITERIA, Criterion, Level, Result4, criteria, laws_of_criteria};
pub use site::site_report;
pub use summary::summary_line;
pub use sums::{MOST_SUM, Sums, laws_of_limits, page_sums};
pub use table::csv_rows;
pub use text::{is_inapplicable, is_known, is_outcome, outcome_word, text_report};
