//! The tables that the stored rows of a store tell: what the desk keeps, or nothing where a row doesn't read.
//!
//! Each of the seven tables has a file here and one in `specs/`: how a row of it is written, and how it is read. What their
//! values are stands in `specs/Cells.antt`. `tables_in` of `specs/Told.antt` says what all rows tell. [`laws_of_reading`]
//! has what the reading texts of a store show of the tables; the calls from [`read_site`] on read it. [`laws_of_changes`] has what changes of the rows make of the tables, for which [`see_numbers`] reads a change.
#![tactic(auto)]

mod cells;
mod editions;
mod fault;
mod judgements;
mod languages;
mod laws;
mod members;
mod memo;
mod numbers;
mod outcomes;
mod pages;
mod sites;

pub use cells::column_number;
pub use editions::{read_edition, read_kept_edition};
pub use fault::StoreFault;
pub use judgements::{judgement_row, read_judgements};
pub use languages::read_languages;
pub use laws::{laws_of_changes, laws_of_reading};
pub use members::{read_members, read_memberships, role_number};
pub use memo::Memo;
pub use numbers::see_numbers;
pub use outcomes::{outcome_row, read_outcomes};
pub use pages::{PageValues, page_values, read_heads, read_page};
pub use sites::{read_names, read_site};
