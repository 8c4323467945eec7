//! Test cases of rules (ACT Rules Format 1.1, "Test Cases"): pages, each with the outcome that is expected of a rule, and how
//! a book of rules fares with them.
//!
//! A list of cases is JSON:
//!
//! ```json
//! {"cases":[{"id":"c1","rule":"2779a5","expected":"passed","snapshot":{"url":"https://example.org/","nodes":[]}}]}
//! ```
//!
//! Start with [`read_cases`], which answers the cases that bytes are, or the first fault. [`run_cases`] audits their pages and
//! grades what it finds, and [`case_table`] writes the grades of each case, of each rule and of all.
#![tactic(auto)]

mod apart;
mod case;
mod fault;
mod going;
mod grading;
mod letting;
mod limits;
mod lines;
mod marks;
mod members;
mod reading;
mod running;
mod straight;

pub use case::{Case, Expected};
pub use fault::{CaseField, CasesFault, cases_line};
pub use going::let_go;
pub use grading::{Actual, Grade, Graded, has_wrong};
pub use limits::{MOST_CASES, MOST_CASES_BYTES, laws_of_limits};
pub use lines::case_table;
pub use reading::read_cases;
pub use running::run_cases;
