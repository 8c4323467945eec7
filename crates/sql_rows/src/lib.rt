//! Rows of the tables of a `sqlite` store as finite maps by name: what INSERT OR REPLACE, INSERT and DELETE do to
//! them, and what SELECT with WHERE and ORDER BY shows of them, over any table whose first columns are its key.
//!
//! A table's key is texts and, as the last of its columns, a text or a number. The rows that have the same first
//! columns are a group, and in it each has a name, the letters of the next column. [`laws_of_rows`] states the laws;
//! `proofs/Writing.antt` and `proofs/Reading.antt` have them for statements in a transaction.
#![tactic(auto)]

mod laws;

pub use laws::laws_of_rows;
