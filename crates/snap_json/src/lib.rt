//! Snapshots of pages as JSON.
//!
//! A snapshot is an object with the page's address, `url`, and a flat list of rows in document order,
//! `nodes`:
//!
//! ```json
//! {"url":"https://example.org/","nodes":[
//!  {"n":1,"p":null,"ns":"html","tag":"html","attrs":[["lang","en"]],"f":"rv"},
//!  {"n":2,"p":1,"text":"Hello"}]}
//! ```
//!
//! Start with [`read_snapshot`], which answers the tree that bytes are, or the first fault; which bytes
//! are a snapshot is one definition, `sent_tree` of `specs/Pages.antt`, with the members of a row in
//! `specs/Fields.antt`. [`write_snapshot`] writes a tree, and what it wrote of a tree at a web address is
//! read back, within the limits. The address is a URL of the scheme http or https by the URL Standard, and
//! is kept as that standard writes it.
//!
//! Bytes are read straight from their tokens where those are what snapshots mostly have (`straight`), and else by
//! the JSON value that they are; both read the same.
//!
//! What else is sent as JSON is read by the same words: [`json_of`] reads bytes, [`raw_of`] and [`rows_of`] a
//! snapshot and rows within a value, and [`number_of`], [`text_of`], [`lent_text`] and [`facts_of`] a member.
#![tactic(auto)]

mod fault;
mod fields;
mod limits;
mod reading;
mod rows;
mod straight;
mod tokens;
mod unread;
mod writing;

pub use fault::{Field, SnapFault};
pub use fields::{facts_of, lent_text, number_of, text_of};
pub use limits::{MOST_ADDRESS_BYTES, MOST_SNAPSHOT_BYTES, laws_of_limits};
pub use reading::{json_of, raw_of, read_kept, read_raw, read_snapshot};
pub use rows::rows_of;
pub use writing::write_snapshot;
