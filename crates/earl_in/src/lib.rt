//! Judgements from other tools, as EARL 1.0 in JSON-LD: which entries are claims, and what taking them on a page comes to.
//!
//! ```json
//! {"@graph":[{"earl:subject":"https://example.org/","earl:test":"urn:act-rule:b49b2e","earl:mode":"earl:manual",
//!  "earl:result":{"earl:outcome":"earl:passed","earl:pointer":"node 7","earl:info":"64 digits of the evidence, and a note"}}]}
//! ```
//!
//! Start with [`read_earl`], which reads the entries one by one: what an entry has to have is one definition, `claim_of` of
//! `specs/Entries.antt`. [`take_claims`] adds what a page's outcomes leave to a person, where the digest is that of their
//! evidence; `specs/Taking.antt` has that as a fold over the entries.
#![tactic(auto)]

mod claim;
mod entry;
mod laws;
mod lent;
mod limits;
mod places;
mod reading;
mod taking;
mod words;

pub use claim::{Claim, EarlFault};
pub use laws::{laws_of_reading, laws_of_taking, laws_of_taking_again};
pub use limits::{MOST_CLAIMS, MOST_NOTE, laws_of_limits};
pub use reading::read_earl;
pub use taking::{Taken, take_claims};
