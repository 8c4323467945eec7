//! What the rules of an audit have in common (ACT Rules Format 1.1): verdicts with their reasons
//! and evidence, the trait `Rule` of one rule, and the trait `RuleBook` of a list of rules.
//! Start with `Rule::judge`.
#![tactic(auto)]

mod book;
mod evidence;
mod finding;
mod info;
mod last_long;
mod locality;
mod reason;
mod rule;
mod verdict;

pub use book::RuleBook;
pub use evidence::{brief, digest, laws_of_evidence, laws_of_limits};
pub use finding::Finding;
pub use info::{Class, RuleInfo, RuleNo};
pub use last_long::LastLong;
pub use locality::laws_of_reach;
pub use reason::{Reason, laws_of_words};
pub use rule::Rule;
pub use verdict::{Auto, NodeVerdict, Verdict, push_verdict};
