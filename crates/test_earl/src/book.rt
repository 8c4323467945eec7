//! The rules of the tests, and what their pages share.

use rule_core::{Auto, Class, RuleInfo, RuleNo};

/// The address of the page.
pub(crate) const ADDRESS: &str = "https://example.org/";

/// Who sends the claims.
pub(crate) const HAND: &str = "ann";

/// The namespace of EARL.
pub(crate) const EARL: &str = "http://www.w3.org/ns/earl#";

/// A composite rule, and two atomic ones.
pub(crate) fn infos() -> [RuleInfo; 3] {
    let composite = RuleInfo {
        no: RuleNo(1),
        id: *b"cccccc",
        applies: Class::SelfOnly,
        expects: Class::SelfOnly,
        inputs: [3, 9, 0, 0],
    };
    [
        composite,
        RuleInfo::atomic(3, b"aaaaaa", Class::SelfOnly, Class::SelfOnly),
        RuleInfo::atomic(9, b"b4b4b4", Class::SelfOnly, Class::SelfOnly),
    ]
}

/// The word of an outcome.
pub(crate) fn word(outcome: Auto) -> &'static str {
    match outcome {
        Auto::Passed => "passed",
        Auto::Failed => "failed",
        Auto::CantTell => "cantTell",
    }
}

/// The outcome of a word; cantTell for any other.
pub(crate) fn outcome(word: &str) -> Auto {
    if word == "passed" {
        Auto::Passed
    } else if word == "failed" {
        Auto::Failed
    } else {
        Auto::CantTell
    }
}
