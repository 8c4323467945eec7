ghost use Rattle.std.specs.Prelude.{◌≡◌};
ghost use Rattle.case_run.specs.Words.{expected_word, expected_named};

use rule_core::RuleNo;
use snap_tree::{Text, Tree};

/// The outcome that is expected of a rule on a page.
#[derive(Clone, Copy, Debug, PartialEq, Eq, Hash)]
pub enum Expected {
    Passed,
    Failed,
    Inapplicable,
}

/// A test case: a page, and what is expected of a rule on it.
#[derive(Drop)]
pub struct Case {
    /// Its name, which no other case of its list has.
    pub id: Text,
    pub rule: RuleNo,
    pub expected: Expected,
    pub tree: Tree,
}

impl Expected {
    /// The word of the outcome, in lower case.
    pub fn word(self) -> &'static str
        ensures { result.now ≡ expected_word self }
    {
        match self {
            Expected::Passed => "passed",
            Expected::Failed => "failed",
            Expected::Inapplicable => "inapplicable",
        }
    }

    /// The outcome of a word; None for any other word, also one in other case.
    pub fn named(word: &str) -> Option<Self>
        ensures { result ≡ expected_named word.now }
    {
        if word == "passed" {
            Some(Expected::Passed)
        } else if word == "failed" {
            Some(Expected::Failed)
        } else if word == "inapplicable" {
            Some(Expected::Inapplicable)
        } else {
            None
        }
    }
}
