ghost use Rattle.std.specs.Prelude.{◌≡◌};
ghost use Rattle.reports.specs.Terms.{text_of};

/// A word of JSON-LD or of EARL 1.0, or a name of the desk's own, that stands in a report.
#[derive(Clone, Copy, Debug, PartialEq, Eq)]
pub enum Term {
    AtId,
    AtType,
    AtContext,
    AtGraph,
    Earl,
    Namespace,
    Assertion,
    AssertedBy,
    Desk,
    Software,
    Mode,
    Automatic,
    Manual,
    SemiAuto,
    Result,
    TestResult,
    Info,
    NoTarget,
    Outcome,
    Passed,
    Failed,
    CantTell,
    Inapplicable,
    Pointer,
    Subject,
    TestSubject,
    Test,
    TestCase,
}

impl Term {
    /// How it is written.
    #[tactic(auto, unfolding(crate::specs::Terms::text_of))]
    pub fn text(self) -> &'static str
        ensures { result.now ≡ text_of self }
    {
        match self {
            Term::AtId => "@id",
            Term::AtType => "@type",
            Term::AtContext => "@context",
            Term::AtGraph => "@graph",
            Term::Earl => "earl",
            Term::Namespace => "http://www.w3.org/ns/earl#",
            Term::Assertion => "earl:Assertion",
            Term::AssertedBy => "earl:assertedBy",
            Term::Desk => "urn:act-desk:software",
            Term::Software => "earl:Software",
            Term::Mode => "earl:mode",
            Term::Automatic => "earl:automatic",
            Term::Manual => "earl:manual",
            Term::SemiAuto => "earl:semiAuto",
            Term::Result => "earl:result",
            Term::TestResult => "earl:TestResult",
            Term::Info => "earl:info",
            Term::NoTarget => "inapplicable",
            Term::Outcome => "earl:outcome",
            Term::Passed => "earl:passed",
            Term::Failed => "earl:failed",
            Term::CantTell => "earl:cantTell",
            Term::Inapplicable => "earl:inapplicable",
            Term::Pointer => "earl:pointer",
            Term::Subject => "earl:subject",
            Term::TestSubject => "earl:TestSubject",
            Term::Test => "earl:test",
            Term::TestCase => "earl:TestCase",
        }
    }
}
