ghost use Rattle.std.specs.Prelude.{◌≡◌, [], ◌∷◌};
ghost use Rattle.reports.specs.Criteria.{number_of, level_of, rules_of, all_criteria, HasEachOnce, counts_under, criteria, level_word, result_word};
ghost use Rattle.reports.specs.Walking.{worse, result_in, told};

use judge_core::OutRow;
use keep_core::SitePage;
use rule_core::Auto;

/// A success criterion of WCAG 2.2 under which rules count.
#[derive(Clone, Copy, Debug, PartialEq, Eq, Hash)]
pub enum Criterion {
    /// 1.1.1 Non-text Content.
    NonTextContent,
    /// 1.3.1 Info and Relationships.
    InfoAndRelationships,
    /// 1.3.5 Identify Input Purpose.
    InputPurpose,
    /// 1.4.4 Resize Text.
    ResizeText,
    /// 2.2.1 Timing Adjustable.
    TimingAdjustable,
    /// 2.4.1 Bypass Blocks.
    BypassBlocks,
    /// 2.4.2 Page Titled.
    PageTitled,
    /// 2.4.4 Link Purpose (In Context).
    LinkPurpose,
    /// 2.4.6 Headings and Labels.
    HeadingsAndLabels,
    /// 3.1.1 Language of Page.
    LanguageOfPage,
    /// 3.1.2 Language of Parts.
    LanguageOfParts,
    /// 4.1.2 Name, Role, Value.
    NameRoleValue,
}

/// A level of conformance of WCAG 2.2. No rule counts under a criterion of level AAA.
#[derive(Clone, Copy, Debug, PartialEq, Eq, Hash)]
pub enum Level {
    A,
    AA,
}

/// What outcomes come to under a criterion. That no failure was found doesn't say that it is satisfied.
#[derive(Clone, Copy, Debug, PartialEq, Eq, Hash)]
pub enum Result4 {
    /// Some outcome is failed.
    Failed,
    /// None is failed, and some is cantTell.
    CantTell,
    /// There are outcomes, and all are passed.
    NoFailureFound,
    /// There is no outcome.
    Inapplicable,
}

/// The criteria in the order of their numbers.
pub const CRITERIA: [Criterion; 12] = [
    Criterion::NonTextContent,
    Criterion::InfoAndRelationships,
    Criterion::InputPurpose,
    Criterion::ResizeText,
    Criterion::TimingAdjustable,
    Criterion::BypassBlocks,
    Criterion::PageTitled,
    Criterion::LinkPurpose,
    Criterion::HeadingsAndLabels,
    Criterion::LanguageOfPage,
    Criterion::LanguageOfParts,
    Criterion::NameRoleValue,
];

/// Laws of the criteria. It does nothing: the clauses are what it is for.
///
/// The list of criteria is that of the definition, and each criterion stands once in it.
#[tactic(auto, using(crate::proofs::Listed::has_each_once))]
pub fn laws_of_criteria()
    ensures listed { CRITERIA ≡ all_criteria }
    ensures once { HasEachOnce CRITERIA }
{}

impl Criterion {
    /// Its number in WCAG 2.2.
    pub fn number(self) -> &'static str
        ensures { result.now ≡ number_of self }
    {
        match self {
            Criterion::NonTextContent => "1.1.1",
            Criterion::InfoAndRelationships => "1.3.1",
            Criterion::InputPurpose => "1.3.5",
            Criterion::ResizeText => "1.4.4",
            Criterion::TimingAdjustable => "2.2.1",
            Criterion::BypassBlocks => "2.4.1",
            Criterion::PageTitled => "2.4.2",
            Criterion::LinkPurpose => "2.4.4",
            Criterion::HeadingsAndLabels => "2.4.6",
            Criterion::LanguageOfPage => "3.1.1",
            Criterion::LanguageOfParts => "3.1.2",
            Criterion::NameRoleValue => "4.1.2",
        }
    }

    /// Its level.
    pub fn level(self) -> Level
        ensures { result ≡ level_of self }
    {
        match self {
            Criterion::InputPurpose
            | Criterion::ResizeText
            | Criterion::HeadingsAndLabels
            | Criterion::LanguageOfParts => Level::AA,
            Criterion::NonTextContent
            | Criterion::InfoAndRelationships
            | Criterion::TimingAdjustable
            | Criterion::BypassBlocks
            | Criterion::PageTitled
            | Criterion::LinkPurpose
            | Criterion::LanguageOfPage
            | Criterion::NameRoleValue => Level::A,
        }
    }

    /// The numbers of the rules that count under it.
    pub fn rules(self) -> &'static [u16]
        ensures { result.now ≡ rules_of self }
    {
        match self {
            Criterion::NonTextContent => &[10, 11, 15, 34],
            Criterion::InfoAndRelationships => &[14, 22, 24, 25, 37],
            Criterion::InputPurpose => &[17],
            Criterion::ResizeText => &[6],
            Criterion::TimingAdjustable => &[7],
            Criterion::BypassBlocks => &[30],
            Criterion::PageTitled => &[1, 2],
            Criterion::LinkPurpose => &[9],
            Criterion::HeadingsAndLabels => &[16, 33],
            Criterion::LanguageOfPage => &[3, 4, 31],
            Criterion::LanguageOfParts => &[5],
            Criterion::NameRoleValue => &[8, 9, 11, 12, 13, 18, 19, 20, 21, 23, 35, 36, 39],
        }
    }

    // Whether a row is of a rule that counts under it.
    fn counts(self, row: &OutRow) -> bool
        ensures { result ≡ counts_under self row.now }
    {
        self.rules().iter().any(|number| *number == row.rule.0)
    }
}

impl Level {
    /// Its name.
    pub fn word(self) -> &'static str
        ensures { result.now ≡ level_word self }
    {
        match self {
            Level::A => "A",
            Level::AA => "AA",
        }
    }
}

impl Result4 {
    /// The word of a report.
    pub fn word(self) -> &'static str
        ensures { result.now ≡ result_word self }
    {
        match self {
            Result4::Failed => "failed",
            Result4::CantTell => "cantTell",
            Result4::NoFailureFound => "noFailureFound",
            Result4::Inapplicable => "inapplicable",
        }
    }

    // The worse of two: failed before cantTell before no failure found before inapplicable.
    fn worse(self, other: Result4) -> Result4
        ensures { result ≡ worse self other }
    {
        match (self, other) {
            (Result4::Failed, _) | (_, Result4::Failed) => Result4::Failed,
            (Result4::CantTell, _) | (_, Result4::CantTell) => Result4::CantTell,
            (Result4::NoFailureFound, _) | (_, Result4::NoFailureFound) => Result4::NoFailureFound,
            (Result4::Inapplicable, Result4::Inapplicable) => Result4::Inapplicable,
        }
    }

    // What one outcome comes to.
    fn of(outcome: Auto) -> Result4
        ensures { result ≡ told outcome }
    {
        match outcome {
            Auto::Passed => Result4::NoFailureFound,
            Auto::Failed => Result4::Failed,
            Auto::CantTell => Result4::CantTell,
        }
    }
}

/// What the outcomes of some pages come to under a criterion: failed where some final outcome of its rules is
/// failed, else cantTell where some is, else no failure was found where there is an outcome, else
/// inapplicable. It takes no memory.
#[tactic(auto, using(crate::proofs::Worst::page_more))]
pub fn criteria(pages: &[SitePage], c: Criterion) -> Result4
    ensures { result ≡ criteria pages.now c }
{
    let mut found = Result4::Inapplicable;
    for page in pages {
        found = found.worse(on_page(page.outcomes.rows.as_slice(), c));
    }
    found
}

// What the rows of a page come to under a criterion.
#[tactic(auto, using(crate::proofs::Worst::row_more))]
fn on_page(rows: &[OutRow], c: Criterion) -> Result4
    ensures { result ≡ result_in c rows.now }
{
    let mut found = Result4::Inapplicable;
    for row in rows {
        found = with_row(found, row, c);
    }
    found
}

// What is found with a row more.
#[tactic(auto, using(crate::proofs::Worst::one_row, crate::proofs::Worst::with_none))]
fn with_row(found: Result4, row: &OutRow, c: Criterion) -> Result4
    ensures { result ≡ worse found (result_in c (row.now ∷ [])) }
{
    if c.counts(row) {
        found.worse(Result4::of(row.last))
    } else {
        found
    }
}
