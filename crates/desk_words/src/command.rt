ghost use Rattle.std.specs.Prelude.{◌≡◌};
ghost use Rattle.desk_words.specs.Words.{form_word};

use texts::Text;

/// The most connections that one `serve` takes.
pub const MOST_CONNECTIONS: u64 = 1_000_000;

/// The greatest number from which `generate` makes pages.
pub const MOST_NUMBER: u64 = 1_000_000;

/// The most pages that one `generate` makes.
pub const MOST_MADE: u64 = 64;

/// The numbers of the limits. It does nothing: the clauses are what it is for.
pub fn laws_of_limits()
    ensures connections { MOST_CONNECTIONS ≡ 1_000_000 }
    ensures number { MOST_NUMBER ≡ 1_000_000 }
    ensures made { MOST_MADE ≡ 64 }
{}

/// What the program can do.
#[derive(Debug, PartialEq, Eq, Drop)]
pub enum ProgramCommand {
    /// Reads one snapshot to its end, judges it, and writes its text report. Its words are `audit` alone.
    Audit,
    /// Serves connections over HTTP. Its words are `serve --port N --workers W --connections C`, with the
    /// options in any order, as `--port N` or `--port=N`.
    Serve(Serving),
    /// Makes pages, audits them with all books, and writes one line of what they come to. Its words are
    /// `generate N P`.
    Generate(Generating),
    /// Reads a list of test cases to its end, audits their pages with all books, and writes a table of how the outcomes
    /// compare with the expected ones. Its words are `cases` alone.
    Cases,
    /// Writes what is kept of a site. Its words are `report S`, `earl S` or `csv S`.
    Show(Showing),
}

/// What a `serve` is told. The numbers are decimal, and each may have a sign `+` and zeros before it.
#[derive(Clone, Copy, Debug, PartialEq, Eq)]
pub struct Serving {
    /// The port to listen at, from 0 to 65,535. At 0 the system chooses a free one.
    pub port: u16,
    /// How many books judge, 1 or more.
    pub workers: u64,
    /// How many connections are served, from 1 to 1,000,000.
    pub connections: u64,
}

/// What a `generate` is told, in numbers like those of a `serve`.
#[derive(Clone, Copy, Debug, PartialEq, Eq)]
pub struct Generating {
    /// The number that says what the pages are, from 0 to 1,000,000.
    pub number: u32,
    /// How many pages are made, from 1 to 64.
    pub pages: u32,
}

/// In what form a site is shown.
#[derive(Clone, Copy, Debug, PartialEq, Eq)]
pub enum SiteForm {
    /// Its report by success criterion.
    Report,
    /// EARL in JSON-LD.
    Earl,
    Csv,
}

impl SiteForm {
    /// The word of the command that shows a site so.
    pub fn word(self) -> &'static str
        ensures { result.now ≡ form_word self }
    {
        match self {
            SiteForm::Report => "report",
            SiteForm::Earl => "earl",
            SiteForm::Csv => "csv",
        }
    }
}

/// Which site is shown, and how.
#[derive(Debug, PartialEq, Eq, Drop)]
pub struct Showing {
    pub form: SiteForm,
    /// The name that was given, which no site need have.
    pub site: Text,
}
