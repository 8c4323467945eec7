ghost use Rattle.std.specs.Prelude.{◌≡◌, IsTrue};
ghost use Rattle.rule_core.specs.declared.info.Class.TheVariants.{SelfOnly};
ghost use Rattle.rule_core.specs.Infos.{is_orderly};

use judge_core::{OutRow, Outcomes};
use keep_core::{PageHead, SitePage};
use reports::{Criterion, Result4, criteria, csv_rows, earl, site_report};
use rule_core::{Auto, Class, Reason, RuleInfo, RuleNo};
use snap_tree::{List, NodeId, OutOfMemory, Text};
use std::alloc::Global;
use std::process::Abort;
use std::test::Fail;

// A rule, a node, the automatic outcome with its reason, the final outcome and who judged.
type Row = (u16, u32, Auto, Reason, Auto, &'static str);

// The rules of the book, by their ids in the order of their numbers.
static IDS: [&[u8; 6]; 30] = [
    b"2779a5", b"c4a8a4", b"b5c3f8", b"bf051a", b"de46e4", b"b4f0c3", b"bc659a", b"97a4e1",
    b"c487ae", b"23a2a8", b"59796f", b"e086e5", b"cae760", b"ffd0e9", b"7d6734", b"b49b2e",
    b"73f2c2", b"674b10", b"5f99a7", b"6a7281", b"4e8ab6", b"bc4a75", b"6cfa84", b"a25f45",
    b"d0f69e", b"047fe0", b"b40fd1", b"ye5d6e", b"3e12e1", b"cf77f2",
];

// A page with a title and a language.
static TITLED: [Row; 4] = [
    (1, 1, Auto::Passed, Reason::Met, Auto::Passed, ""),
    (2, 1, Auto::CantTell, Reason::JudgeTitle, Auto::CantTell, ""),
    (3, 1, Auto::Passed, Reason::Met, Auto::Passed, ""),
    (4, 1, Auto::Passed, Reason::Met, Auto::Passed, ""),
];

// The info of a rule with these inputs.
fn info(no: u16, id: &[u8; 6], inputs: [u16; 4]) -> RuleInfo
    ensures { result ≡ record { no = record { 0 = no }; id = id.now; applies = SelfOnly; expects = SelfOnly; inputs = inputs } }
{
    RuleInfo {
        no: RuleNo(no),
        id: *id,
        applies: Class::SelfOnly,
        expects: Class::SelfOnly,
        inputs,
    }
}

// The infos of all rules.
fn infos(alloc: Global) -> Result<Vec<RuleInfo>, OutOfMemory> {
    let mut infos = Vec::new(alloc);
    let mut no: u16 = 0;
    for id in IDS.as_slice() {
        no = no.saturating_add(1);
        infos.push(info(no, id, [0; 4]))?;
    }
    Ok(infos)
}

fn out_row(alloc: Global, row: &Row) -> Result<OutRow, OutOfMemory> {
    let (rule, node, auto, reason, last, hand) = *row;
    let hand = Text::from_str(alloc, hand)?;
    Ok(OutRow {
        rule: RuleNo(rule),
        node: NodeId(node),
        auto,
        reason,
        evidence: Text::new(alloc),
        last,
        hand,
    })
}

fn page(alloc: Global, name: &str, rev: u64, rows: &[Row]) -> Result<SitePage, OutOfMemory> {
    let mut outcomes = Vec::new(alloc);
    for row in rows {
        outcomes.push(out_row(alloc, row)?)?;
    }
    let head = PageHead {
        page: Text::from_str(alloc, name)?,
        rev,
        hand: Text::new(alloc),
    };
    Ok(SitePage {
        head,
        address: Text::from_str(alloc, "https://example.org/")?,
        outcomes: Outcomes {
            rows: List::from_vec(outcomes),
        },
    })
}

static SITE_REPORT: &str = "site acme
page home rev 1 passed 3 failed 0 cantTell 1 inapplicable 26
criterion 1.1.1 A inapplicable
criterion 1.3.1 A inapplicable
criterion 1.3.5 AA inapplicable
criterion 1.4.4 AA inapplicable
criterion 2.2.1 A inapplicable
criterion 2.4.1 A inapplicable
criterion 2.4.2 A cantTell
criterion 2.4.4 A inapplicable
criterion 2.4.6 AA inapplicable
criterion 3.1.1 A noFailureFound
criterion 3.1.2 AA inapplicable
criterion 4.1.2 A inapplicable
total pages 1 passed 3 failed 0 cantTell 1 inapplicable 26
";

#[test]
fn a_site_of_one_page_is_reported(rt: HostRuntime) -> Result<(), Fail> {
    let alloc = rt.alloc();
    let pages = [page(alloc, "home", 1, TITLED.as_slice())?];
    let infos = infos(alloc)?;
    let site = Text::from_str(alloc, "acme")?;
    let report = site_report(alloc, &site, infos.as_slice(), pages.as_slice())?;
    assert_eq!(rt; report.as_slice(), SITE_REPORT.as_bytes());
    Ok(())
}

// One row of each kind, and judges with what has to stand in quotes; `tools/read-reports --quoted` reads the same records as
// other programs do. The last row is of no rule.
static RECORDED: [Row; 5] = [
    (1, 1, Auto::Passed, Reason::Met, Auto::Passed, ""),
    (14, 9, Auto::Failed, Reason::NoName, Auto::Failed, ""),
    (
        16,
        7,
        Auto::CantTell,
        Reason::JudgeHeading,
        Auto::Failed,
        "Zo\u{eb}, \"the judge\"",
    ),
    (
        30,
        1,
        Auto::CantTell,
        Reason::Merged,
        Auto::Passed,
        "\u{416}\r\n\u{540d}\u{524d}",
    ),
    (41, 1, Auto::Failed, Reason::NoName, Auto::Failed, ""),
];

// (the name and the form are what `tools/read-reports` looks for)
static CSV: &str = "site,page,rev,node,rule,outcome,automatic,reason,judge
acme,home,1,1,2779a5,passed,passed,ok,
acme,home,1,9,ffd0e9,failed,failed,no-name,
acme,home,1,7,b49b2e,failed,cantTell,judge-heading,\"Zo\u{eb}, \"\"the judge\"\"\"
acme,home,1,1,cf77f2,passed,cantTell,merged,\"\u{416}\r\n\u{540d}\u{524d}\"
";

#[test]
fn outcomes_are_records_under_a_header(rt: HostRuntime) -> Result<(), Fail> {
    let alloc = rt.alloc();
    let site = Text::from_str(alloc, "acme")?;
    let pages = [page(alloc, "home", 1, RECORDED.as_slice())?];
    let infos = infos(alloc)?;
    let text = csv_rows(alloc, &site, infos.as_slice(), pages.as_slice())?;
    assert_eq!(rt; text.as_slice(), CSV.as_bytes());
    Ok(())
}

static FRONT: &str = "{\"@context\":{\"earl\":\"http://www.w3.org/ns/earl#\"},\"@graph\":[";

// Who judged, how, the info, the outcome, the pointer and the rule of each assertion.
static ASSERTED: [(&str, &str, &str, &str, &str, &str); 7] = [
    ("", "automatic", "ok", "passed", "node 1", "2779a5"),
    (
        "bob",
        "manual",
        "judge-heading",
        "failed",
        "node 7",
        "b49b2e",
    ),
    (
        "bob",
        "manual",
        "judge-heading-start",
        "passed",
        "node 1",
        "047fe0",
    ),
    (
        "",
        "automatic",
        "inapplicable",
        "inapplicable",
        "",
        "b40fd1",
    ),
    (
        "",
        "automatic",
        "inapplicable",
        "inapplicable",
        "",
        "ye5d6e",
    ),
    (
        "",
        "automatic",
        "inapplicable",
        "inapplicable",
        "",
        "3e12e1",
    ),
    ("", "semiAuto", "merged", "passed", "node 1", "cf77f2"),
];

// The rows of the page that is asserted.
static ASSERTED_ROWS: [Row; 4] = [
    (1, 1, Auto::Passed, Reason::Met, Auto::Passed, ""),
    (
        16,
        7,
        Auto::CantTell,
        Reason::JudgeHeading,
        Auto::Failed,
        "bob",
    ),
    (
        26,
        1,
        Auto::CantTell,
        Reason::JudgeHeadingStart,
        Auto::Passed,
        "bob",
    ),
    (30, 1, Auto::CantTell, Reason::Merged, Auto::Passed, ""),
];

// The rules that assert.
fn book() -> [RuleInfo; 7]
    ensures { IsTrue (is_orderly result) }
{
    [
        info(1, b"2779a5", [0; 4]),
        info(16, b"b49b2e", [0; 4]),
        info(26, b"047fe0", [0; 4]),
        info(27, b"b40fd1", [0; 4]),
        info(28, b"ye5d6e", [0; 4]),
        info(29, b"3e12e1", [0; 4]),
        info(30, b"cf77f2", [26, 27, 28, 29]),
    ]
}

fn asserter(alloc: Global, hand: &str) -> Result<String, OutOfMemory> {
    if hand.is_empty() {
        return Ok(String::from_str(
            alloc,
            "{\"@id\":\"urn:act-desk:software\",\"@type\":\"earl:Software\"}",
        )?);
    }
    Ok(format!(in alloc; "{{\"@id\":\"urn:act-desk:user:{hand}\"}}")?)
}

fn pointer(alloc: Global, pointer: &str) -> Result<String, OutOfMemory> {
    if pointer.is_empty() {
        return Ok(String::new(alloc));
    }
    Ok(format!(in alloc; ",\"earl:pointer\":\"{pointer}\"")?)
}

// Adds who asserts how.
fn push_front(
    alloc: Global,
    text: &mut String,
    separator: &str,
    hand: &str,
    how: &str,
) -> Result<(), OutOfMemory> {
    let by = asserter(alloc, hand)?;
    let by = by.as_str();
    let front = format!(in alloc;
        "{separator}{{\"@type\":\"earl:Assertion\",\"earl:assertedBy\":{by},\"earl:mode\":{{\"@id\":\"earl:{how}\"}},"
    )?;
    text.push_str(front.as_str())?;
    Ok(())
}

// Adds the outcome with its info and pointer.
fn push_result(
    alloc: Global,
    text: &mut String,
    info: &str,
    outcome: &str,
    at: &str,
) -> Result<(), OutOfMemory> {
    let at = pointer(alloc, at)?;
    let at = at.as_str();
    let result = format!(in alloc;
        "\"earl:result\":{{\"@type\":\"earl:TestResult\",\"earl:info\":\"{info}\",\"earl:outcome\":{{\"@id\":\"earl:{outcome}\"}}{at}}},"
    )?;
    text.push_str(result.as_str())?;
    Ok(())
}

// Adds what is asserted of which rule.
fn push_about(alloc: Global, text: &mut String, rule: &str) -> Result<(), OutOfMemory> {
    let about = format!(in alloc;
        "\"earl:subject\":{{\"@id\":\"https://example.org/\",\"@type\":\"earl:TestSubject\"}},\"earl:test\":{{\"@id\":\"urn:act-rule:{rule}\",\"@type\":\"earl:TestCase\"}}}}"
    )?;
    text.push_str(about.as_str())?;
    Ok(())
}

fn asserted(alloc: Global) -> Result<String, OutOfMemory> {
    let mut text = String::from_str(alloc, FRONT)?;
    let mut separator = "";
    for (hand, how, info, outcome, at, rule) in ASSERTED.as_slice() {
        push_front(alloc, &mut text, separator, hand, how)?;
        push_result(alloc, &mut text, info, outcome, at)?;
        push_about(alloc, &mut text, rule)?;
        separator = ",";
    }
    text.push_str("]}")?;
    Ok(text)
}

#[test]
fn each_way_of_asserting_has_its_assertion(rt: HostRuntime) -> Result<(), Fail> {
    let alloc = rt.alloc();
    let pages = [page(alloc, "home", 1, ASSERTED_ROWS.as_slice())?];
    let book = book();
    let text = earl(alloc, book.as_slice(), pages.as_slice())?;
    let expected = asserted(alloc)?;
    assert_eq!(rt; text.as_slice(), expected.as_bytes());
    Ok(())
}

// What the pages come to under a criterion.
static RESULTS: [(Criterion, Result4); 6] = [
    (Criterion::PageTitled, Result4::CantTell),
    (Criterion::InfoAndRelationships, Result4::Failed),
    (Criterion::HeadingsAndLabels, Result4::Failed),
    (Criterion::LanguageOfPage, Result4::NoFailureFound),
    (Criterion::BypassBlocks, Result4::NoFailureFound),
    (Criterion::NonTextContent, Result4::Inapplicable),
];

fn come_to_them(pages: &[SitePage]) -> bool {
    for (criterion, wanted) in RESULTS.as_slice() {
        if criteria(pages, *criterion) != *wanted {
            return false;
        }
    }
    true
}

#[test]
fn a_criterion_is_as_bad_as_its_worst_outcome(rt: HostRuntime) -> Result<(), Fail> {
    let alloc = rt.alloc();
    let pages = [
        page(alloc, "a", 1, TITLED.as_slice())?,
        page(alloc, "b", 2, RECORDED.as_slice())?,
    ];
    assert!(rt; come_to_them(pages.as_slice()));
    Ok(())
}
