use judge_core::{OutRow, Outcomes};
use reports::{Sums, summary_line, text_report};
use rule_core::{Auto, Class, Reason, RuleInfo, RuleNo};
use snap_tree::{List, NodeId, OutOfMemory, Text};
use std::alloc::Global;
use std::test::Fail;

// A node, its final outcome, and who judged it.
static ROWS: [(u32, Auto, &str); 4] = [
    (7, Auto::Passed, ""),
    (8, Auto::Failed, ""),
    (9, Auto::CantTell, ""),
    (10, Auto::Passed, "bob"),
];

static REPORT: &str = "page https://example.org/
b49b2e node 7 passed judge-heading
b49b2e node 8 failed judge-heading
b49b2e node 9 cantTell judge-heading
b49b2e node 10 passed judged by bob
2779a5 inapplicable
passed 2 failed 1 cantTell 1 inapplicable 1
";

fn row(alloc: Global, node: u32, last: Auto, hand: &str) -> Result<OutRow, OutOfMemory> {
    Ok(OutRow {
        rule: RuleNo(16),
        node: NodeId(node),
        auto: Auto::CantTell,
        reason: Reason::JudgeHeading,
        evidence: Text::new(alloc),
        last,
        hand: Text::from_str(alloc, hand)?,
    })
}

fn outcomes(alloc: Global) -> Result<Outcomes, OutOfMemory> {
    let mut rows = Vec::new(alloc);
    for (node, last, hand) in ROWS.as_slice() {
        rows.push(row(alloc, *node, *last, hand)?)?;
    }
    Ok(Outcomes {
        rows: List::from_vec(rows),
    })
}

#[test]
fn a_row_tells_its_reason_or_its_judge(rt: HostRuntime) -> Result<(), Fail> {
    let alloc = rt.alloc();
    let infos = [
        RuleInfo::atomic(16, b"b49b2e", Class::Sub, Class::Sub),
        RuleInfo::atomic(1, b"2779a5", Class::SelfOnly, Class::Whole),
    ];
    let address = Text::from_str(alloc, "https://example.org/")?;
    let report = text_report(alloc, &address, infos.as_slice(), &outcomes(alloc)?)?;
    assert_eq!(rt; report.as_slice(), REPORT.as_bytes());
    Ok(())
}

#[test]
fn a_summary_is_one_line(rt: HostRuntime) -> Result<(), Fail> {
    let one = Sums {
        passed: 700,
        failed: 4,
        cant_tell: 18_446_744_073_709_551_615,
        inapplicable: 14,
    };
    let other = Sums {
        passed: 4,
        failed: 100,
        cant_tell: 1,
        inapplicable: 1,
    };
    let line = summary_line(rt.alloc(), 2, 3_817, Sums::none().and(one).and(other))?;
    let wanted =
        "pages 2 nodes 3817 passed 704 failed 104 cantTell 18446744073709551615 inapplicable 15\n";
    assert_eq!(rt; line.as_str(), wanted);
    Ok(())
}
