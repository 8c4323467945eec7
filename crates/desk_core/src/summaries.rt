ghost use Rattle.std.specs.Prelude.{◌≡◌};
ghost use Rattle.rule_core.specs.declared.verdict.Auto.{Auto};
ghost use Rattle.judge_core.specs.Composites.{is_passed, is_open};
ghost use Rattle.desk_core.specs.Summaries.{told, ended, is_failed, has_rows, idle, summary};

use crate::reply::Summary;
use judge_core::OutRow;
use rule_core::{Auto, RuleInfo};

/// What the outcomes of a page come to by the rules of a book.
pub fn summary_of(infos: &[RuleInfo], rows: &[OutRow]) -> Summary
    ensures { result ≡ summary infos.now rows.now }
{
    Summary {
        passed: told(passed(rows)),
        failed: told(failed(rows)),
        cant_tell: told(open(rows)),
        inapplicable: told(idle(infos, rows)),
    }
}

/// A count stands still at the greatest u32.
pub fn told(count: usize) -> u32
    ensures { result ≡ told count }
{
    u32::try_from(count).unwrap_or(u32::MAX)
}

fn passed(rows: &[OutRow]) -> usize
    ensures { result ≡ ended is_passed rows.now }
{
    rows.iter()
        .filter(|row| matches!(row.last, Auto::Passed))
        .count()
}

fn failed(rows: &[OutRow]) -> usize
    ensures { result ≡ ended is_failed rows.now }
{
    rows.iter()
        .filter(|row| matches!(row.last, Auto::Failed))
        .count()
}

fn open(rows: &[OutRow]) -> usize
    ensures { result ≡ ended is_open rows.now }
{
    rows.iter()
        .filter(|row| matches!(row.last, Auto::CantTell))
        .count()
}

fn has_rows(rows: &[OutRow], info: &RuleInfo) -> bool
    ensures { result ≡ has_rows rows.now info.now }
{
    rows.iter().any(|row| row.rule.0 == info.no.0)
}

// The rules without a row.
fn idle(infos: &[RuleInfo], rows: &[OutRow]) -> usize
    ensures { result ≡ idle infos.now rows.now }
{
    infos.iter().filter(|info| !has_rows(rows, info)).count()
}
