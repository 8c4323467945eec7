ghost use Rattle.std.specs.Prelude.{◌≡◌, ◌-◌, ◌^◌};
ghost use Rattle.reports.specs.declared.sums.TheConstants.{MOST_SUM};
ghost use Rattle.reports.specs.SiteReport.{page_sums};
ghost use Rattle.reports.specs.Walking.{added};

use crate::text::{count_of, inapplicable};
use judge_core::OutRow;
use rule_core::{Auto, RuleInfo};

/// Where a sum over pages stops: the greatest 64-bit number.
pub const MOST_SUM: usize = 18_446_744_073_709_551_615;

/// Where a sum stops, as a number, since definitions name the constant. It does nothing: the clause is what it is
/// for.
pub fn laws_of_limits()
    ensures sum { MOST_SUM ≡ 2 ^ 64 - 1 }
{}

/// How many rows have each final outcome, and how many rules are inapplicable: of a page, or of the pages of a
/// site together.
#[derive(Clone, Copy, Debug, PartialEq, Eq)]
pub struct Sums {
    pub passed: usize,
    pub failed: usize,
    pub cant_tell: usize,
    pub inapplicable: usize,
}

impl Sums {
    /// Nothing counted.
    pub fn none() -> Sums
        ensures { result ≡ record { passed = 0; failed = 0; cant_tell = 0; inapplicable = 0 } }
    {
        Sums {
            passed: 0,
            failed: 0,
            cant_tell: 0,
            inapplicable: 0,
        }
    }

    /// These and others together; each sum stops at the greatest number.
    pub fn and(self, other: Sums) -> Sums
        ensures { result ≡ added self other }
    {
        Sums {
            passed: self.passed.saturating_add(other.passed),
            failed: self.failed.saturating_add(other.failed),
            cant_tell: self.cant_tell.saturating_add(other.cant_tell),
            inapplicable: self.inapplicable.saturating_add(other.inapplicable),
        }
    }
}

/// The sums of a page by the rules of these infos. A row of none of the rules is passed over.
pub fn page_sums(infos: &[RuleInfo], rows: &[OutRow]) -> Sums
    ensures { result ≡ page_sums infos.now rows.now }
{
    Sums {
        passed: count_of(Auto::Passed, infos, rows),
        failed: count_of(Auto::Failed, infos, rows),
        cant_tell: count_of(Auto::CantTell, infos, rows),
        inapplicable: inapplicable(infos, rows),
    }
}
