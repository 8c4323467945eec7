ghost use Rattle.std.specs.Prelude.{◌≡◌, IfOk};
ghost use Rattle.snap_tree.specs.Trees.{rows_of, Document};
ghost use Rattle.acc_tree.specs.Seen.{seen_row, seen};
ghost use Rattle.snap_tree.specs.declared.row.NodeId.{NodeId};
ghost use Rattle.rule_sights.specs.Targets.{JudgesRows};
ghost use Rattle.rules_page.specs.Refresh.{refresh_verdict, page_has_no_delay_target};
ghost use Rattle.rules_more.specs.DelayAtAll.{delay_finding, page_never_delays, page_never_delays_info};

use acc_tree::{Attribute, attr};
use rule_core::{Class, Finding, Reason, Rule, RuleInfo, RuleNo, Verdict};
use rule_sights::row_of;
use rules_page::{is_first_refresh, refresh_time};
use snap_tree::{NodeId, OutOfMemory, Row, Tree};
use std::alloc::Global;

/// ACT rule bisz58, Meta element has no refresh delay (no exception)
/// (<https://www.w3.org/WAI/standards-guidelines/act/rules/bisz58/>). Its target is the first HTML `meta`
/// with http-equiv `refresh` whose content reads as a time. It fails where the time isn't 0. The evidence is the content.
#[derive(Clone, Copy, Debug, PartialEq, Eq)]
pub struct PageNeverDelays;

impl PageNeverDelays {
    /// Its number.
    pub const NO: u16 = 32;

    /// What the rule says of itself.
    pub const INFO: RuleInfo = RuleInfo {
        no: RuleNo(Self::NO),
        id: *b"bisz58",
        applies: Class::Metas,
        expects: Class::SelfOnly,
        inputs: [0; 4],
    };

    /// The law of its targets: on each page it has a verdict exactly where the node is one. It does nothing: the clause
    /// is what it is for.
    #[tactic(auto, using(crate::proofs::Local::delays))]
    pub fn law_of_targets()
        ensures { (page : Document) (n : NodeId) → JudgesRows page_never_delays (page_has_no_delay_target (rows_of (seen page.trees))) page n }
    {}
}

fn finding(time: u64) -> Finding
    ensures { result ≡ delay_finding time }
{
    if time == 0 {
        Finding::met()
    } else {
        Finding::failed(Reason::Delay)
    }
}

fn verdict(alloc: Global, tree: &Tree, row: &Row) -> Result<Option<Verdict>, OutOfMemory>
    ensures { IfOk result (λ verdict. verdict ≡ refresh_verdict delay_finding (rows_of (seen tree.now.trees)) (seen_row row.now)) }
{
    let Some(time) = refresh_time(row) else {
        return Ok(None);
    };
    if !is_first_refresh(tree, row.id) {
        return Ok(None);
    }
    match attr(row, Attribute::Content) {
        Some(content) => Ok(Some(finding(time).verdict(alloc, content)?)),
        None => Ok(None),
    }
}

impl Rule for PageNeverDelays {
    ghost means = { page_never_delays };

    ghost described = { page_never_delays_info };

    fn info(&self) -> RuleInfo {
        Self::INFO
    }

    fn judge(&self, alloc: Global, tree: &Tree, n: NodeId) -> Result<Option<Verdict>, OutOfMemory> {
        match row_of(tree, n) {
            Some(row) => verdict(alloc, tree, row),
            None => Ok(None),
        }
    }

    #[tactic(auto, using(crate::proofs::Local::delay_local))]
    fn law_of_locality(&self) {}
}
