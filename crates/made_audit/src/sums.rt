ghost use Rattle.std.specs.Prelude.{◌≡◌, ◌+◌, length, min};
ghost use Rattle.snap_tree.specs.Trees.{rows_of};
ghost use Rattle.reports.specs.declared.sums.TheConstants.{MOST_SUM};
ghost use Rattle.made_audit.specs.Line.{nodes_of, sums_of};

use audit::PageWork;
use judge_core::Outcomes;
use reports::{Sums, page_sums};
use rule_core::RuleInfo;

/// How many nodes pages have together; the sum stops at the greatest number.
pub fn nodes_of(works: &[PageWork]) -> u64
    ensures { result ≡ nodes_of works.now }
{
    let mut nodes = 0;
    for work in works {
        nodes = nodes_and(nodes, work);
    }
    nodes
}

// A number of nodes and those of a page.
fn nodes_and(nodes: u64, work: &PageWork) -> u64
    ensures { result ≡ min (nodes + length (rows_of work.now.tree.trees)) MOST_SUM }
{
    nodes.saturating_add(work.tree.rows().len() as u64)
}

/// The sums of outcomes of pages, by the rules of these infos.
pub fn sums_of(infos: &[RuleInfo], pages: &[Outcomes]) -> Sums
    ensures { result ≡ sums_of infos.now pages.now }
{
    let mut sums = Sums::none();
    for page in pages {
        let here = page_sums(infos, page.rows.as_slice());
        sums = sums.and(here);
    }
    sums
}
