//! The numbers of a change's rows. Each call does nothing: the clauses are what it is for, and a number is known to be
//! in its type's range once it was read.

ghost use Rattle.std.specs.List.{All};
ghost use Rattle.keep_core.specs.declared.page.PagePut.{PagePut};
ghost use Rattle.keep_core.specs.declared.page.PageOutcomes.{PageOutcomes};
ghost use Rattle.judge_core.specs.declared.judgement.Judgement.{Judgement};
ghost use Rattle.store_tables.specs.Numbers.{AreNumbers, HasNumbers, IsNumbered};

use judge_core::{Judgement, OutRow};
use keep_core::{Change, PageOutcomes, PagePut};
use rule_core::RuleNo;
use snap_tree::NodeId;

fn see(rule: RuleNo, node: NodeId)
    ensures { AreNumbers rule.0 node.0 }
{
    let _rule = rule.0;
    let _node = node.0;
}

fn see_rows(rows: &[OutRow])
    ensures { All HasNumbers rows.now }
{
    for row in rows {
        see(row.rule, row.node);
    }
}

fn see_pages(puts: &[PagePut])
    ensures { All (λ (p : PagePut). All HasNumbers p.outcomes.rows) puts.now }
{
    for put in puts {
        see_rows(put.outcomes.rows.as_slice());
    }
}

fn see_judgements(js: &[Judgement])
    ensures { All (λ (j : Judgement). AreNumbers j.rule.0 j.node.0) js.now }
{
    for j in js {
        see(j.rule, j.node);
    }
}

fn see_outcomes(pages: &[PageOutcomes])
    ensures { All (λ (o : PageOutcomes). All HasNumbers o.outcomes.rows) pages.now }
{
    for page in pages {
        see_rows(page.outcomes.rows.as_slice());
    }
}

/// Reads the rules and nodes of a change, which have their numbers.
pub fn see_numbers(change: &Change)
    ensures { IsNumbered change.now }
{
    match change {
        Change::PutPages { pages, .. } => see_pages(pages.as_slice()),
        Change::AddJudgements {
            judgements,
            outcomes,
            ..
        } => {
            see_judgements(judgements.as_slice());
            see_rows(outcomes.rows.as_slice());
        }
        Change::PutLanguages { pages, .. } | Change::Refresh { pages, .. } => {
            see_outcomes(pages.as_slice());
        }
        Change::PutSite { .. } | Change::DropPage { .. } | Change::SetEdition { .. } => {}
    }
}
