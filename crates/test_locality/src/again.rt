ghost use Rattle.std.specs.Prelude.{◌≡◌};

use crate::books::Book;
use audit::audit_page;
use book_forty::Forty;
use judge_core::{Judgement, OutRow};
use reaudit::reaudit;
use rule_book::Thirty;
use rule_core::{Auto, RuleBook};
use snap_tree::{OutOfMemory, Text, Tree};
use std::alloc::Global;

fn judgement(alloc: Global, row: &OutRow) -> Result<Judgement, OutOfMemory> {
    Ok(Judgement {
        rule: row.rule,
        node: row.node,
        verdict: Auto::Passed,
        hand: Text::from_str(alloc, "eve")?,
        note: Text::new(alloc),
        evidence: row.evidence.copy(alloc)?,
    })
}

// A judgement of each outcome that is open.
fn judged(alloc: Global, rows: &[OutRow]) -> Result<Vec<Judgement>, OutOfMemory> {
    let mut js = Vec::new(alloc);
    for row in rows {
        if row.auto == Auto::CantTell {
            js.push(judgement(alloc, row)?)?;
        }
    }
    Ok(js)
}

// By two books of one kind: one for the full audits, and one that has judged nothing yet for the audit after the edit.
fn audited_by<B: RuleBook>(
    alloc: Global,
    full: &mut B,
    book: &mut B,
    old: &Tree,
    new: &Tree,
) -> Result<(u64, bool), OutOfMemory>
    requires { old.now.address ≡ new.now.address }
{
    let before = audit_page(alloc, full, old, &[])?;
    let js = judged(alloc, before.rows.as_slice())?;
    let anew = audit_page(alloc, full, new, js.as_slice())?;
    let again = reaudit(alloc, book, old, &before, new, js.as_slice())?;
    Ok((book.calls(), again == anew))
}

/// What the audit after an edit costs by a book, and whether its outcomes are those of a full audit. What was open on the
/// old page is judged by then.
pub(crate) fn audited_again(
    alloc: Global,
    book: Book,
    old: &Tree,
    new: &Tree,
) -> Result<(u64, bool), OutOfMemory>
    requires { old.now.address ≡ new.now.address }
{
    match book {
        Book::Thirty => audited_by(alloc, &mut Thirty::new(), &mut Thirty::new(), old, new),
        Book::Forty => audited_by(alloc, &mut Forty::new(), &mut Forty::new(), old, new),
    }
}
