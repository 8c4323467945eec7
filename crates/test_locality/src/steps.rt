//! Tries a line.
//!
//! | line | what holds |
//! |---|---|
//! | `page TEXT` | the lines behind it speak of this page |
//! | `langs BEFORE > AFTER` | its site accepts these language subtags, before and after |
//! | `costs SUM \| TEXT` | the audit after the edit to this page judges so many pairs, as a plain program finds affected, with the outcomes of a full one |
//! | `forty SUM \| TEXT` | the same by the book of forty |
//! | `keeps TEXT` | each rule says the same of each node of this page, where the pages agree on what it looks at |
//! | `agrees RULE NODE \| TEXT`, `differs ..` | whether this page agrees on what a rule looks at, of a node |
//! | `untrue RULE NODE LESS \| TEXT` | the rule says another thing of the node, although this page agrees on its reach where that is smaller |
//! | `random SEED`, `random SEED lists`, `random SEED forty`, `random SEED forty lists` | edits at random judge what they affect |
//!
//! A page is written as `fixture_pages` says, and `{1 9 a}` in it stands for the text once for each of these numbers: $n is
//! the number, $m the one before it.

use crate::again::audited_again;
use crate::books::Book;
use crate::cases::{Case, pair};
use crate::judged::{affected, agrees, compared, info_of, keeps, pages_keep, whole};
use crate::random::at_random;
use crate::reach::{Less, Place, less_of};
use crate::written::sum;
use fixture_sketches::{Trouble, cut, number};
use rule_core::RuleInfo;
use snap_tree::NodeId;
use std::alloc::Global;

/// What is said of a line.
#[derive(Clone, Copy)]
pub(crate) enum Told {
    /// It is none that can hold.
    Nothing,
    Holds,
    /// What is wrong, with a number that tells more.
    Fails(&'static str, u64),
}

pub(crate) fn held(holds: bool, wrong: &'static str, number: u64) -> Told {
    if holds {
        Told::Holds
    } else {
        Told::Fails(wrong, number)
    }
}

/// Tries a line, which begins with a word.
pub(crate) fn said(alloc: Global, case: Case<'_>, word: &str, rest: &str) -> Result<Told, Trouble> {
    match word {
        "" | "#" | "page" | "langs" => Ok(Told::Nothing),
        "costs" => costs(alloc, Book::Thirty, case, rest),
        "forty" => costs(alloc, Book::Forty, case, rest),
        "keeps" => each_keeps(alloc, case, rest),
        "agrees" => agreed(alloc, case, rest, true),
        "differs" => agreed(alloc, case, rest, false),
        "untrue" => untrue(alloc, case, rest),
        "random" => at_random(alloc, rest),
        _ => Err(Trouble::NotInForm),
    }
}

// What stands before the mark in a line, and the page behind it.
fn parts(line: &str) -> (&str, &str) {
    let (asked, text) = cut(line, '|');
    (asked, text.trim_start())
}

fn costs(alloc: Global, book: Book, case: Case<'_>, line: &str) -> Result<Told, Trouble> {
    let (due, text) = parts(line);
    let due = sum(due)?;
    let (old, new) = pair(alloc, case, text)?;
    let (cost, same) = audited_again(alloc, book, &old, &new)?;
    let pairs = affected(alloc, book.infos(), &old, &new)?;
    let holds = same & (cost == due) & (pairs == due);
    Ok(held(holds, "other outcomes, or so many pairs:", cost))
}

fn each_keeps(alloc: Global, case: Case<'_>, text: &str) -> Result<Told, Trouble> {
    let (old, new) = pair(alloc, case, text)?;
    let holds = pages_keep(alloc, &old, &new)?;
    Ok(held(holds, "a rule says another thing", 0))
}

// RULE NODE LESS
fn asked(words: &str) -> Result<(RuleInfo, NodeId, Less), Trouble> {
    let (rule, rest) = cut(words, ' ');
    let (node, less) = cut(rest, ' ');
    let info = info_of(number(rule)?)?;
    let node = NodeId(number(node)?);
    Ok((info, node, less_of(less.trim_end())?))
}

fn agreed(alloc: Global, case: Case<'_>, line: &str, due: bool) -> Result<Told, Trouble> {
    let (words, text) = parts(line);
    let (info, n, _) = asked(words)?;
    let (old, new) = pair(alloc, case, text)?;
    let found = agrees(alloc, &info, &compared(alloc, whole(&old), &new)?, n)?;
    Ok(held(found == due, "not so", 0))
}

fn untrue(alloc: Global, case: Case<'_>, line: &str) -> Result<Told, Trouble> {
    let (words, text) = parts(line);
    let (info, n, less) = asked(words)?;
    let (old, new) = pair(alloc, case, text)?;
    let place = Place { tree: &old, less };
    let kept = keeps(alloc, &info, &compared(alloc, whole(&old), &new)?, n)?;
    let lost = !keeps(alloc, &info, &compared(alloc, place, &new)?, n)?;
    Ok(held(kept & lost, "not so", 0))
}
