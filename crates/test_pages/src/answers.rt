//! Answers what a step asks.
//!
//! | step | answer |
//! |---|---|
//! | `rule ID` | a line for each target: node, outcome, reason, evidence |
//! | `book`, `book forty` | the same for all rules of a book, behind their numbers, and how many judgings that took |
//! | `judge RULE NODE, ..`, `judge forty RULE NODE, ..` | the number of judgings so far, and what the rule of a number says of a node |
//! | `rules`, `rules forty` | what each rule of a book says of itself |
//! | `gives` | the page, as it is written after `page` |
//! | `refused` | the fault of the page, or the index and the fault of an edit |
//! | `name N`, `named N` | the name and its source; whether there is one within the limits |
//! | `roles N`, `stands N` | the explicit, the implicit and the computed role; exposed, included, decorative |
//! | `owns N`, `owns N through groups` | the owned elements |
//! | `items N`, `items N without following`, `follows N` | the owned elements with how many times one may still follow aria-owns; what is followed |
//! | `above N` | what the ancestors say: section, list, hidden, disabled, table, label |
//! | `row N`, `kids N`, `labels N`, `attribute N NAME` | the row, the children, the labels, a value |
//! | `aria N`, `looked N`, `sight N ..` | the attributes `aria-`; title, alt and aria-owns; whether it is such a node |
//! | `cells N` | where the cells of a table are placed |
//! | `tagged TAG`, `id ".."`, `find ".."` | the nodes of a tag, of an id, of the words of a reference |
//! | `nodes`, `address`, `langs` | the number of nodes, the address, the language subtags that the site accepts |
//! | `sent`, `rows`, `built`, `kept`, `written` | what is said of bytes as a snapshot, as a list of rows, as a page, as kept ones; how they are written |
//! | `evidence`, `digest`, `reason`, `finding`, `inputs`, `merge`, `final` | what becomes of outcomes |
//! | `langs-fault gsw haw` | the place of the first that breaks the form of a list of language subtags |
//! | `tidy`, `word`, `number`, `web-address`, `table ..`, `made-pages SEED COUNT` | texts, numbers, addresses, ARIA's tables, made pages |
//!
//! N is a node's number, or `last`.

use crate::judgings::{digested, evidence, finally, finding, kind_of_inputs, merged, reason};
use crate::rules::{book, judge, rule, table};
use crate::sources::State;
use fixture_answers::{
    address, cells, digits, faulty_lang, first_word, from_table, looked_up, made, page_lines, read,
    tidied,
};
use fixture_sketches::{Trouble, cut};
use snap_tree::Tree;
use std::alloc::Global;

/// The lines that answer a step; none where there is nothing to say.
pub(crate) fn answer(
    alloc: Global,
    state: &mut State,
    words: &str,
) -> Result<Vec<String>, Trouble> {
    let (word, rest) = cut(words, ' ');
    if let Some(line) = of_text(alloc, word, rest)? {
        return one(alloc, line);
    }
    if let Some(line) = of_state(alloc, state, word, rest)? {
        return one(alloc, line);
    }
    match word {
        "rules" => table(alloc, rest),
        _ => of_page(alloc, state.tree()?, word, rest),
    }
}

// What is said of a text, whatever the case speaks of; none of another step.
fn of_text(alloc: Global, word: &str, rest: &str) -> Result<Option<String>, Trouble> {
    let said = match word {
        "tidy" => tidied(alloc, rest),
        "word" => first_word(alloc, rest),
        "digest" => digested(alloc, rest),
        "reason" => reason(alloc, rest),
        "merge" => merged(alloc, rest),
        "finding" => finding(alloc, rest),
        "inputs" => kind_of_inputs(alloc, rest),
        "web-address" => address(alloc, rest),
        "made-pages" => made(alloc, rest),
        "number" => digits(alloc, rest),
        "langs-fault" => faulty_lang(alloc, rest),
        _ => return Ok(None),
    };
    Ok(Some(said?))
}

// What is said of what the case gave but a page; none of another step.
fn of_state(
    alloc: Global,
    state: &mut State,
    word: &str,
    rest: &str,
) -> Result<Option<String>, Trouble> {
    let said = match word {
        "refused" => text(alloc, state.refused()),
        "evidence" => evidence(alloc, &mut state.last_long, rest),
        "final" => finally(alloc, state.judgements(), rest),
        "table" => of_table(alloc, state.bytes(), rest),
        "sent" | "rows" | "built" | "kept" | "written" => read(alloc, state.bytes(), word),
        _ => return Ok(None),
    };
    Ok(Some(said?))
}

fn text(alloc: Global, text: &str) -> Result<String, Trouble> {
    Ok(String::from_str(alloc, text)?)
}

fn of_table(alloc: Global, bytes: &[u8], words: &str) -> Result<String, Trouble> {
    let (word, rest) = cut(words, ' ');
    from_table(alloc, bytes, word, rest)
}

fn of_page(alloc: Global, tree: &Tree, word: &str, rest: &str) -> Result<Vec<String>, Trouble> {
    match word {
        "gives" => page_lines(alloc, tree),
        "rule" => rule(alloc, tree, rest),
        "cells" => cells(alloc, tree, rest),
        "book" => book(alloc, tree, rest),
        "judge" => judge(alloc, tree, rest),
        _ => looked_up(alloc, tree, word, rest),
    }
}

// The line alone; none where it is empty.
fn one(alloc: Global, line: String) -> Result<Vec<String>, Trouble> {
    let mut lines = Vec::new(alloc);
    if !line.is_empty() {
        lines.push(line)?;
    }
    Ok(lines)
}
