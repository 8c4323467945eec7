//! What a keeper answers of a site and pages of it, in lines.

use crate::faults::wrong_of;
use fixture_words::Wrong;
use judge_core::{Judgement, OutRow};
use keep_core::{KeepFault, Keeper, MemberRole, PageHead, Site};
use rule_core::Auto;
use snap_json::write_snapshot;
use snap_tree::{List, Text, Tree};
use std::alloc::Global;
use std::fmt::Write;
use std::str::from_utf8;

fn role_word(role: MemberRole) -> &'static str {
    match role {
        MemberRole::Owner => "owner",
        MemberRole::Editor => "editor",
        MemberRole::Judge => "judge",
        MemberRole::Reader => "reader",
    }
}

fn outcome_word(outcome: Auto) -> &'static str {
    match outcome {
        Auto::Passed => "passed",
        Auto::Failed => "failed",
        Auto::CantTell => "cantTell",
    }
}

// Adds a word and a text.
fn add(out: &mut String, word: &str, text: &str) -> Result<(), Wrong> {
    out.push_str(word)?;
    out.push_str(text)?;
    Ok(())
}

fn add_number(out: &mut String, word: &str, number: u64) -> Result<(), Wrong> {
    write!(out, "{word}{number}")?;
    Ok(())
}

fn add_quoted(out: &mut String, word: &str, text: &str) -> Result<(), Wrong> {
    write!(out, "{word}{text:?}")?;
    Ok(())
}

fn add_member(out: &mut String, user: &str, role: MemberRole) -> Result<(), Wrong> {
    add(out, "member ", user)?;
    add(out, " ", role_word(role))?;
    add(out, "\n", "")
}

fn add_site(out: &mut String, site: &Site) -> Result<(), Wrong> {
    add(out, "site ", site.name.as_str())?;
    add_number(out, " counter ", site.counter)?;
    add(out, "\n", "")?;
    for member in site.members.as_slice() {
        add_member(out, member.user.as_str(), member.role)?;
    }
    for language in site.languages.as_slice() {
        add(out, "language ", language.as_str())?;
        add(out, "\n", "")?;
    }
    Ok(())
}

fn add_head(out: &mut String, word: &str, head: &PageHead) -> Result<(), Wrong> {
    add(out, word, head.page.as_str())?;
    add_number(out, " rev ", head.rev)?;
    add(out, " by ", head.hand.as_str())?;
    add(out, "\n", "")
}

// The rule and the node of a row, and an outcome.
fn add_place(
    out: &mut String,
    word: &str,
    rule: u16,
    node: u32,
    outcome: Auto,
) -> Result<(), Wrong> {
    add_number(out, word, u64::from(rule))?;
    add_number(out, " node ", u64::from(node))?;
    add(out, " ", outcome_word(outcome))
}

fn add_judgement(out: &mut String, judgement: &Judgement) -> Result<(), Wrong> {
    let (rule, node) = (judgement.rule.0, judgement.node.0);
    add_place(out, "judgement rule ", rule, node, judgement.verdict)?;
    add(out, " by ", judgement.hand.as_str())?;
    add_quoted(out, " note ", judgement.note.as_str())?;
    add_quoted(out, " evidence ", judgement.evidence.as_str())?;
    add(out, "\n", "")
}

fn add_outcome(out: &mut String, row: &OutRow) -> Result<(), Wrong> {
    add_place(out, "outcome rule ", row.rule.0, row.node.0, row.auto)?;
    add(out, " ", row.reason.word())?;
    add_quoted(out, " evidence ", row.evidence.as_str())?;
    add(out, " last ", outcome_word(row.last))?;
    add_quoted(out, " by ", row.hand.as_str())?;
    add(out, "\n", "")
}

fn add_tree(alloc: Global, out: &mut String, tree: &Tree) -> Result<(), Wrong> {
    let snapshot = write_snapshot(alloc, tree)?;
    let text = from_utf8(snapshot.as_slice()).unwrap_or("no text");
    add(out, text, "\n")
}

fn add_snapshot<K: Keeper>(
    alloc: Global,
    keeper: &mut K,
    site: &Text,
    page: &Text,
    out: &mut String,
) -> Result<(), Wrong> {
    match keeper.load(alloc, site, page) {
        Err(fault) => Err(wrong_of(fault)),
        Ok(None) => {
            add(out, "no page ", page.as_str())?;
            add(out, "\n", "")
        }
        Ok(Some(page)) => {
            add_head(out, "snapshot ", &page.head)?;
            add_tree(alloc, out, &page.tree)
        }
    }
}

fn add_judgements<K: Keeper>(
    alloc: Global,
    keeper: &mut K,
    site: &Text,
    page: &Text,
    out: &mut String,
) -> Result<(), Wrong> {
    let judgements = judgements_of(alloc, keeper, site, page)?;
    for judgement in judgements.as_slice() {
        add_judgement(out, judgement)?;
    }
    Ok(())
}

/// The judgements that a keeper answers of a page.
pub fn judgements_of<K: Keeper>(
    alloc: Global,
    keeper: &mut K,
    site: &Text,
    page: &Text,
) -> Result<List<Judgement>, Wrong> {
    match keeper.judgements(alloc, site, page) {
        Ok(judgements) => Ok(judgements),
        Err(fault) => Err(wrong_of(fault)),
    }
}

/// The edition that a keeper answers.
pub fn kept_edition<K: Keeper>(alloc: Global, keeper: &mut K) -> Result<u64, Wrong> {
    match keeper.edition(alloc) {
        Ok(edition) => Ok(edition),
        Err(fault) => Err(wrong_of(fault)),
    }
}

fn add_outcomes<K: Keeper>(
    alloc: Global,
    keeper: &mut K,
    site: &Text,
    page: &Text,
    out: &mut String,
) -> Result<(), Wrong> {
    let outcomes = match keeper.outcomes(alloc, site, page) {
        Ok(outcomes) => outcomes,
        Err(fault) => return Err(wrong_of(fault)),
    };
    for row in outcomes.rows.as_slice() {
        add_outcome(out, row)?;
    }
    Ok(())
}

fn add_page<K: Keeper>(
    alloc: Global,
    keeper: &mut K,
    site: &Text,
    name: &str,
    out: &mut String,
) -> Result<(), Wrong> {
    let page = Text::from_str(alloc, name)?;
    add_snapshot(alloc, keeper, site, &page, out)?;
    add_judgements(alloc, keeper, site, &page, out)?;
    add_outcomes(alloc, keeper, site, &page, out)
}

fn add_site_of<K: Keeper>(
    alloc: Global,
    keeper: &mut K,
    site: &Text,
    out: &mut String,
) -> Result<(), Wrong> {
    match keeper.site(alloc, site) {
        Err(fault) => Err(wrong_of(fault)),
        Ok(None) => add(out, "no site ", site.as_str()),
        Ok(Some(site)) => add_site(out, &site),
    }
}

fn add_heads<K: Keeper>(
    alloc: Global,
    keeper: &mut K,
    site: &Text,
    out: &mut String,
) -> Result<(), Wrong> {
    let heads = match keeper.list(alloc, site) {
        Ok(heads) => heads,
        Err(fault) => return Err(wrong_of(fault)),
    };
    for head in heads.as_slice() {
        add_head(out, "page ", head)?;
    }
    Ok(())
}

/// What the calls answer that read a site and pages of it, whether they are kept or not.
pub fn kept_lines<K: Keeper>(
    alloc: Global,
    keeper: &mut K,
    site: &str,
    pages: &[String],
) -> Result<String, Wrong> {
    let mut out = String::new(alloc);
    let site = Text::from_str(alloc, site)?;
    add_site_of(alloc, keeper, &site, &mut out)?;
    add_heads(alloc, keeper, &site, &mut out)?;
    for page in pages {
        add_page(alloc, keeper, &site, page.as_str(), &mut out)?;
    }
    Ok(out)
}

fn has_failed<T: Drop>(answer: Result<T, KeepFault>) -> bool {
    matches!(answer, Err(KeepFault::Failed))
}

/// Which of the eight reading calls fail, made one after another.
pub fn failing_reads<K: Keeper>(
    alloc: Global,
    keeper: &mut K,
    site: &Text,
    page: &Text,
    user: &Text,
) -> [bool; 8] {
    [
        has_failed(keeper.site(alloc, site)),
        has_failed(keeper.load(alloc, site, page)),
        has_failed(keeper.list(alloc, site)),
        has_failed(keeper.judgements(alloc, site, page)),
        has_failed(keeper.outcomes(alloc, site, page)),
        has_failed(keeper.edition(alloc)),
        has_failed(keeper.sites(alloc)),
        has_failed(keeper.memberships(alloc, user)),
    ]
}
