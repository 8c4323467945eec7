use crate::reach::{Less, Place, add_class};
use crate::values::{Key, add_part, value};
use book_forty::{Forty, infos_forty};
use fixture_sketches::Trouble;
use rule_core::{Auto, Class, RuleBook, RuleInfo, Verdict};
use snap_tree::{NodeId, Tree};
use std::alloc::Global;

fn auto_word(auto: Auto) -> &'static str {
    match auto {
        Auto::Passed => "passed",
        Auto::Failed => "failed",
        Auto::CantTell => "cantTell",
    }
}

fn shown(alloc: Global, verdict: &Option<Verdict>) -> Result<String, Trouble> {
    let mut text = String::new(alloc);
    if let Some(verdict) = verdict {
        add_part(&mut text, auto_word(verdict.auto))?;
        add_part(&mut text, verdict.reason.word())?;
        add_part(&mut text, verdict.evidence.as_str())?;
    }
    Ok(text)
}

// What a rule says of a node, as a text; no character where it isn't a target.
fn said(alloc: Global, info: &RuleInfo, tree: &Tree, n: NodeId) -> Result<String, Trouble> {
    let mut book = Forty::new();
    let verdict = book.judge(alloc, tree, info.no, n)?;
    shown(alloc, &verdict)
}

/// Two pages, and the nodes of the first of which the second answers another thing, by kind of key.
#[derive(Drop)]
pub(crate) struct Pair<'a> {
    old: Place<'a>,
    new: &'a Tree,
    frames: Vec<NodeId>,
    own: Vec<NodeId>,
    kids: Vec<NodeId>,
}

fn differs(alloc: Global, old: &Tree, new: &Tree, key: Key<'_>) -> Result<bool, Trouble> {
    Ok(value(alloc, old, key)?.as_str() != value(alloc, new, key)?.as_str())
}

// Adds a node where the pages differ at its key.
fn note(
    alloc: Global,
    nodes: &mut Vec<NodeId>,
    old: &Tree,
    new: &Tree,
    key: Key<'_>,
    n: NodeId,
) -> Result<(), Trouble> {
    if differs(alloc, old, new, key)? {
        nodes.push(n)?;
    }
    Ok(())
}

/// A page, of whose reach something may be smaller, and another.
pub(crate) fn compared<'a>(
    alloc: Global,
    old: Place<'a>,
    new: &'a Tree,
) -> Result<Pair<'a>, Trouble> {
    let mut frames = Vec::new(alloc);
    let mut own = Vec::new(alloc);
    let mut kids = Vec::new(alloc);
    for row in old.tree.rows() {
        let n = row.id;
        note(alloc, &mut frames, old.tree, new, Key::Frame(n), n)?;
        note(alloc, &mut own, old.tree, new, Key::Own(n), n)?;
        note(alloc, &mut kids, old.tree, new, Key::Kids(n), n)?;
    }
    Ok(Pair {
        old,
        new,
        frames,
        own,
        kids,
    })
}

fn holds(nodes: &[NodeId], n: NodeId) -> bool {
    nodes.iter().any(|node| *node == n)
}

fn agree_at(alloc: Global, pair: &Pair<'_>, key: Key<'_>) -> Result<bool, Trouble> {
    match key {
        Key::Frame(n) => Ok(!holds(pair.frames.as_slice(), n)),
        Key::Own(n) => Ok(!holds(pair.own.as_slice(), n)),
        Key::Kids(n) => Ok(!holds(pair.kids.as_slice(), n)),
        Key::Id(_) | Key::LabelFor(_) | Key::Tagged(_) | Key::Langs => {
            Ok(!differs(alloc, pair.old.tree, pair.new, key)?)
        }
    }
}

fn agree(alloc: Global, pair: &Pair<'_>, keys: &[Key<'_>]) -> Result<bool, Trouble> {
    for key in keys {
        if !agree_at(alloc, pair, *key)? {
            return Ok(false);
        }
    }
    Ok(true)
}

fn applies(info: &RuleInfo, less: Less) -> Class {
    match less {
        Less::Applies(class) => class,
        _ => info.applies,
    }
}

fn expects(info: &RuleInfo, less: Less) -> Class {
    match less {
        Less::Expects(class) => class,
        _ => info.expects,
    }
}

// Whether two pages agree on what a class looks at, of one node, for each class that was asked for.
type Answers = Vec<(Class, bool)>;

fn known(answers: &[(Class, bool)], class: Class) -> Option<bool> {
    for (asked, answer) in answers {
        if *asked == class {
            return Some(*answer);
        }
    }
    None
}

// Whether two pages agree on what a class looks at, of the node of these answers.
fn agree_on(
    alloc: Global,
    answers: &mut Answers,
    pair: &Pair<'_>,
    class: Class,
    n: NodeId,
) -> Result<bool, Trouble> {
    if let Some(answer) = known(answers.as_slice(), class) {
        return Ok(answer);
    }
    let mut keys = Vec::new(alloc);
    add_class(&mut keys, pair.old, class, n)?;
    let answer = agree(alloc, pair, keys.as_slice())?;
    answers.push((class, answer))?;
    Ok(answer)
}

// Whether two pages agree on all that a rule looks at, of the node of these answers. What its expectations look at counts
// where the node is a target.
fn agrees_by(
    alloc: Global,
    answers: &mut Answers,
    info: &RuleInfo,
    pair: &Pair<'_>,
    n: NodeId,
) -> Result<bool, Trouble> {
    let Place { tree, less } = pair.old;
    if !agree_on(alloc, answers, pair, applies(info, less), n)? {
        return Ok(false);
    }
    if agree_on(alloc, answers, pair, expects(info, less), n)? {
        return Ok(true);
    }
    Ok(said(alloc, info, tree, n)?.is_empty())
}

/// Whether two pages agree on all that a rule looks at, of a node.
pub(crate) fn agrees(
    alloc: Global,
    info: &RuleInfo,
    pair: &Pair<'_>,
    n: NodeId,
) -> Result<bool, Trouble> {
    let mut answers = Vec::new(alloc);
    agrees_by(alloc, &mut answers, info, pair, n)
}

/// Whether a rule says the same of a node on both pages, where they agree on what it looks at.
pub(crate) fn keeps(
    alloc: Global,
    info: &RuleInfo,
    pair: &Pair<'_>,
    n: NodeId,
) -> Result<bool, Trouble> {
    let before = said(alloc, info, pair.old.tree, n)?;
    let after = said(alloc, info, pair.new, n)?;
    if before.as_str() == after.as_str() {
        return Ok(true);
    }
    Ok(!agrees(alloc, info, pair, n)?)
}

fn all_keep(alloc: Global, pair: &Pair<'_>, n: NodeId) -> Result<bool, Trouble> {
    for info in infos_forty() {
        if !keeps(alloc, info, pair, n)? {
            return Ok(false);
        }
    }
    Ok(true)
}

/// Whether each rule says the same of each node, where the pages agree on what it looks at.
pub(crate) fn pages_keep(alloc: Global, old: &Tree, new: &Tree) -> Result<bool, Trouble> {
    let pair = compared(alloc, whole(old), new)?;
    for row in old.rows() {
        if !all_keep(alloc, &pair, row.id)? {
            return Ok(false);
        }
    }
    Ok(true)
}

/// What the rule of a number says of itself.
pub(crate) fn info_of(number: u32) -> Result<RuleInfo, Trouble> {
    for info in infos_forty() {
        if u32::from(info.no.0) == number {
            return Ok(*info);
        }
    }
    Err(Trouble::NotInForm)
}

/// The page, with nothing made smaller.
pub(crate) fn whole(tree: &Tree) -> Place<'_> {
    Place {
        tree,
        less: Less::Nothing,
    }
}

// By how many atomic rules a node of the new page is affected.
fn affected_at(
    alloc: Global,
    infos: &[RuleInfo],
    pair: &Pair<'_>,
    n: NodeId,
) -> Result<u64, Trouble> {
    let is_new = pair.old.tree.node(n).is_none();
    let mut answers = Vec::new(alloc);
    let mut count: u64 = 0;
    for info in infos {
        if info.is_atomic() && (is_new || !agrees_by(alloc, &mut answers, info, pair, n)?) {
            count = count.saturating_add(1);
        }
    }
    Ok(count)
}

/// How many pairs of an atomic rule, of those that say this of themselves, and a node of the new page an edit affects.
pub(crate) fn affected(
    alloc: Global,
    infos: &[RuleInfo],
    old: &Tree,
    new: &Tree,
) -> Result<u64, Trouble> {
    let pair = compared(alloc, whole(old), new)?;
    let mut count: u64 = 0;
    for row in new.rows() {
        count = count.saturating_add(affected_at(alloc, infos, &pair, row.id)?);
    }
    Ok(count)
}
