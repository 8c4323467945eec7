ghost use Rattle.std.specs.Prelude.{◌≡◌, false, OnOk};
ghost use Rattle.texts.specs.Words.{words};
ghost use Rattle.rules_tables.specs.Bearers.{bearer_of, with_node, has_other, HasPut, HasPutAll};

use snap_tree::{NodeId, OutOfMemory, next_word};
use std::collections::BTreeMap;

/// The first node that bears a word, and whether another one bears it too.
#[derive(Clone, Copy, Debug, PartialEq, Eq)]
pub(crate) struct Bearer {
    first: NodeId,
    more: bool,
}

/// By each word, which nodes bear it.
pub(crate) type Bearers<'a> = BTreeMap<&'a str, Bearer>;

fn with_node(bearer: Option<Bearer>, n: NodeId) -> Bearer
    ensures { result ≡ with_node bearer n }
{
    match bearer {
        Some(bearer) => Bearer {
            first: bearer.first,
            more: bearer.more || bearer.first.0 != n.0,
        },
        None => Bearer {
            first: n,
            more: false,
        },
    }
}

fn bearer_of(bearers: &Bearers<'_>, word: &str) -> Option<Bearer>
    ensures { result ≡ bearer_of bearers.now word.now }
{
    bearers.get(word).copied()
}

/// Whether a node bears a word that isn't this one.
pub(crate) fn has_other(bearers: &Bearers<'_>, word: &str, n: NodeId) -> bool
    ensures { result ≡ has_other (bearer_of bearers.now word.now) n }
{
    match bearer_of(bearers, word) {
        Some(bearer) => bearer.more || bearer.first.0 != n.0,
        None => false,
    }
}

/// Notes that a node bears a word.
pub(crate) fn put<'a>(
    bearers: &mut Bearers<'a>,
    word: &'a str,
    n: NodeId,
) -> Result<(), OutOfMemory>
    ensures { OnOk result (HasPut bearers.old bearers.new word.now n) }
{
    let before = bearer_of(bearers, word);
    let now = with_node(before, n);
    if before != Some(now) {
        bearers.insert(word, now)?;
    }
    Ok(())
}

/// Notes that a node bears the words of a text.
pub(crate) fn put_words<'a>(
    bearers: &mut Bearers<'a>,
    text: &'a str,
    n: NodeId,
) -> Result<(), OutOfMemory>
    ensures { OnOk result (HasPutAll bearers.old bearers.new (words text.now) n) }
{
    let mut rest = text;
    while let Some((word, later)) = next_word(rest) {
        put(bearers, word, n)?;
        rest = later;
    }
    Ok(())
}
