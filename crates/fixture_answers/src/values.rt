//! What is said of texts and numbers by themselves.

use acc_tree::whole_number;
use fixture_sketches::{Trouble, cut, number, push_quoted, quoted, unquoted};
use made_pages::made_pages;
use snap_tree::{List, Text, blank, langs_fault, next_word, tidy};
use std::alloc::Global;
use web_address::{is_web_address, read_address};

/// A text by its words, with one space between; `blank` where it has none.
pub fn tidied(alloc: Global, rest: &str) -> Result<String, Trouble> {
    let text = Text::from_string(unquoted(alloc, rest)?);
    let tidied = tidy(alloc, &text)?;
    match (blank(&text), tidied.as_str()) {
        (true, "") => Ok(String::from_str(alloc, "blank")?),
        (false, words) => quoted(alloc, words),
        (true, words) => Ok(format!(in alloc; "blank, but {words}")?),
    }
}

/// The first word of a text, and what stands behind it.
pub fn first_word(alloc: Global, rest: &str) -> Result<String, Trouble> {
    let text = unquoted(alloc, rest)?;
    let mut line = String::new(alloc);
    if let Some((word, behind)) = next_word(text.as_str()) {
        push_quoted(alloc, &mut line, word)?;
        line.push(' ')?;
        push_quoted(alloc, &mut line, behind)?;
    }
    Ok(line)
}

/// The words of a line as a list.
pub fn words_of(alloc: Global, line: &str) -> Result<List<Text>, Trouble> {
    let mut words = Vec::new(alloc);
    let mut rest = line;
    while let Some((word, behind)) = next_word(rest) {
        words.push(Text::from_str(alloc, word)?)?;
        rest = behind;
    }
    Ok(List::from_vec(words))
}

/// The place of the first of some words that breaks the form of a list of language subtags.
pub fn faulty_lang(alloc: Global, rest: &str) -> Result<String, Trouble> {
    match langs_fault(&words_of(alloc, rest)?) {
        Some(place) => Ok(format!(in alloc; "{place}")?),
        None => Ok(String::new(alloc)),
    }
}

/// The number that a text is in digits.
pub fn digits(alloc: Global, rest: &str) -> Result<String, Trouble> {
    let text = unquoted(alloc, rest)?;
    match whole_number(text.as_str()) {
        Some(number) => Ok(format!(in alloc; "{number}")?),
        None => Ok(String::new(alloc)),
    }
}

/// How many nodes the pages of a seed have together, and how many pages there are.
pub fn made(alloc: Global, rest: &str) -> Result<String, Trouble> {
    let (seed, pages) = cut(rest, ' ');
    let trees = made_pages(alloc, number(seed)?, number(pages)?)?;
    let mut nodes = 0usize;
    for tree in &trees {
        nodes = nodes.saturating_add(tree.rows().len());
    }
    let pages = trees.len();
    Ok(format!(in alloc; "{nodes} nodes in {pages} pages")?)
}

/// The web address that a text stands for; `itself` where it is one.
pub fn address(alloc: Global, rest: &str) -> Result<String, Trouble> {
    let text = unquoted(alloc, rest)?;
    let is_one = is_web_address(alloc, text.as_str())?;
    match read_address(alloc, text.as_str())? {
        Some(address) if is_one && address.as_str() == text.as_str() => {
            Ok(String::from_str(alloc, "itself")?)
        }
        Some(address) if !is_one => quoted(alloc, address.as_str()),
        None if !is_one => Ok(String::new(alloc)),
        _ => Ok(String::from_str(alloc, "two answers")?),
    }
}
