//! The page of a case, and the two pages that are compared.

ghost use Rattle.std.specs.Prelude.{◌≡◌, IfOk};
ghost use Rattle.snap_tree.specs.Grown.{page_of};
ghost use Rattle.fixture_pages.specs.Texts.{raw_in};

use crate::written::filled;
use fixture_pages::{PageFault, RowFault, page_in};
use fixture_sketches::{Trouble, cut};
use snap_tree::{BuildFault, List, Text, Tree, langs_fault, next_word};
use std::alloc::Global;

/// The text of a page, and the language subtags that its site accepts, before and after.
#[derive(Clone, Copy)]
pub(crate) struct Case<'a> {
    page: &'a str,
    earlier: &'a str,
    later: &'a str,
}

/// The page of which the lines behind this one speak, which may give it.
pub(crate) fn page_after<'a>(page: &'a str, word: &str, rest: &'a str) -> &'a str {
    if word == "page" { rest } else { page }
}

/// The lists of subtags of which the lines behind this one speak: a page begins without.
pub(crate) fn lists_after<'a>(lists: &'a str, word: &str, rest: &'a str) -> &'a str {
    match word {
        "page" => "",
        "langs" => rest,
        _ => lists,
    }
}

/// The case of a page and of lists, which are written BEFORE > AFTER.
pub(crate) fn case_of<'a>(page: &'a str, lists: &'a str) -> Case<'a> {
    let (earlier, later) = cut(lists, '>');
    Case {
        page,
        earlier,
        later,
    }
}

/// The page of a text.
pub(crate) fn page(alloc: Global, text: &str) -> Result<Tree, Trouble>
    ensures { IfOk result (λ tree. tree ≡ page_of (raw_in text.now)) }
{
    match page_in(alloc, text) {
        Ok(tree) => Ok(tree),
        Err(PageFault::Rows(RowFault::OutOfMemory) | PageFault::Build(BuildFault::OutOfMemory)) => {
            Err(Trouble::OutOfMemory)
        }
        Err(_) => Err(Trouble::NoPage),
    }
}

/// The page, whose site accepts these subtags.
pub(crate) fn relisted(alloc: Global, tree: &Tree, langs: &str) -> Result<Tree, Trouble>
    ensures { IfOk result (λ t. t.address ≡ tree.now.address) }
{
    let mut list = Vec::new(alloc);
    let mut rest = langs;
    while let Some((lang, later)) = next_word(rest) {
        list.push(Text::from_str(alloc, lang)?)?;
        rest = later;
    }
    let list = List::from_vec(list);
    match langs_fault(&list) {
        Some(_) => Err(Trouble::NotInForm),
        None => Ok(tree.with_langs(alloc, &list)?),
    }
}

// The pages of two texts.
fn versions(alloc: Global, before: &str, after: &str) -> Result<(Tree, Tree), Trouble>
    ensures { IfOk result (λ pages. pages.0.address ≡ pages.1.address) }
{
    let before = filled(alloc, before)?;
    let after = filled(alloc, after)?;
    let old = page(alloc, before.as_str())?;
    let new = page(alloc, after.as_str())?;
    Ok((old, new))
}

/// The page of a case and that of a text, whose site accepts what the case says.
pub(crate) fn pair(alloc: Global, case: Case<'_>, text: &str) -> Result<(Tree, Tree), Trouble>
    ensures { IfOk result (λ pages. pages.0.address ≡ pages.1.address) }
{
    let (old, new) = versions(alloc, case.page, text)?;
    let old = relisted(alloc, &old, case.earlier)?;
    let new = relisted(alloc, &new, case.later)?;
    Ok((old, new))
}
