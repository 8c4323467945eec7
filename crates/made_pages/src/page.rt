ghost use Rattle.std.specs.Prelude.{◌≡◌, ◌≤◌, IfOk};
ghost use Rattle.made_pages.specs.declared.page.TheConstants.{PARTS};
ghost use Rattle.made_pages.specs.Pages.{address, made_page, rows_before, top};

use crate::node::{NO_FACTS, RV, attr, below, element, no_attrs, words};
use crate::part::push_part;
use snap_tree::{List, OutOfMemory, Raw, Row, Text};
use std::alloc::Global;

/// How many parts a page has, which are numbered from 0.
pub const PARTS: u32 = 401;

/// How many parts a page has, as a number, since the definition names the constant. It does nothing: the clause
/// is what it is for.
pub fn laws_of_limits()
    ensures parts { PARTS ≡ 401 }
{}

// What stands before the parts of a page.
#[tactic(auto, unfolding(crate::specs::Pages::top))]
fn top(alloc: Global, page: u32) -> Result<Vec<Row>, OutOfMemory>
    ensures { IfOk result (λ rows. rows.items ≡ top page) }
{
    let html = element(alloc, 1, None, "html", attr(alloc, "lang", "en")?, RV)?;
    let head = element(alloc, 2, below(1), "head", no_attrs(alloc), NO_FACTS)?;
    let title = element(alloc, 3, below(2), "title", no_attrs(alloc), NO_FACTS)?;
    let text = Text::from_string(format!(in alloc; "Page {page}")?);
    let text = words(alloc, 4, below(3), text, NO_FACTS)?;
    let body = element(alloc, 5, below(1), "body", no_attrs(alloc), RV)?;
    Ok(vec![in alloc; html, head, title, text, body]?)
}

// The rows of a page that has so many parts.
fn rows(alloc: Global, number: u32, page: u32, parts: u32) -> Result<Vec<Row>, OutOfMemory>
    requires { parts ≤ 1000 }
    ensures { IfOk result (λ rows. rows.items ≡ rows_before number page parts) }
{
    let mut rows = top(alloc, page)?;
    for part in 0..parts {
        push_part(alloc, &mut rows, number, page, part)?;
    }
    Ok(rows)
}

/// The address and the rows of a page that a number makes. Fails only for want of memory.
#[tactic(auto, unfolding(crate::specs::Pages::made_page))]
pub fn made_page(alloc: Global, number: u32, page: u32) -> Result<Raw, OutOfMemory>
    ensures { IfOk result (λ raw. raw ≡ made_page number page) }
{
    let address = Text::from_string(format!(in alloc; "https://example.org/{page}")?);
    let rows = List::from_vec(rows(alloc, number, page, PARTS)?);
    Ok(Raw { address, rows })
}
