ghost use Rattle.std.specs.Prelude.{◌≡◌, ◌+◌, ◌<◌, ◌^◌, ◌%◌, length, IfOk, OnOk};
ghost use Rattle.made_pages.specs.declared.kind.Kind.TheVariants.{Link, Image, Button, Field};
ghost use Rattle.made_pages.specs.Pages.{content, kind_of, section, with_part};

use crate::kind::Kind;
use crate::node::{RV, RVFT, attr, below, element, no_attrs, words};
use snap_tree::{OutOfMemory, Row, Text};
use std::alloc::Global;

/// The number of the body, in which the sections stand.
const BODY: u32 = 5;

#[tactic(auto, unfolding(crate::specs::Pages::content))]
fn link(alloc: Global, n: u32) -> Result<Vec<Row>, OutOfMemory>
    requires { n + 5 < 2 ^ 32 }
    ensures { IfOk result (λ rows. rows.items ≡ content Link n) }
{
    let href = attr(alloc, "href", "#x")?;
    let link = element(alloc, n + 3, below(n), "a", href, RVFT)?;
    let text = words(
        alloc,
        n + 4,
        below(n + 3),
        Text::from_str(alloc, "More")?,
        RV,
    )?;
    Ok(vec![in alloc; link, text]?)
}

#[tactic(auto, unfolding(crate::specs::Pages::content))]
fn image(alloc: Global, n: u32) -> Result<Vec<Row>, OutOfMemory>
    requires { n + 5 < 2 ^ 32 }
    ensures { IfOk result (λ rows. rows.items ≡ content Image n) }
{
    let alt = attr(alloc, "alt", "Chart")?;
    let image = element(alloc, n + 3, below(n), "img", alt, RV)?;
    Ok(vec![in alloc; image]?)
}

#[tactic(auto, unfolding(crate::specs::Pages::content))]
fn button(alloc: Global, n: u32) -> Result<Vec<Row>, OutOfMemory>
    requires { n + 5 < 2 ^ 32 }
    ensures { IfOk result (λ rows. rows.items ≡ content Button n) }
{
    let button = element(alloc, n + 3, below(n), "button", no_attrs(alloc), RVFT)?;
    Ok(vec![in alloc; button]?)
}

#[tactic(auto, unfolding(crate::specs::Pages::content))]
fn field(alloc: Global, n: u32) -> Result<Vec<Row>, OutOfMemory>
    requires { n + 5 < 2 ^ 32 }
    ensures { IfOk result (λ rows. rows.items ≡ content Field n) }
{
    let label = element(alloc, n + 3, below(n), "label", no_attrs(alloc), RV)?;
    let text = words(
        alloc,
        n + 4,
        below(n + 3),
        Text::from_str(alloc, "Name")?,
        RV,
    )?;
    let of_text = attr(alloc, "type", "text")?;
    let input = element(alloc, n + 5, below(n + 3), "input", of_text, RVFT)?;
    Ok(vec![in alloc; label, text, input]?)
}

// What stands in the section of number n, behind its heading.
fn content(alloc: Global, kind: Kind, n: u32) -> Result<Vec<Row>, OutOfMemory>
    requires { n + 5 < 2 ^ 32 }
    ensures { IfOk result (λ rows. rows.items ≡ content kind n) }
{
    match kind {
        Kind::Link => link(alloc, n),
        Kind::Image => image(alloc, n),
        Kind::Button => button(alloc, n),
        Kind::Field => field(alloc, n),
    }
}

// The section of a part with its heading, where the section has number n.
#[tactic(auto, unfolding(crate::specs::Pages::section))]
fn section(alloc: Global, part: u32, n: u32) -> Result<Vec<Row>, OutOfMemory>
    requires { n + 5 < 2 ^ 32 }
    ensures { IfOk result (λ rows. rows.items ≡ section part n) }
{
    let text = Text::from_string(format!(in alloc; "Part {part}")?);
    let section = element(alloc, n, below(BODY), "section", no_attrs(alloc), RV)?;
    let heading = element(alloc, n + 1, below(n), "h2", no_attrs(alloc), RV)?;
    let text = words(alloc, n + 2, below(n + 1), text, RV)?;
    Ok(vec![in alloc; section, heading, text]?)
}

// The kind of a part of a page: by the remainder of the number, the page and the part together by 4.
fn kind_of(number: u32, page: u32, part: u32) -> Kind
    ensures { result ≡ kind_of ((number + page + part) % 4) }
{
    Kind::of((u64::from(number) + u64::from(page) + u64::from(part)) % 4)
}

/// Adds the rows of a part of a page, which are numbered on.
pub fn push_part(
    alloc: Global,
    rows: &mut Vec<Row>,
    number: u32,
    page: u32,
    part: u32,
) -> Result<(), OutOfMemory>
    requires { length rows.old.items < 2 ^ 31 }
    ensures { OnOk result (rows.new.items ≡ with_part number page part rows.old.items) }
{
    let n = rows.len() as u32 + 1;
    let mut section = section(alloc, part, n)?;
    let mut content = content(alloc, kind_of(number, page, part), n)?;
    rows.append(&mut section)?;
    rows.append(&mut content)?;
    Ok(())
}
