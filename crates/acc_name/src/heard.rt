ghost use Rattle.std.specs.Prelude.{◌≡◌, ◌&&◌, [], length, Some, None, true, if◌then◌else◌, unwrap_or, IfOk};
ghost use Rattle.texts.specs.Words.{blank};
ghost use Rattle.acc_tree.specs.Seen.{seen_row};
ghost use Rattle.acc_name.specs.declared.captions.Caption.TheVariants as caption;
ghost use Rattle.acc_name.specs.Captions.{captioning, caption_or};
ghost use Rattle.acc_name.specs.Hosts.{is_captioning};
ghost use Rattle.acc_name.specs.Names.{is_chosen, joined};
ghost use Rattle.acc_name.specs.Voices.{text_in, asked_for};

use crate::captions::{Caption, captioned};
use crate::tags::is_option;
use crate::told::Wanted;
use acc_tree::{Attribute, has, html_tag};
use snap_tree::{OutOfMemory, Row};
use std::alloc::Global;

/// What trees say to the node above them, beside their content.
#[derive(Drop)]
pub(crate) struct Aside {
    /// What the chosen options among them say, with a space between; None where there is none, or where
    /// no `select` above says it.
    pub(crate) chosen: Option<String>,
    /// What is known of the first root that captions the node above.
    pub(crate) caption: Caption,
    /// Whether what is kept of their texts is blank.
    pub(crate) is_blank: bool,
}

/// What those below a node say to it beside their content.
#[derive(Drop)]
pub(crate) struct Inner<'a> {
    pub(crate) chosen: &'a Option<String>,
    pub(crate) caption: Caption,
    pub(crate) is_blank: bool,
}

// Whether the row is an HTML `option` that is selected.
fn is_chosen(row: &Row) -> bool
    ensures { result ≡ is_chosen (seen_row row.now) }
{
    is_option(html_tag(row)) && has(row, Attribute::Selected)
}

fn choice(alloc: Global, row: &Row, text: &str) -> Result<Option<String>, OutOfMemory>
    ensures { IfOk result (λ t. text_in t ≡ (if is_chosen (seen_row row.now) then Some text.now else None)) }
{
    if is_chosen(row) {
        Ok(Some(String::from_str(alloc, text)?))
    } else {
        Ok(None)
    }
}

/// Two texts with a space between, where they are there.
pub(crate) fn joined(
    first: Option<String>,
    later: Option<String>,
) -> Result<Option<String>, OutOfMemory>
    ensures { IfOk result (λ t. text_in t ≡ joined (text_in first) (text_in later)) }
{
    let Some(mut text) = first else {
        return Ok(later);
    };
    let Some(later) = later else {
        return Ok(Some(text));
    };
    text.push_str(" ")?;
    text.push_str(later.as_str())?;
    Ok(Some(text))
}

// What the chosen options say up to a node and below it, where that is asked for.
fn choices(
    alloc: Global,
    asks: bool,
    row: &Row,
    text: &str,
    earlier: Option<String>,
    below: Option<String>,
) -> Result<Option<String>, OutOfMemory>
    ensures { IfOk result (λ t. text_in t ≡ asked_for asks (joined (text_in earlier) (joined (if is_chosen (seen_row row.now) then Some text.now else None) (text_in below)))) }
{
    if !asks {
        return Ok(None);
    }
    let own = choice(alloc, row, text)?;
    joined(earlier, joined(own, below)?)
}

impl Aside {
    /// Nothing is said.
    pub(crate) const fn nothing() -> Self
        ensures chosen { result.chosen ≡ None }
        ensures caption { result.caption ≡ caption.Absent }
        ensures blank { result.is_blank ≡ true }
    {
        Aside {
            chosen: None,
            caption: Caption::Absent,
            is_blank: true,
        }
    }

    /// How many bytes of text it holds: those that the chosen options say.
    pub(crate) fn len(&self) -> usize
        ensures { result ≡ length (unwrap_or (text_in self.now.chosen) []) }
    {
        match &self.chosen {
            Some(text) => text.len(),
            None => 0,
        }
    }

    /// What is said with a further tree, given the text of its root, whether that is blank, and what the
    /// chosen options say below it.
    pub(crate) fn and_then(
        self,
        alloc: Global,
        wanted: Wanted,
        row: &Row,
        text: &str,
        is_blank: bool,
        below: Option<String>,
    ) -> Result<Self, OutOfMemory>
        requires { is_blank ≡ blank text.now }
        ensures chosen { IfOk result (λ aside. text_in aside.chosen ≡ asked_for wanted.chosen (joined (text_in self.chosen) (joined (if is_chosen (seen_row row.now) then Some text.now else None) (text_in below)))) }
        ensures caption { IfOk result (λ aside. aside.caption ≡ caption_or self.caption (captioning (is_captioning wanted.caption (seen_row row.now)) (blank text.now))) }
        ensures blank { IfOk result (λ aside. aside.is_blank ≡ (self.is_blank && blank text.now)) }
    {
        let Aside {
            chosen: earlier,
            caption: first,
            is_blank: blank_before,
        } = self;
        Ok(Aside {
            chosen: choices(alloc, wanted.chosen, row, text, earlier, below)?,
            caption: captioned(first, wanted.caption, row, is_blank),
            is_blank: blank_before & is_blank,
        })
    }
}
