ghost use Rattle.std.specs.Prelude.{◌≡◌, [], None, IfOk, unwrap_or};
ghost use Rattle.acc_tree.specs.Seen.{seen_row, text_at};
ghost use Rattle.acc_name.specs.Hosts.{host_text};
ghost use Rattle.acc_name.specs.Names.{is_entry, is_range, range_text, control_text, value_of, is_named, asks_content, placeholder_of};
ghost use Rattle.acc_name.specs.Voices.{text_in};

use crate::hosts::{Host, value_or};
use crate::named::How;
use crate::tags::{has_placeholder, is_input, is_select};
use acc_tree::{Attribute, html_tag, is_blank_at, text_at};
use aria_tables::{AriaAttr, Role, named_from_content};
use snap_tree::{OutOfMemory, Row, Text};
use std::alloc::Global;

/// The value of an attribute as a text of its own; the empty text where the row hasn't got it.
pub(crate) fn copied_at(alloc: Global, row: &Row, name: Attribute) -> Result<Text, OutOfMemory>
    ensures { IfOk result (λ t. t ≡ text_at name (seen_row row.now)) }
{
    Text::from_str(alloc, text_at(row, name))
}

fn is_entry(role: Option<Role>) -> bool
    ensures { result ≡ is_entry role }
{
    matches!(
        role,
        Some(Role::Textbox | Role::Searchbox | Role::Combobox | Role::Spinbutton | Role::Slider)
    )
}

fn is_range(role: Option<Role>) -> bool
    ensures { result ≡ is_range role }
{
    matches!(
        role,
        Some(Role::Slider | Role::Spinbutton | Role::Scrollbar | Role::Meter | Role::Progressbar)
    )
}

fn range_text(alloc: Global, row: &Row) -> Result<Text, OutOfMemory>
    ensures { IfOk result (λ t. t ≡ range_text (seen_row row.now)) }
{
    if is_blank_at(row, Attribute::Aria(AriaAttr::Valuetext)) {
        copied_at(alloc, row, Attribute::Aria(AriaAttr::Valuenow))
    } else {
        copied_at(alloc, row, Attribute::Aria(AriaAttr::Valuetext))
    }
}

/// What the chosen options below a node say; the empty text where there is none.
fn chosen_text(alloc: Global, chosen: &Option<String>) -> Result<Text, OutOfMemory>
    ensures { IfOk result (λ t. t ≡ unwrap_or (text_in chosen.now) []) }
{
    match chosen {
        Some(text) => Ok(Text::from_str(alloc, text.as_str())?),
        None => Ok(Text::new(alloc)),
    }
}

fn control_text(
    alloc: Global,
    role: Option<Role>,
    row: &Row,
    chosen: &Option<String>,
) -> Result<Text, OutOfMemory>
    ensures { IfOk result (λ t. t ≡ control_text role (seen_row row.now) (text_in chosen.now)) }
{
    let tag = html_tag(row);
    if is_input(tag) & is_entry(role) {
        copied_at(alloc, row, Attribute::Value)
    } else if is_select(tag) {
        chosen_text(alloc, chosen)
    } else if is_range(role) {
        range_text(alloc, row)
    } else {
        Ok(Text::new(alloc))
    }
}

/// The value that a control says within a name; the empty text for all else.
pub(crate) fn value_of(
    alloc: Global,
    how: How,
    role: Option<Role>,
    row: &Row,
    chosen: &Option<String>,
) -> Result<Text, OutOfMemory>
    ensures { IfOk result (λ t. t ≡ value_of how role (seen_row row.now) (text_in chosen.now)) }
{
    match how {
        How::Own | How::Referred => Ok(Text::new(alloc)),
        How::Inner => control_text(alloc, role, row, chosen),
    }
}

/// The text of an element's own kind that its attributes give, such as `alt`; the empty text where they
/// give none.
pub(crate) fn native_text(alloc: Global, host: Host, row: &Row) -> Result<Text, OutOfMemory>
    ensures { IfOk result (λ t. t ≡ host_text host (seen_row row.now) None) }
{
    match host {
        Host::Alternative => copied_at(alloc, row, Attribute::Alt),
        Host::Submit => Text::from_str(alloc, value_or(row, "Submit")),
        Host::Reset => Text::from_str(alloc, value_or(row, "Reset")),
        Host::Plain => copied_at(alloc, row, Attribute::Value),
        Host::Group => copied_at(alloc, row, Attribute::Label),
        Host::Captioned(_) | Host::Nothing => Ok(Text::new(alloc)),
    }
}

/// Whether what the children say can name the node.
pub(crate) fn asks_content(how: How, role: Option<Role>) -> bool
    ensures { result ≡ asks_content how role }
{
    match how {
        How::Own => match role {
            Some(role) => named_from_content(role),
            None => false,
        },
        How::Referred | How::Inner => true,
    }
}

/// The placeholder of an `input` or `textarea`; the empty text for all else.
pub(crate) fn placeholder_of(alloc: Global, row: &Row) -> Result<Text, OutOfMemory>
    ensures { IfOk result (λ t. t ≡ placeholder_of (seen_row row.now)) }
{
    if has_placeholder(html_tag(row)) {
        copied_at(alloc, row, Attribute::Placeholder)
    } else {
        Ok(Text::new(alloc))
    }
}
