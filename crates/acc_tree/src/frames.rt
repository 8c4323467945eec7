ghost use Rattle.std.specs.Prelude.{◌≡◌, ◌&&◌, ◌||◌, if◌then◌else◌, option_map};
ghost use Rattle.std.specs.Option.{option_copied};
ghost use Rattle.acc_tree.specs.declared.attributes.Attribute.TheVariants as attribute;
ghost use Rattle.acc_tree.specs.Seen.{seen_row, has};
ghost use Rattle.acc_tree.specs.Roles.{role_at};
ghost use Rattle.acc_tree.specs.Tags.{html_tag};
ghost use Rattle.acc_tree.specs.Frames.{is_sectioning, holds_items, is_table, is_label, is_fieldset, table_at, under};

use crate::attributes::{Attribute, has};
use crate::inclusion::is_hidden;
use crate::lent::Above;
use crate::tags::{Tag, any_tag, in_html};
use snap_tree::{NodeId, Row};

fn is_sectioning(tag: Option<Tag>) -> bool
    ensures { result ≡ is_sectioning tag }
{
    matches!(
        tag,
        Some(Tag::Article | Tag::Aside | Tag::Main | Tag::Nav | Tag::Section)
    )
}

pub(crate) fn holds_items(tag: Option<Tag>) -> bool
    ensures { result ≡ holds_items tag }
{
    matches!(tag, Some(Tag::Ul | Tag::Ol | Tag::Menu))
}

pub(crate) fn is_table(tag: Option<Tag>) -> bool
    ensures { result ≡ is_table tag }
{
    matches!(tag, Some(Tag::Table))
}

fn is_label(tag: Option<Tag>) -> bool
    ensures { result ≡ is_label tag }
{
    matches!(tag, Some(Tag::Label))
}

fn is_fieldset(tag: Option<Tag>) -> bool
    ensures { result ≡ is_fieldset tag }
{
    matches!(tag, Some(Tag::Fieldset))
}

#[tactic(auto, using(crate::proofs::Asking::table_alone))]
fn table_above<'a>(above: &Above<'a>, row: &'a Row, tag: Option<Tag>) -> Option<&'a Row>
    requires { tag ≡ html_tag (seen_row row.now) }
    ensures { option_map (λ row. table_at (seen_row row)) (option_copied result) ≡ (if is_table tag
        then Some (record { node = row.now.id; role = role_at above.now (seen_row row.now) })
        else above.now.table) }
{
    if is_table(tag) {
        Some(row)
    } else {
        above.table
    }
}

fn label_above(above: &Above<'_>, row: &Row, tag: Option<Tag>) -> Option<NodeId>
    ensures { result ≡ (if is_label tag then Some row.now.id else above.now.label) }
{
    if is_label(tag) {
        Some(row.id)
    } else {
        above.label
    }
}

fn is_disabled(above: &Above<'_>, row: &Row, tag: Option<Tag>) -> bool
    ensures { result ≡ (above.now.disabled
        || (is_fieldset tag && has attribute.Disabled (seen_row row.now))) }
{
    above.disabled || (is_fieldset(tag) && has(row, Attribute::Disabled))
}

/// What is above the children of a row, given what is above the row.
pub fn under<'a>(above: &Above<'a>, row: &'a Row) -> Above<'a>
    ensures { result ≡ under above.now (seen_row row.now) }
{
    let any = any_tag(row);
    let tag = in_html(row, any);
    Above {
        in_section: above.in_section | is_sectioning(any),
        in_list: holds_items(tag),
        table: table_above(above, row, tag),
        label: label_above(above, row, tag),
        hidden: above.hidden | is_hidden(row),
        disabled: is_disabled(above, row, tag),
    }
}
