ghost use Rattle.std.specs.Prelude.{◌≡◌};
ghost use Rattle.std.specs.Option.{option_copied};
ghost use Rattle.aria_tables.specs.Roles.{role_of};
ghost use Rattle.texts.specs.Words.{words};
ghost use Rattle.acc_tree.specs.Seen.{seen_row};
ghost use Rattle.acc_tree.specs.Roles.{first_known, named_role, is_presentational, is_focusable, is_global_name};
ghost use Rattle.acc_tree.specs.Roles.{has_global, conflicts, unless_conflicting, explicit, table_role, is_labelled};
ghost use Rattle.acc_tree.specs.Roles.{is_empty_text, is_above_one, shows_several, shows_list, with_suggestions};
ghost use Rattle.acc_tree.specs.Roles.{input_role, is_grid, in_grid, heads_rows, link_role, of_page, form_role};
ghost use Rattle.acc_tree.specs.Roles.{section_role, image_role, item_role, select_role, cell_role, header_role};
ghost use Rattle.acc_tree.specs.Roles.{tag_role, implicit, role_at, is_decoration, decorative};

use crate::aria::aria_attrs;
use crate::attributes::{Attribute, attr, has, is_blank_at, is_word_at};
use crate::inputs::{InputType, input_type};
use crate::lent::Above;
use crate::numbers::whole_number;
use crate::tags::{Tag, html_tag};
use aria_tables::{AriaAttr, Role, attr_of, is_global, role_of};
use snap_tree::{Facts, Row, Text, next_word};

// The first known role among the words of a text.
fn first_known(text: &str) -> Option<Role>
    ensures { result ≡ first_known (words text.now) }
{
    let mut rest = text;
    while let Some((word, later)) = next_word(rest) {
        let known = role_of(word.as_bytes());
        if known.is_some() {
            return known;
        }
        rest = later;
    }
    None
}

fn named_role(row: &Row) -> Option<Role>
    ensures { result ≡ named_role (seen_row row.now) }
{
    match attr(row, Attribute::RoleAttr) {
        Some(text) => first_known(text.as_str()),
        None => None,
    }
}

pub(crate) fn is_presentational(role: Role) -> bool
    ensures { result ≡ is_presentational role }
{
    matches!(role, Role::NoneRole | Role::Presentation)
}

fn is_focusable(facts: Facts) -> bool
    ensures { result ≡ is_focusable facts }
{
    facts.focusable | facts.tabbable
}

fn is_global_name(name: &str) -> bool
    ensures { result ≡ is_global_name name.now }
{
    match attr_of(name.as_bytes()) {
        Some(attr) => is_global(attr),
        None => false,
    }
}

fn has_global(row: &Row) -> bool
    ensures { result ≡ has_global (seen_row row.now) }
{
    aria_attrs(row).any(|attr| is_global_name(attr.name.as_str()))
}

fn unless_conflicting(row: &Row, named: Option<Role>) -> Option<Role>
    ensures { result ≡ unless_conflicting (seen_row row.now) named }
{
    let role = named?;
    if is_presentational(role) & (is_focusable(row.facts) || has_global(row)) {
        None
    } else {
        Some(role)
    }
}

/// The explicit role of a row: the first known role that its attribute `role` names. A role of none or
/// presentation doesn't count where the element is focusable or has a global attribute.
pub fn explicit_at(row: &Row) -> Option<Role>
    ensures { result ≡ explicit (seen_row row.now) }
{
    unless_conflicting(row, named_role(row))
}

/// The role of an HTML `table`: the explicit one, else table. It doesn't depend on what is above it.
pub(crate) fn table_role(row: &Row) -> Option<Role>
    ensures { result ≡ table_role (seen_row row.now) }
{
    match explicit_at(row) {
        Some(role) => Some(role),
        None => Some(Role::TableRole),
    }
}

fn is_labelled(row: &Row) -> bool
    ensures { result ≡ is_labelled (seen_row row.now) }
{
    !is_blank_at(row, Attribute::Aria(AriaAttr::Label))
        || !is_blank_at(row, Attribute::Aria(AriaAttr::Labelledby))
        || !is_blank_at(row, Attribute::Title)
}

fn is_empty_text(value: Option<&Text>) -> bool
    ensures { result ≡ is_empty_text (option_copied value.entry) }
{
    match value {
        Some(text) => text.is_empty(),
        None => false,
    }
}

fn is_above_one(number: Option<u64>) -> bool
    ensures { result ≡ is_above_one number }
{
    match number {
        Some(number) => number > 1,
        None => false,
    }
}

fn shows_several(row: &Row) -> bool
    ensures { result ≡ shows_several (seen_row row.now) }
{
    match attr(row, Attribute::Size) {
        Some(size) => is_above_one(whole_number(size.as_str())),
        None => false,
    }
}

fn shows_list(row: &Row) -> bool
    ensures { result ≡ shows_list (seen_row row.now) }
{
    has(row, Attribute::Multiple) || shows_several(row)
}

fn with_suggestions(row: &Row, role: Role) -> Role
    ensures { result ≡ with_suggestions (seen_row row.now) role }
{
    if has(row, Attribute::ListAttr) {
        Role::Combobox
    } else {
        role
    }
}

fn input_role(row: &Row, kind: InputType) -> Option<Role>
    ensures { result ≡ input_role (seen_row row.now) kind }
{
    match kind {
        InputType::Button | InputType::Image | InputType::Reset | InputType::Submit => Some(
            Role::Button,
        ),
        InputType::Checkbox => Some(Role::Checkbox),
        InputType::Radio => Some(Role::Radio),
        InputType::Range => Some(Role::Slider),
        InputType::Number => Some(Role::Spinbutton),
        InputType::Search => Some(with_suggestions(row, Role::Searchbox)),
        InputType::TextField => Some(with_suggestions(row, Role::Textbox)),
        InputType::Color
        | InputType::Date
        | InputType::DatetimeLocal
        | InputType::File
        | InputType::Hidden
        | InputType::Month
        | InputType::Password
        | InputType::Time
        | InputType::Week => None,
    }
}

fn in_grid(above: &Above<'_>) -> bool
    ensures { result ≡ in_grid above.now }
{
    match above.table() {
        Some(table) => matches!(table.role, Some(Role::Grid | Role::Treegrid)),
        None => false,
    }
}

fn heads_rows(row: &Row) -> bool
    ensures { result ≡ heads_rows (seen_row row.now) }
{
    is_word_at(row, Attribute::Scope, "row") || is_word_at(row, Attribute::Scope, "rowgroup")
}

fn link_role(row: &Row) -> Role
    ensures { result ≡ link_role (seen_row row.now) }
{
    if has(row, Attribute::Href) {
        Role::Link
    } else {
        Role::Generic
    }
}

fn of_page(above: &Above<'_>, role: Role) -> Role
    ensures { result ≡ of_page above.now role }
{
    if above.in_section {
        Role::Generic
    } else {
        role
    }
}

fn form_role(row: &Row) -> Option<Role>
    ensures { result ≡ form_role (seen_row row.now) }
{
    if is_labelled(row) {
        Some(Role::Form)
    } else {
        None
    }
}

fn section_role(row: &Row) -> Role
    ensures { result ≡ section_role (seen_row row.now) }
{
    if is_labelled(row) {
        Role::Region
    } else {
        Role::Generic
    }
}

fn image_role(row: &Row) -> Role
    ensures { result ≡ image_role (seen_row row.now) }
{
    if is_empty_text(attr(row, Attribute::Alt)) {
        Role::Presentation
    } else {
        Role::Img
    }
}

fn item_role(above: &Above<'_>) -> Role
    ensures { result ≡ item_role above.now }
{
    if above.in_list {
        Role::Listitem
    } else {
        Role::Generic
    }
}

fn select_role(row: &Row) -> Role
    ensures { result ≡ select_role (seen_row row.now) }
{
    if shows_list(row) {
        Role::Listbox
    } else {
        Role::Combobox
    }
}

fn cell_role(above: &Above<'_>) -> Role
    ensures { result ≡ cell_role above.now }
{
    if in_grid(above) {
        Role::Gridcell
    } else {
        Role::Cell
    }
}

fn header_role(row: &Row) -> Role
    ensures { result ≡ header_role (seen_row row.now) }
{
    if heads_rows(row) {
        Role::Rowheader
    } else {
        Role::Columnheader
    }
}

#[tactic(auto, unfolding(crate::specs::Roles::tag_role))]
pub(crate) fn tag_role(above: &Above<'_>, row: &Row, tag: Tag) -> Option<Role>
    ensures { result ≡ tag_role above.now (seen_row row.now) tag }
{
    match tag {
        Tag::A | Tag::Area => Some(link_role(row)),
        Tag::Address | Tag::Details | Tag::Fieldset | Tag::Optgroup => Some(Role::Group),
        Tag::Article => Some(Role::Article),
        Tag::Blockquote => Some(Role::Blockquote),
        Tag::Button => Some(Role::Button),
        Tag::Caption => Some(Role::Caption),
        Tag::Code => Some(Role::Code),
        Tag::Dialog => Some(Role::Dialog),
        Tag::Figure => Some(Role::Figure),
        Tag::Main => Some(Role::Main),
        Tag::Meter => Some(Role::Meter),
        Tag::OptionTag => Some(Role::OptionRole),
        Tag::Search => Some(Role::Search),
        Tag::Strong => Some(Role::Strong),
        Tag::Table => Some(Role::TableRole),
        Tag::Time => Some(Role::Time),
        Tag::Aside => Some(Role::Complementary),
        Tag::Nav => Some(Role::Navigation),
        Tag::B | Tag::Bdi | Tag::Bdo | Tag::BodyTag | Tag::Div | Tag::I => Some(Role::Generic),
        Tag::Pre | Tag::Q | Tag::Samp | Tag::Small | Tag::Span | Tag::U => Some(Role::Generic),
        Tag::Datalist => Some(Role::Listbox),
        Tag::Dd => Some(Role::Definition),
        Tag::Dfn | Tag::Dt => Some(Role::Term),
        Tag::Del | Tag::S => Some(Role::Deletion),
        Tag::Ins => Some(Role::Insertion),
        Tag::Em => Some(Role::Emphasis),
        Tag::Footer => Some(of_page(above, Role::Contentinfo)),
        Tag::Header => Some(of_page(above, Role::Banner)),
        Tag::Form => form_role(row),
        Tag::Section => Some(section_role(row)),
        Tag::H1 | Tag::H2 | Tag::H3 | Tag::H4 | Tag::H5 | Tag::H6 => Some(Role::Heading),
        Tag::Hr => Some(Role::Separator),
        Tag::Html => Some(Role::DocumentRole),
        Tag::Output => Some(Role::Status),
        Tag::Img => Some(image_role(row)),
        Tag::Input => input_role(row, input_type(row)),
        Tag::Li => Some(item_role(above)),
        Tag::Menu | Tag::Ol | Tag::Ul => Some(Role::ListRole),
        Tag::P => Some(Role::Paragraph),
        Tag::Progress => Some(Role::Progressbar),
        Tag::Select => Some(select_role(row)),
        Tag::Sub => Some(Role::Subscript),
        Tag::Sup => Some(Role::Superscript),
        Tag::Tbody | Tag::Tfoot | Tag::Thead => Some(Role::Rowgroup),
        Tag::Tr => Some(Role::RowRole),
        Tag::Td => Some(cell_role(above)),
        Tag::Textarea => Some(Role::Textbox),
        Tag::Th => Some(header_role(row)),
        Tag::Abbr | Tag::Cite | Tag::Figcaption | Tag::Iframe | Tag::Kbd | Tag::Label => None,
        Tag::Legend | Tag::Mark | Tag::Meta | Tag::Summary | Tag::Title | Tag::Var => None,
    }
}

/// The implicit role of a row, given what is above it. Only HTML elements have one.
pub fn implicit_at(above: &Above<'_>, row: &Row) -> Option<Role>
    ensures { result ≡ implicit above.now (seen_row row.now) }
{
    match html_tag(row) {
        Some(tag) => tag_role(above, row, tag),
        None => None,
    }
}

/// The role of a row, given what is above it: the explicit role, else the implicit one.
pub fn role_at(above: &Above<'_>, row: &Row) -> Option<Role>
    ensures { result ≡ role_at above.now (seen_row row.now) }
{
    match explicit_at(row) {
        Some(role) => Some(role),
        None => implicit_at(above, row),
    }
}

/// Whether a row's role is none or presentation, given what is above it.
pub fn decorative_at(above: &Above<'_>, row: &Row) -> bool
    ensures { result ≡ decorative above.now (seen_row row.now) }
{
    match role_at(above, row) {
        Some(role) => is_presentational(role),
        None => false,
    }
}
