ghost use Rattle.std.specs.Prelude.{◌≡◌, [], ◌∷◌, ◌++◌, ◌&&◌, not, take, drop, IfOk, OnOk, IfSome, IsCharBoundary, false, unwrap_or};
ghost use Rattle.std.specs.String.{string_bytes};
ghost use Rattle.aria_tables.specs.declared.attr.AriaAttr.TheVariants as aria;
ghost use Rattle.texts.specs.Words.{blank};
ghost use Rattle.acc_tree.specs.declared.attributes.Attribute.TheVariants as attribute;
ghost use Rattle.acc_tree.specs.Seen.{seen_row, text_at};
ghost use Rattle.acc_name.specs.declared.named.NameSource.TheVariants as source;
ghost use Rattle.acc_name.specs.Names.{no_name, says, first_said, is_inner, is_shown, is_silent, placeholder_of, value_of, by_clauses, said};
ghost use Rattle.acc_name.specs.Voices.{text_in, told_within, first_of, said_by, from_content, from_kind, from_labels, from_value};

use crate::captions::is_captioned;
use crate::heard::Inner;
use crate::hosts::host_of;
use crate::named::{How, Name, NameSource};
use crate::told::{Scope, Told};
use crate::values::{asks_content, copied_at, native_text, placeholder_of, value_of};
use acc_tree::{Attribute, is_hidden};
use aria_tables::{AriaAttr, Role};
use snap_tree::{Body, NodeId, OutOfMemory, Row, Text, blank};
use std::alloc::Global;

/// Which clause gave a text, and whether the text is blank.
#[derive(Clone, Copy, Debug)]
pub(crate) struct Said {
    pub(crate) source: NameSource,
    pub(crate) is_blank: bool,
}

/// No clause gives a text.
pub(crate) fn no_name(alloc: Global) -> Name
    ensures { result ≡ no_name }
{
    Name {
        text: Text::new(alloc),
        source: NameSource::Nothing,
    }
}

// The text that an attribute gives by a clause, unless it is blank.
fn unless_blank(source: NameSource, text: Text) -> Option<Name>
    ensures { result ≡ first_of (says source text ∷ []) }
{
    if blank(&text) {
        None
    } else {
        Some(Name { text, source })
    }
}

// The title, and then the placeholder.
fn by_hints(alloc: Global, row: &Row) -> Result<Option<Name>, OutOfMemory>
    ensures { IfOk result (λ name. name ≡ first_of (
        says source.Title (text_at attribute.Title (seen_row row.now))
        ∷ says source.Placeholder (placeholder_of (seen_row row.now))
        ∷ [])) }
{
    let title = copied_at(alloc, row, Attribute::Title)?;
    if !blank(&title) {
        return Ok(Some(Name {
            text: title,
            source: NameSource::Title,
        }));
    }
    let placeholder = placeholder_of(alloc, row)?;
    Ok(unless_blank(NameSource::Placeholder, placeholder))
}

// The value, where one is spoken in place of content, and then the attribute aria-label.
fn by_value(
    alloc: Global,
    how: How,
    role: Option<Role>,
    row: &Row,
    chosen: &Option<String>,
) -> Result<Option<Name>, OutOfMemory>
    ensures { IfOk result (λ name. name ≡ first_of (
        says source.HostText (value_of how role (seen_row row.now) (text_in chosen.now))
        ∷ says source.AriaLabel (text_at (attribute.Aria aria.Label) (seen_row row.now))
        ∷ [])) }
{
    let value = value_of(alloc, how, role, row, chosen)?;
    if !blank(&value) {
        return Ok(Some(Name {
            text: value,
            source: NameSource::HostText,
        }));
    }
    let label = copied_at(alloc, row, Attribute::Aria(AriaAttr::Label))?;
    Ok(unless_blank(NameSource::AriaLabel, label))
}

// Puts a text in the place of what the children say.
fn replaced(
    content: &mut String,
    mark: usize,
    source: NameSource,
    text: &str,
    is_blank: bool,
) -> Result<Said, OutOfMemory>
    requires boundary { IsCharBoundary (string_bytes content.old) mark }
    requires blank { is_blank ≡ blank text.now }
    ensures text { OnOk result (string_bytes content.new ≡ take mark (string_bytes content.old) ++ text.now) }
    ensures decides { IfOk result (λ s. s ≡ said_by (says source text.now)) }
{
    content.truncate(mark);
    content.push_str(text)?;
    Ok(Said { source, is_blank })
}

// Puts a name that isn't blank in the place of what the children say, and nothing where there is none.
#[tactic(auto, using(crate::proofs::Blanks::blank_nothing))]
fn replaced_by(content: &mut String, mark: usize, name: Option<Name>) -> Result<Said, OutOfMemory>
    requires boundary { IsCharBoundary (string_bytes content.old) mark }
    requires speaks { IfSome name (λ name. blank name.text ≡ false) }
    ensures text { OnOk result (string_bytes content.new ≡ take mark (string_bytes content.old) ++ (unwrap_or name no_name).text) }
    ensures decides { IfOk result (λ s. s ≡ said_by (unwrap_or name no_name)) }
{
    match name {
        Some(name) => replaced(content, mark, name.source, name.text.as_str(), false),
        None => replaced(content, mark, NameSource::Nothing, "", true),
    }
}

// The children's texts with those of the elements that it owns besides, and then the title and the placeholder.
fn by_content(
    alloc: Global,
    how: How,
    role: Option<Role>,
    row: &Row,
    owned: &Text,
    is_blank: bool,
    mark: usize,
    content: &mut String,
) -> Result<Said, OutOfMemory>
    requires boundary { IsCharBoundary (string_bytes content.old) mark }
    requires blank { is_blank ≡ blank (drop mark (string_bytes content.old)) }
    ensures text { OnOk result (string_bytes content.new ≡ take mark (string_bytes content.old) ++ (first_said (from_content how role (seen_row row.now) (drop mark (string_bytes content.old) ++ owned.now))).text) }
    ensures decides { IfOk result (λ s. s ≡ said_by (first_said (from_content how role (seen_row row.now) (drop mark (string_bytes content.old) ++ owned.now)))) }
{
    let counts = asks_content(how, role) & !(is_blank & blank(owned));
    if counts {
        content.push_str(owned.as_str())?;
        return Ok(Said {
            source: NameSource::Content,
            is_blank: false,
        });
    }
    let hint = by_hints(alloc, row)?;
    replaced_by(content, mark, hint)
}

// The text of the element's kind, and then the clauses after it. A caption stands in its place already.
fn by_kind(
    alloc: Global,
    how: How,
    role: Option<Role>,
    row: &Row,
    owned: &Text,
    inner: Inner<'_>,
    mark: usize,
    content: &mut String,
) -> Result<Said, OutOfMemory>
    requires boundary { IsCharBoundary (string_bytes content.old) mark }
    requires blank { inner.is_blank ≡ blank (drop mark (string_bytes content.old)) }
    ensures text { OnOk result (string_bytes content.new ≡ take mark (string_bytes content.old) ++ (first_said (from_kind how role (seen_row row.now) owned.now (told_within inner.entry (drop mark (string_bytes content.old))))).text) }
    ensures decides { IfOk result (λ s. s ≡ said_by (first_said (from_kind how role (seen_row row.now) owned.now (told_within inner.entry (drop mark (string_bytes content.old)))))) }
{
    let Inner {
        caption,
        is_blank,
        ..
    } = inner;
    let host = host_of(row);
    if is_captioned(host, caption, is_blank) {
        return Ok(Said {
            source: NameSource::HostText,
            is_blank,
        });
    }
    let text = native_text(alloc, host, row)?;
    let native = unless_blank(NameSource::HostText, text);
    if native.is_some() {
        return replaced_by(content, mark, native);
    }
    by_content(alloc, how, role, row, owned, is_blank, mark, content)
}

// The labels, and then the text of the element's kind with the clauses after it.
#[tactic(auto, using(crate::proofs::Choosing::says_decides, crate::proofs::Choosing::says_passes))]
fn by_labels(
    alloc: Global,
    told: &Told,
    how: How,
    role: Option<Role>,
    row: &Row,
    inner: Inner<'_>,
    mark: usize,
    content: &mut String,
) -> Result<Said, OutOfMemory>
    requires boundary { IsCharBoundary (string_bytes content.old) mark }
    requires blank { inner.is_blank ≡ blank (drop mark (string_bytes content.old)) }
    ensures text { OnOk result (string_bytes content.new ≡ take mark (string_bytes content.old) ++ (first_said (from_labels told.now how role (seen_row row.now) (told_within inner.entry (drop mark (string_bytes content.old))))).text) }
    ensures decides { IfOk result (λ s. s ≡ said_by (first_said (from_labels told.now how role (seen_row row.now) (told_within inner.entry (drop mark (string_bytes content.old)))))) }
{
    let labels = &told.labels;
    if !blank(labels) {
        let source = NameSource::HostLabel;
        return replaced(content, mark, source, labels.as_str(), false);
    }
    by_kind(alloc, how, role, row, &told.owned, inner, mark, content)
}

// The value and the attribute aria-label, and then the labels with the clauses after them.
fn by_own(
    alloc: Global,
    told: &Told,
    how: How,
    role: Option<Role>,
    row: &Row,
    inner: Inner<'_>,
    mark: usize,
    content: &mut String,
) -> Result<Said, OutOfMemory>
    requires boundary { IsCharBoundary (string_bytes content.old) mark }
    requires blank { inner.is_blank ≡ blank (drop mark (string_bytes content.old)) }
    ensures text { OnOk result (string_bytes content.new ≡ take mark (string_bytes content.old) ++ (first_said (from_value told.now how role (seen_row row.now) (told_within inner.entry (drop mark (string_bytes content.old))))).text) }
    ensures decides { IfOk result (λ s. s ≡ said_by (first_said (from_value told.now how role (seen_row row.now) (told_within inner.entry (drop mark (string_bytes content.old)))))) }
{
    let own = by_value(alloc, how, role, row, inner.chosen)?;
    if own.is_some() {
        return replaced_by(content, mark, own);
    }
    by_labels(alloc, told, how, role, row, inner, mark, content)
}

#[tactic(auto, using(crate::proofs::Choosing::says_decides, crate::proofs::Choosing::says_passes))]
fn by_clauses(
    alloc: Global,
    told: &Told,
    how: How,
    role: Option<Role>,
    row: &Row,
    inner: Inner<'_>,
    mark: usize,
    content: &mut String,
) -> Result<Said, OutOfMemory>
    requires boundary { IsCharBoundary (string_bytes content.old) mark }
    requires blank { inner.is_blank ≡ blank (drop mark (string_bytes content.old)) }
    ensures text { OnOk result (string_bytes content.new ≡ take mark (string_bytes content.old) ++ (by_clauses told.now how role (seen_row row.now) (told_within inner.entry (drop mark (string_bytes content.old)))).text) }
    ensures decides { IfOk result (λ s. s ≡ said_by (by_clauses told.now how role (seen_row row.now) (told_within inner.entry (drop mark (string_bytes content.old))))) }
{
    let labelled_by = &told.labelled_by;
    if !blank(labelled_by) {
        let source = NameSource::LabelledBy;
        return replaced(content, mark, source, labelled_by.as_str(), false);
    }
    by_own(alloc, told, how, role, row, inner, mark, content)
}

fn is_inner(how: How) -> bool
    ensures { result ≡ is_inner how }
{
    match how {
        How::Own | How::Referred => false,
        How::Inner => true,
    }
}

fn is_shown(row: &Row) -> bool
    ensures { result ≡ is_shown (seen_row row.now) }
{
    row.facts.rendered & row.facts.visible & !is_hidden(row)
}

fn is_silent(node: NodeId, hidden: bool, how: How, row: &Row) -> bool
    ensures { result ≡ is_silent node hidden how (seen_row row.now) }
{
    is_inner(how) & (row.id.0 == node.0) | !hidden & !is_shown(row)
}

/// Makes what a node says of what is kept of those below it, which stands from the mark on, given what
/// references say of the node and its role.
pub(crate) fn say(
    alloc: Global,
    scope: Scope,
    told: &Told,
    how: How,
    role: Option<Role>,
    row: &Row,
    inner: Inner<'_>,
    mark: usize,
    content: &mut String,
) -> Result<Said, OutOfMemory>
    requires boundary { IsCharBoundary (string_bytes content.old) mark }
    requires blank { inner.is_blank ≡ blank (drop mark (string_bytes content.old)) }
    ensures text { OnOk result (string_bytes content.new ≡ take mark (string_bytes content.old) ++ (said scope.node scope.hidden told.now how role (seen_row row.now) (told_within inner.entry (drop mark (string_bytes content.old)))).text) }
    ensures decides { IfOk result (λ s. s ≡ said_by (said scope.node scope.hidden told.now how role (seen_row row.now) (told_within inner.entry (drop mark (string_bytes content.old))))) }
{
    if is_silent(scope.node, scope.hidden, how, row) {
        return replaced_by(content, mark, None);
    }
    match row.body.get() {
        Body::Element { .. } => by_clauses(alloc, told, how, role, row, inner, mark, content),
        Body::Words { text } => {
            let is_blank = blank(text);
            replaced(content, mark, NameSource::Content, text.as_str(), is_blank)
        }
    }
}
