ghost use Rattle.std.specs.Prelude.{◌≡◌};
ghost use Rattle.std.specs.List.{list_all};
ghost use Rattle.aria_tables.specs.Tokens.{tokens};
ghost use Rattle.aria_tables.specs.Words.{is_among};
ghost use Rattle.aria_tables.specs.Values.{value_kind, value_words, value_ok};

use crate::attr::AriaAttr;
use crate::number::{is_number, is_whole_number};
use crate::tokens::{has_token, is_one_token, text_of};
use crate::word::is_among;
use texts::next_word;

/// The kinds of values (WAI-ARIA 1.2, "Value"). Words and tokens compare ASCII case-insensitively, and a
/// value compares whole. Tokens are the parts between runs of Unicode's White_Space.
#[derive(Clone, Copy, Debug, PartialEq, Eq, Hash)]
pub enum ValueKind {
    /// `true` or `false`.
    Truth,
    /// `true`, `false` or `undefined`.
    TruthOrUndefined,
    /// `true`, `false`, `mixed` or `undefined`.
    Tristate,
    /// One of the attribute's own words.
    Token,
    /// One or more tokens, each one of the attribute's own words.
    TokenList,
    /// An optional `-`, then digits.
    WholeNumber,
    /// An optional `+` or `-`, then digits, and optionally a point and digits.
    Number,
    /// Exactly one token.
    Id,
    /// One or more tokens.
    IdList,
    /// Any text, also an empty one.
    Anything,
}

/// The kind of value that an attribute has.
pub fn value_kind(attr: AriaAttr) -> ValueKind
    ensures { result ≡ value_kind attr }
{
    match attr {
        AriaAttr::Atomic
        | AriaAttr::Busy
        | AriaAttr::Disabled
        | AriaAttr::Modal
        | AriaAttr::Multiline
        | AriaAttr::Multiselectable
        | AriaAttr::Readonly
        | AriaAttr::Required => ValueKind::Truth,
        AriaAttr::Expanded | AriaAttr::Grabbed | AriaAttr::Hidden | AriaAttr::Selected =>
            ValueKind::TruthOrUndefined,
        AriaAttr::Checked | AriaAttr::Pressed => ValueKind::Tristate,
        AriaAttr::Autocomplete
        | AriaAttr::Current
        | AriaAttr::Haspopup
        | AriaAttr::Invalid
        | AriaAttr::Live
        | AriaAttr::Orientation
        | AriaAttr::Sort => ValueKind::Token,
        AriaAttr::Dropeffect | AriaAttr::Relevant => ValueKind::TokenList,
        AriaAttr::Colcount
        | AriaAttr::Colindex
        | AriaAttr::Colspan
        | AriaAttr::Level
        | AriaAttr::Posinset
        | AriaAttr::Rowcount
        | AriaAttr::Rowindex
        | AriaAttr::Rowspan
        | AriaAttr::Setsize => ValueKind::WholeNumber,
        AriaAttr::Valuemax | AriaAttr::Valuemin | AriaAttr::Valuenow => ValueKind::Number,
        AriaAttr::Activedescendant | AriaAttr::Details | AriaAttr::Errormessage => ValueKind::Id,
        AriaAttr::Controls
        | AriaAttr::Describedby
        | AriaAttr::Flowto
        | AriaAttr::Labelledby
        | AriaAttr::Owns => ValueKind::IdList,
        AriaAttr::Keyshortcuts
        | AriaAttr::Label
        | AriaAttr::Placeholder
        | AriaAttr::Roledescription
        | AriaAttr::Valuetext => ValueKind::Anything,
    }
}

// Whether a value, or a token of it, is one of the attribute's own words.
fn is_own_word(attr: AriaAttr, value: &[u8]) -> bool
    ensures { result ≡ is_among (value_words attr) value.now }
{
    match attr {
        AriaAttr::Autocomplete => is_among(value, &["inline", "list", "both", "none"]),
        AriaAttr::Current => is_among(
            value,
            &["page", "step", "location", "date", "time", "true", "false"],
        ),
        AriaAttr::Haspopup => is_among(
            value,
            &["false", "true", "menu", "listbox", "tree", "grid", "dialog"],
        ),
        AriaAttr::Invalid => is_among(value, &["grammar", "false", "spelling", "true"]),
        AriaAttr::Live => is_among(value, &["assertive", "off", "polite"]),
        AriaAttr::Orientation => is_among(value, &["horizontal", "undefined", "vertical"]),
        AriaAttr::Sort => is_among(value, &["ascending", "descending", "none", "other"]),
        AriaAttr::Dropeffect => is_among(
            value,
            &["copy", "execute", "link", "move", "none", "popup"],
        ),
        AriaAttr::Relevant => is_among(value, &["additions", "all", "removals", "text"]),
        _ => false,
    }
}

fn all_own_words(attr: AriaAttr, value: &[u8]) -> bool
    ensures { result ≡ list_all (is_among (value_words attr)) (tokens value.now) }
{
    let mut rest = text_of(value);
    while let Some((token, later)) = next_word(rest) {
        if !is_own_word(attr, token.as_bytes()) {
            return false;
        }
        rest = later;
    }
    true
}

/// Whether this is a value that the attribute may have: one of its kind. Bytes that are no UTF-8 have no
/// token.
#[tactic(auto, unfolding(crate::specs::Values::value_ok))]
pub fn value_ok(attr: AriaAttr, value: &[u8]) -> bool
    ensures { result ≡ value_ok attr value.now }
{
    match value_kind(attr) {
        ValueKind::Truth => is_among(value, &["true", "false"]),
        ValueKind::TruthOrUndefined => is_among(value, &["true", "false", "undefined"]),
        ValueKind::Tristate => is_among(value, &["true", "false", "mixed", "undefined"]),
        ValueKind::Token => is_own_word(attr, value),
        ValueKind::TokenList => has_token(value) & all_own_words(attr, value),
        ValueKind::WholeNumber => is_whole_number(value),
        ValueKind::Number => is_number(value),
        ValueKind::Id => is_one_token(value),
        ValueKind::IdList => has_token(value),
        ValueKind::Anything => true,
    }
}
