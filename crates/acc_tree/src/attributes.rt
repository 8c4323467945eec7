ghost use Rattle.std.specs.Prelude.{◌≡◌};
ghost use Rattle.std.specs.Option.{option_copied};
ghost use Rattle.acc_tree.specs.Attributes.{attribute_name};
ghost use Rattle.acc_tree.specs.Seen.{seen_row, attr, has, text_at, is_blank_at, is_word_at};

use aria_tables::AriaAttr;
use snap_tree::{Row, Text, blank, same_folded};

/// The attributes that roles, names and rules ask for by name. A variant is the name with capitals;
/// where that would hide another word of contracts, `Attr` follows.
#[derive(Clone, Copy, Debug, PartialEq, Eq, Hash)]
pub enum Attribute {
    Alt,
    Autocomplete,
    Colspan,
    Content,
    Disabled,
    For,
    Headers,
    Href,
    HttpEquiv,
    Id,
    Label,
    Lang,
    ListAttr,
    Multiple,
    Name,
    Placeholder,
    RoleAttr,
    Rowspan,
    Scope,
    Selected,
    Size,
    Title,
    TypeAttr,
    Value,
    XmlLang,
    /// A state or property of WAI-ARIA, whose name begins `aria-`.
    Aria(AriaAttr),
}

impl Attribute {
    /// The attribute's name in lower case.
    #[tactic(auto, unfolding(crate::specs::Attributes::attribute_name))]
    pub fn name(self) -> &'static str
        ensures { result.now ≡ attribute_name self }
    {
        match self {
            Attribute::Alt => "alt",
            Attribute::Autocomplete => "autocomplete",
            Attribute::Colspan => "colspan",
            Attribute::Content => "content",
            Attribute::Disabled => "disabled",
            Attribute::For => "for",
            Attribute::Headers => "headers",
            Attribute::Href => "href",
            Attribute::HttpEquiv => "http-equiv",
            Attribute::Id => "id",
            Attribute::Label => "label",
            Attribute::Lang => "lang",
            Attribute::ListAttr => "list",
            Attribute::Multiple => "multiple",
            Attribute::Name => "name",
            Attribute::Placeholder => "placeholder",
            Attribute::RoleAttr => "role",
            Attribute::Rowspan => "rowspan",
            Attribute::Scope => "scope",
            Attribute::Selected => "selected",
            Attribute::Size => "size",
            Attribute::Title => "title",
            Attribute::TypeAttr => "type",
            Attribute::Value => "value",
            Attribute::XmlLang => "xml:lang",
            Attribute::Aria(attr) => attr.name(),
        }
    }
}

/// The value of an attribute, as sent; None where the node hasn't got it.
#[tactic(auto, using(crate::proofs::Seeing::attr_seen))]
pub fn attr(row: &Row, name: Attribute) -> Option<&Text>
    ensures { option_copied result ≡ attr name (seen_row row.now) }
{
    row.attribute(name.name())
}

/// The value of an attribute, as sent; no character where the node hasn't got it.
pub fn text_at(row: &Row, name: Attribute) -> &str
    ensures { result.now ≡ text_at name (seen_row row.now) }
{
    match attr(row, name) {
        Some(value) => value.as_str(),
        None => "",
    }
}

/// Whether the node has an attribute, be its value blank.
pub fn has(row: &Row, name: Attribute) -> bool
    ensures { result ≡ has name (seen_row row.now) }
{
    attr(row, name).is_some()
}

/// Whether an attribute is blank: it has only white space or no character, or isn't there.
pub fn is_blank_at(row: &Row, name: Attribute) -> bool
    ensures { result ≡ is_blank_at name (seen_row row.now) }
{
    match attr(row, name) {
        Some(value) => blank(value),
        None => true,
    }
}

/// Whether the whole value of an attribute is this word, which compares ASCII case-insensitively.
pub fn is_word_at(row: &Row, name: Attribute, word: &str) -> bool
    ensures { result ≡ is_word_at name word.now (seen_row row.now) }
{
    match attr(row, name) {
        Some(value) => same_folded(word, value.as_str()),
        None => false,
    }
}
