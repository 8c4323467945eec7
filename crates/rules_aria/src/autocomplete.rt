ghost use Rattle.std.specs.Prelude.{◌≡◌, IfOk};
ghost use Rattle.texts.specs.Words.{words};
ghost use Rattle.aria_tables.specs.Words.{is_among};
ghost use Rattle.acc_tree.specs.Seen.{seen_row};
ghost use Rattle.acc_tree.specs.Tags.{html_tag};
ghost use Rattle.snap_tree.specs.Trees.{Document};
ghost use Rattle.snap_tree.specs.declared.row.NodeId.{NodeId};
ghost use Rattle.rule_sights.specs.Targets.{JudgesRows};
ghost use Rattle.rules_aria.specs.Autocomplete.{begins_section, is_address_kind, is_contact_kind, is_webauthn, is_on_or_off, fields, contact_fields, one, optionally, nothing_more, ending, a_field, a_contact_field, either_field, a_detail, is_accepted, takes_data, is_form_field, is_disabled, asks_for_data, is_autocomplete_target, autocomplete_finding, autocomplete_verdict, autocomplete_is_valid, autocomplete_is_valid_info, autocomplete_is_valid_target};

use crate::token::begins;
use acc_tree::{
    Above, Attribute, InputType, Tag, attr, has, html_tag, included_at, input_type, is_word_at,
};
use aria_tables::{AriaAttr, is_among};
use rule_core::{Class, Finding, Reason, Rule, RuleInfo, RuleNo, Verdict};
use rule_sights::sight_with;
use snap_tree::{NodeId, OutOfMemory, Row, Text, Tree, blank, next_word, same_folded};
use std::alloc::Global;

/// The fields that stand alone (HTML, "Autofill field").
const FIELDS: [&str; 44] = [
    "name",
    "honorific-prefix",
    "given-name",
    "additional-name",
    "family-name",
    "honorific-suffix",
    "nickname",
    "username",
    "new-password",
    "current-password",
    "one-time-code",
    "organization-title",
    "organization",
    "street-address",
    "address-line1",
    "address-line2",
    "address-line3",
    "address-level4",
    "address-level3",
    "address-level2",
    "address-level1",
    "country",
    "country-name",
    "postal-code",
    "cc-name",
    "cc-given-name",
    "cc-additional-name",
    "cc-family-name",
    "cc-number",
    "cc-exp",
    "cc-exp-month",
    "cc-exp-year",
    "cc-csc",
    "cc-type",
    "transaction-currency",
    "transaction-amount",
    "language",
    "bday",
    "bday-day",
    "bday-month",
    "bday-year",
    "sex",
    "url",
    "photo",
];

/// The fields of contact, before which their kind may stand.
const CONTACT_FIELDS: [&str; 10] = [
    "tel",
    "tel-country-code",
    "tel-national",
    "tel-area-code",
    "tel-local",
    "tel-local-prefix",
    "tel-local-suffix",
    "tel-extension",
    "email",
    "impp",
];

/// ACT rule 73f2c2, Autocomplete attribute has valid value
/// (<https://www.w3.org/WAI/standards-guidelines/act/rules/73f2c2/>). Its target is an included HTML
/// select, textarea, or input that is neither hidden nor a button, whose autocomplete isn't blank and
/// isn't the one token `on` or `off`, where neither it nor a `fieldset` above it has `disabled`, and
/// aria-disabled isn't `true`. It fails where the tokens aren't those of a detail (HTML, "Autofill
/// detail tokens"). The evidence is autocomplete.
#[derive(Clone, Copy, Debug, PartialEq, Eq)]
pub struct AutocompleteIsValid;

impl AutocompleteIsValid {
    /// Its number.
    pub const NO: u16 = 17;

    /// What the rule says of itself.
    pub const INFO: RuleInfo = RuleInfo {
        no: RuleNo(Self::NO),
        id: *b"73f2c2",
        applies: Class::SelfOnly,
        expects: Class::SelfOnly,
        inputs: [0; 4],
    };

    /// The law of its targets: on each page it has a verdict exactly where the node is one. It does nothing: the clause
    /// is what it is for.
    #[tactic(auto, using(crate::proofs::Local::fields))]
    pub fn law_of_targets()
        ensures { (page : Document) (n : NodeId) → JudgesRows autocomplete_is_valid autocomplete_is_valid_target page n }
    {}
}

fn begins_section(token: &str) -> bool
    ensures { result ≡ begins_section token.now }
{
    begins(token, "section-")
}

fn is_address_kind(token: &str) -> bool
    ensures { result ≡ is_address_kind token.now }
{
    is_among(token.as_bytes(), &["shipping", "billing"])
}

fn is_contact_kind(token: &str) -> bool
    ensures { result ≡ is_contact_kind token.now }
{
    is_among(
        token.as_bytes(),
        &["home", "work", "mobile", "fax", "pager"],
    )
}

fn is_webauthn(token: &str) -> bool
    ensures { result ≡ is_webauthn token.now }
{
    same_folded(token, "webauthn")
}

fn is_on_or_off(token: &str) -> bool
    ensures { result ≡ is_on_or_off token.now }
{
    is_among(token.as_bytes(), &["on", "off"])
}

fn is_field(token: &str) -> bool
    ensures { result ≡ is_among fields token.now }
{
    is_among(token.as_bytes(), &FIELDS)
}

fn is_contact_field(token: &str) -> bool
    ensures { result ≡ is_among contact_fields token.now }
{
    is_among(token.as_bytes(), &CONTACT_FIELDS)
}

fn nothing_more(text: &str) -> bool
    ensures { result ≡ nothing_more (words text.now) }
{
    next_word(text).is_none()
}

fn ending(text: &str) -> bool
    ensures { result ≡ ending (words text.now) }
{
    match next_word(text) {
        Some((token, rest)) if is_webauthn(token) => nothing_more(rest),
        _ => nothing_more(text),
    }
}

fn a_field(text: &str) -> bool
    ensures { result ≡ a_field (words text.now) }
{
    match next_word(text) {
        Some((token, rest)) => is_field(token) && ending(rest),
        None => false,
    }
}

fn contact_field(text: &str) -> bool
    ensures { result ≡ one (is_among contact_fields) ending (words text.now) }
{
    match next_word(text) {
        Some((token, rest)) => is_contact_field(token) && ending(rest),
        None => false,
    }
}

fn a_contact_field(text: &str) -> bool
    ensures { result ≡ a_contact_field (words text.now) }
{
    match next_word(text) {
        Some((token, rest)) if is_contact_kind(token) => contact_field(rest),
        _ => contact_field(text),
    }
}

fn either_field(text: &str) -> bool
    ensures { result ≡ either_field (words text.now) }
{
    a_field(text) || a_contact_field(text)
}

fn after_section(text: &str) -> bool
    ensures { result ≡ optionally is_address_kind either_field (words text.now) }
{
    match next_word(text) {
        Some((token, rest)) if is_address_kind(token) => either_field(rest),
        _ => either_field(text),
    }
}

fn a_detail(text: &str) -> bool
    ensures { result ≡ a_detail (words text.now) }
{
    match next_word(text) {
        Some((token, rest)) if begins_section(token) => after_section(rest),
        _ => after_section(text),
    }
}

// Whether the text is one token, and that is webauthn.
fn is_webauthn_alone(text: &str) -> bool
    ensures { result ≡ one is_webauthn nothing_more (words text.now) }
{
    match next_word(text) {
        Some((token, rest)) => is_webauthn(token) && nothing_more(rest),
        None => false,
    }
}

// Whether the text is one token, and that is on or off.
fn is_on_or_off_alone(text: &str) -> bool
    ensures { result ≡ one is_on_or_off nothing_more (words text.now) }
{
    match next_word(text) {
        Some((token, rest)) => is_on_or_off(token) && nothing_more(rest),
        None => false,
    }
}

fn is_accepted(text: &str) -> bool
    ensures { result ≡ is_accepted text.now }
{
    a_detail(text) || is_webauthn_alone(text)
}

fn takes_data(kind: InputType) -> bool
    ensures { result ≡ takes_data kind }
{
    !matches!(
        kind,
        InputType::Hidden | InputType::Button | InputType::Submit | InputType::Reset
    )
}

fn is_form_field(row: &Row) -> bool
    ensures { result ≡ is_form_field (seen_row row.now) (html_tag (seen_row row.now)) }
{
    match html_tag(row) {
        Some(Tag::Select | Tag::Textarea) => true,
        Some(Tag::Input) => takes_data(input_type(row)),
        _ => false,
    }
}

fn is_disabled(above: &Above, row: &Row) -> bool
    ensures { result ≡ is_disabled above.now (seen_row row.now) }
{
    has(row, Attribute::Disabled)
        | above.is_disabled()
        | is_word_at(row, Attribute::Aria(AriaAttr::Disabled), "true")
}

fn asks_for_data(text: &Text) -> bool
    ensures { result ≡ asks_for_data text.now }
{
    !blank(text) & !is_on_or_off_alone(text.as_str())
}

fn is_target(above: &Above, row: &Row, text: &Text) -> bool
    ensures { result ≡ is_autocomplete_target above.now (seen_row row.now) text.now }
{
    is_form_field(row) && asks_for_data(text) && !is_disabled(above, row) && included_at(above, row)
}

fn finding(text: &str) -> Finding
    ensures { result ≡ autocomplete_finding text.now }
{
    if is_accepted(text) {
        Finding::met()
    } else {
        Finding::failed(Reason::BadTokens)
    }
}

fn verdict(alloc: Global, above: &Above, row: &Row) -> Result<Option<Verdict>, OutOfMemory>
    ensures { IfOk result (λ verdict. verdict ≡ autocomplete_verdict above.now (seen_row row.now)) }
{
    match attr(row, Attribute::Autocomplete) {
        Some(text) if is_target(above, row, text) => {
            Ok(Some(finding(text.as_str()).verdict(alloc, text)?))
        }
        _ => Ok(None),
    }
}

impl Rule for AutocompleteIsValid {
    ghost means = { autocomplete_is_valid };

    ghost described = { autocomplete_is_valid_info };

    fn info(&self) -> RuleInfo {
        Self::INFO
    }

    fn judge(&self, alloc: Global, tree: &Tree, n: NodeId) -> Result<Option<Verdict>, OutOfMemory> {
        match sight_with(tree, n, Attribute::Autocomplete) {
            Some(sight) => verdict(alloc, &sight.above, sight.row),
            None => Ok(None),
        }
    }

    #[tactic(auto, using(crate::proofs::Local::autocomplete_local))]
    fn law_of_locality(&self) {}
}
