ghost use Rattle.std.specs.Prelude.{◌≡◌};
ghost use Rattle.acc_tree.specs.Inputs.{type_word, type_among, input_type};
ghost use Rattle.acc_tree.specs.Seen.{seen_row};

use crate::attributes::{Attribute, attr};
use snap_tree::{Row, same_folded};

/// The types of HTML's `input` that roles, names and rules tell apart.
#[derive(Clone, Copy, Debug, PartialEq, Eq, Hash)]
pub enum InputType {
    Button,
    Checkbox,
    Color,
    Date,
    DatetimeLocal,
    File,
    Hidden,
    Image,
    Month,
    Number,
    Password,
    Radio,
    Range,
    Reset,
    Search,
    Submit,
    /// The type `text`, and every type that isn't named here, `email`, `tel` and `url` among them.
    TextField,
    Time,
    Week,
}

const TYPES: [InputType; 19] = [
    InputType::Button,
    InputType::Checkbox,
    InputType::Color,
    InputType::Date,
    InputType::DatetimeLocal,
    InputType::File,
    InputType::Hidden,
    InputType::Image,
    InputType::Month,
    InputType::Number,
    InputType::Password,
    InputType::Radio,
    InputType::Range,
    InputType::Reset,
    InputType::Search,
    InputType::Submit,
    InputType::TextField,
    InputType::Time,
    InputType::Week,
];

impl InputType {
    #[tactic(auto, unfolding(crate::specs::Inputs::type_word))]
    fn word(self) -> &'static str
        ensures { result.now ≡ type_word self }
    {
        match self {
            InputType::Button => "button",
            InputType::Checkbox => "checkbox",
            InputType::Color => "color",
            InputType::Date => "date",
            InputType::DatetimeLocal => "datetime-local",
            InputType::File => "file",
            InputType::Hidden => "hidden",
            InputType::Image => "image",
            InputType::Month => "month",
            InputType::Number => "number",
            InputType::Password => "password",
            InputType::Radio => "radio",
            InputType::Range => "range",
            InputType::Reset => "reset",
            InputType::Search => "search",
            InputType::Submit => "submit",
            InputType::TextField => "text",
            InputType::Time => "time",
            InputType::Week => "week",
        }
    }
}

fn type_among(text: &str, types: &[InputType]) -> Option<InputType>
    ensures { result ≡ type_among text.now types.now }
{
    types
        .iter()
        .copied()
        .find(|kind| same_folded(text, kind.word()))
}

/// The type of an `input`. It is a text field where the row has no `type`, and where its whole value is
/// any other word than those that are known, which compare ASCII case-insensitively.
pub fn input_type(row: &Row) -> InputType
    ensures { result ≡ input_type (seen_row row.now) }
{
    match attr(row, Attribute::TypeAttr) {
        Some(text) => type_among(text.as_str(), &TYPES).unwrap_or(InputType::TextField),
        None => InputType::TextField,
    }
}
