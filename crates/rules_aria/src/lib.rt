//! Rules on ARIA and on autocomplete, each a published ACT rule restated: whether the words that an
//! author gives are ones that the standards know, and whether what they promise is there. One file a
//! rule. Start with `AutocompleteIsValid`.
#![tactic(auto)]

mod aria_attribute;
mod aria_hidden;
mod aria_value;
mod attribute_lines;
mod autocomplete;
mod joined;
mod owned_elements;
mod required_states;
mod role;
mod token;

pub use aria_attribute::AriaAttributeIsDefined;
pub use aria_hidden::{HiddenHoldsNoFocus, focus_finding, number_words, stops_among};
pub use aria_value::{AriaValueIsValid, filled_attr};
pub use attribute_lines::aria_lines;
pub use autocomplete::AutocompleteIsValid;
pub use owned_elements::OwnsRequiredElements;
pub use required_states::HasRequiredStates;
pub use role::RoleIsValid;
