//! What WAI-ARIA 1.2 says of roles, states and properties, as this profile takes it: their words, the
//! values that an attribute may have, what a role requires and owns, and which roles and attributes
//! are of a kind. Each call answers a row of a table, and none takes memory.
//!
//! Start with [`role_of`] and [`attr_of`], which find a role and an attribute by their words.
#![tactic(auto)]

mod attr;
mod laws;
mod number;
mod owning;
mod role;
mod states;
mod tokens;
mod value;
mod word;

pub use attr::{AriaAttr, attr_of, is_global, is_later, is_reference};
pub use laws::laws_of_words;
pub use owning::{allowed_owned, looks_through};
pub use role::{Role, is_landmark, named_from_content, role_of, same_role};
pub use states::required_states;
pub use value::{ValueKind, value_kind, value_ok};
pub use word::is_among;
