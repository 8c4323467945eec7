//! Lists, texts and the words of a text, as contracts see them: a [`List`] is the list of its items, a
//! [`Text`] the list of its bytes in UTF-8. [`OutOfMemory`] is the one fault of a call that only allocates, and
//! [`Duplicate`] says that a value can be copied.
//!
//! [`blank`], [`tidy`] and [`next_word`] cut texts at Unicode's White_Space (Unicode Standard Annex #44,
//! "White_Space").
#![tactic(auto)]

mod copies;
mod list;
mod memory;
mod text;
mod words;

pub use copies::{Duplicate, copies_of};
pub use list::List;
pub use memory::OutOfMemory;
pub use text::Text;
pub use words::{blank, next_word, same_folded, tidy};
