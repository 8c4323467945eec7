//! The rules on a page as a whole, each a published ACT rule restated: its title, its language and that
//! of its parts, whether it can be zoomed, and whether it refreshes itself. One file a rule. Start with `PageHasTitle`
//! and `PageHasLang`.
#![tactic(auto)]

mod digits;
mod filled;
mod language;
mod language_known;
mod language_of_parts;
mod languages;
mod page_title;
mod refresh;
mod title_descriptive;
mod viewport;

pub use language::PageHasLang;
pub use language_known::LanguageIsKnown;
pub use language_of_parts::LanguageOfPartIsKnown;
pub use languages::primary_subtag;
pub use page_title::PageHasTitle;
pub use refresh::{PageHasNoDelay, is_first_refresh, refresh_time};
pub use title_descriptive::TitleIsDescriptive;
pub use viewport::ViewportAllowsZoom;
