//! The rules on ways past repeated content, each a published ACT rule restated: a heading, a landmark, a skip link, or
//! content that collapses. One file a rule. Start with `HasLandmark`.
#![tactic(auto)]

mod bypass;
mod collapse;
mod heading;
mod landmark;
mod shapes;
mod skip_link;

pub use collapse::HasCollapse;
pub use heading::HasHeadingToStart;
pub use landmark::HasLandmark;
pub use skip_link::HasSkipLink;
