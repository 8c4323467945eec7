//! Rules on accessible names, each a published ACT rule restated: whether what is to be named has a name,
//! and whether a heading says what follows it. One file a rule. Start with `ButtonHasName`. What rules on names have in
//! common is public, for those of other crates: [`JudgesByName`], by which they judge, and what they say of a target by its
//! role and name.
#![tactic(auto)]

mod button;
mod by_name;
mod elements;
mod form_field;
mod heading;
mod heading_descriptive;
mod iframe;
mod image;
mod image_button;
mod link;
mod named;
mod role_and_name;
mod svg_image;

pub use button::ButtonHasName;
pub use by_name::{JudgesByName, judge_alone, judge_in_turn};
pub use elements::{is_html_element, is_img};
pub use form_field::{FORM_FIELDS, FormFieldHasName};
pub use heading::HeadingHasName;
pub use heading_descriptive::HeadingIsDescriptive;
pub use iframe::IframeHasName;
pub use image::ImageHasName;
pub use image_button::ImageButtonHasName;
pub use link::LinkHasName;
pub use named::{asks_a_person, named_verdict, wants_name};
pub use role_and_name::role_word;
pub use svg_image::SvgImageHasName;
