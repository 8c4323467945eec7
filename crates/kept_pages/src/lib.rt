//! The pages of a site with their outcomes, as a keeper keeps them. Start with [`site_pages`];
//! [`whole_pages`] has their trees and judgements too.
#![tactic(auto)]

mod laws;
mod pages;
mod whole;

pub use laws::laws_of_kept_pages;
pub use pages::{site_page, site_pages};
pub use whole::whole_pages;
