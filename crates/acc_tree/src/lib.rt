//! The accessibility tree of a page: the role of each node (WAI-ARIA 1.2; HTML Accessibility API
//! Mappings), whether it is exposed and included, and what it owns, by this profile's tables
//! (`docs/roles.md`).
//!
//! Start with [`role`], [`included`] and [`owned`], which answer for a node by its number. Code that goes
//! over a page carries what is above along ([`Above`], [`under`]) and asks [`role_at`], [`included_at`]
//! and the others of a row; [`sight_of`] gives both for a number. What an element takes in from elsewhere by
//! aria-owns, [`follows`] says, on which names stand too.
//!
//! Contracts see a page as far as it is looked at: `seen` keeps of each row the attributes that
//! [`Attribute`] names and all whose names begin `aria-`. So two pages that agree on these have the same
//! roles, the same nodes included, and the same owned elements.
#![tactic(auto)]

mod above;
mod aria;
mod asked;
mod attributes;
mod following;
mod frames;
mod inclusion;
mod inputs;
mod labels;
mod laws;
mod lent;
mod numbers;
mod owning;
mod pages;
mod references;
mod roles;
mod sights;
mod tags;

pub use above::TableAbove;
pub use aria::{AriaAttrs, aria_attrs};
pub use attributes::{Attribute, attr, has, is_blank_at, is_word_at, text_at};
pub use following::follows;
pub use frames::under;
pub use inclusion::{exposed_at, included_at, is_hidden};
pub use inputs::{InputType, input_type};
pub use labels::{is_labelable, labels_of};
pub use laws::{laws_of_above, laws_of_attributes, laws_of_sights};
pub use lent::Above;
pub use numbers::whole_number;
pub use owning::{Item, OwnedElement, items, owned, owned_by};
pub use pages::{decorative, explicit_role, exposed, implicit_role, included, role};
pub use references::{element_of, first_found};
pub use roles::{decorative_at, explicit_at, implicit_at, role_at};
pub use sights::{Sight, above_children, aboves, row_of, sight_of};
pub use tags::{Tag, any_tag, html_tag, known_tag};
