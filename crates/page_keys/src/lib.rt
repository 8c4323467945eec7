//! The keys of a page, which are the questions to it that a verdict may rest on, and what two pages have in common that
//! agree on some of them. Start with [`laws_of_keys`].
#![tactic(auto)]

mod laws;

pub use laws::{
    laws_of_classes, laws_of_keys, laws_of_nodes, laws_of_owning, laws_of_references,
    laws_of_subtrees,
};
