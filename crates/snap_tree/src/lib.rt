//! Pages as trees: an address, and the tree of a document's nodes in document order (DOM Standard,
//! "tree order"), with the look-ups that audits need. Beside them a tree carries the language subtags that
//! its site accepts.
//!
//! Start with [`Tree::build`], which takes the rows of a page and accepts exactly those without a fault;
//! contracts see a [`Tree`] as an address, a list of subtags and nested trees. Go over it by [`Tree::branches`], and look
//! nodes up by number, tag, id and label. What rows are made of, lists and texts, stands in [`texts`],
//! and is named from here too.
#![tactic(auto)]

mod branches;
mod build;
mod copies;
mod fault;
mod groups;
mod index;
mod kids;
mod labels;
mod langs;
mod laws;
mod limits;
mod row;
mod shared;
mod sizes;
mod tree;
mod weight;

pub use branches::{Branch, Branches};
pub use build::{MOST_DEPTH, MOST_NODES};
pub use fault::{BuildFault, TreeFault};
pub use kids::Kids;
pub use langs::{MOST_LANGS, langs_fault};
pub use laws::{laws_of_growth, laws_of_limits, laws_of_spots};
pub use limits::{MOST_ATTRS, MOST_BYTES, own_fault};
pub use row::{Attr, Body, Facts, NodeId, Raw, Row, Space};
pub use shared::SharedBody;
pub use sizes::sizes_of;
pub use texts::{
    Duplicate, List, OutOfMemory, Text, blank, copies_of, next_word, same_folded, tidy,
};
pub use tree::{Tree, run_below, tree_fault};
pub use weight::MOST_WEIGHT;
