//! The sight of a node, on which rules rest: its row, what is above it and what is below it. A rule asks for the sight
//! of the nodes that could be its targets; of all others it looks at the row alone.
//!
//! Start with [`sight_with`] and [`sight_as`], and with `said_where` of `specs/Nodes.antt`, of which most rules'
//! definitions are made. The laws of locality of the rules follow from [`laws_of_classes`], which says what each class
//! tells of a node; that of a book that is a table of rules is [`laws_of_tables`].
#![tactic(auto)]

mod laws;
mod nodes;
mod page;

pub use laws::{laws_of_classes, laws_of_tables};
pub use nodes::{row_of, sight_as, sight_of_html, sight_with};
pub use page::page_root;
