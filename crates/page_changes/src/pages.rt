use crate::by_number::Agreement;
use crate::labels::Labels;
use number_tables::NumberTable;
use snap_tree::Tree;

/// Two versions of a page, with the marks of the old one's nodes by their numbers, and the labels of each version by
/// the id that they name.
#[derive(Drop)]
pub(crate) struct Pages<'a> {
    pub(crate) old: &'a Tree,
    pub(crate) new: &'a Tree,
    pub(crate) by_number: &'a NumberTable<Agreement>,
    pub(crate) old_labels: &'a Labels,
    pub(crate) new_labels: &'a Labels,
}
