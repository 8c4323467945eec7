use judge_core::Outcomes;
use named_rows::Named;
use snap_tree::{Text, Tree};

/// What is known of a page without its tree.
#[derive(Debug, Drop, PartialEq, Eq)]
pub struct PageHead {
    /// Its name.
    pub page: Text,
    /// Its revision.
    pub rev: u64,
    /// Who put or edited that revision.
    pub hand: Text,
}

/// A page of a site.
#[derive(Drop)]
pub struct Page {
    pub head: PageHead,
    pub tree: Tree,
}

/// A page to be put, with its outcomes.
#[derive(Drop)]
pub struct PagePut {
    pub page: Page,
    pub outcomes: Outcomes,
}

/// New outcomes of a page, which is named.
#[derive(Drop)]
pub struct PageOutcomes {
    pub page: Text,
    pub outcomes: Outcomes,
}

/// A page as reports show it: without its tree, but with the tree's address.
#[derive(Debug, Drop, PartialEq, Eq)]
pub struct SitePage {
    pub head: PageHead,
    pub address: Text,
    pub outcomes: Outcomes,
}

impl Named for PageHead {
    ghost name = { λ h. h.page };

    fn name(&self) -> &Text {
        &self.page
    }
}
