use crate::page::Page;
use crate::site::Site;
use judge_core::{Judgement, Outcomes};
use named_rows::{Named, Rows};
use snap_tree::{List, Text};

/// A page with what is kept of it: its judgements in order of acceptance, and its outcomes.
#[derive(Drop)]
pub struct KeptPage {
    pub page: Page,
    pub judgements: List<Judgement>,
    pub outcomes: Outcomes,
}

/// A site with its pages, in byte order of their names.
#[derive(Drop)]
pub struct KeptSite {
    pub site: Site,
    pub pages: Rows<KeptPage>,
}

/// What is kept: the sites in byte order of their names, and the edition of the rules by which the outcomes of
/// their pages were found.
#[derive(Drop)]
pub struct Tables {
    pub edition: u64,
    pub sites: Rows<KeptSite>,
}

impl Named for KeptPage {
    ghost name = { λ p. p.page.head.page };

    fn name(&self) -> &Text {
        &self.page.head.page
    }
}

impl Named for KeptSite {
    ghost name = { λ s. s.site.name };

    fn name(&self) -> &Text {
        &self.site.name
    }
}
