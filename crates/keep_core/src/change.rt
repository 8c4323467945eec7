use crate::page::{PageOutcomes, PagePut};
use crate::site::Site;
use judge_core::{Judgement, Outcomes};
use snap_tree::{List, Text};

/// One change of what a keeper keeps.
#[derive(Drop)]
pub enum Change {
    /// The site's row takes the place of the one with its name, or is added. Its pages stay.
    PutSite {
        site: Site,
    },
    /// The site's counter is set, and the pages take the place of those with their names or are added, with
    /// their outcomes. Their judgements stay.
    PutPages {
        site: Text,
        counter: u64,
        pages: List<PagePut>,
    },
    /// The page, its judgements and its outcomes go.
    DropPage {
        site: Text,
        page: Text,
    },
    /// The judgements go to the end of the page's list, and the outcomes take the place of the page's.
    AddJudgements {
        site: Text,
        page: Text,
        judgements: List<Judgement>,
        outcomes: Outcomes,
    },
    /// The list takes the place of the site's, and the outcomes that of those of the pages named. One that isn't
    /// kept is passed over.
    PutLanguages {
        site: Text,
        languages: List<Text>,
        pages: List<PageOutcomes>,
    },
    /// The outcomes take the place of those of the pages named. One that isn't kept is passed over.
    Refresh {
        site: Text,
        pages: List<PageOutcomes>,
    },
    /// The edition of the rules by which all outcomes were found.
    SetEdition {
        number: u64,
    },
}

/// What a keeper applies as one: a change.
#[derive(Drop)]
pub struct Batch {
    pub change: Change,
}
