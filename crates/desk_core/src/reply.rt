use crate::refusal::Refusal;
use keep_core::{Member, MemberRole, Membership, Page, SitePage};
use kept_verdicts::KeptVerdict;
use rule_core::{Auto, RuleNo};
use snap_tree::{List, NodeId, Text, Tree};

/// How many rows of a page have each final outcome, and how many rules have no row.
#[derive(Clone, Copy, Debug, PartialEq, Eq)]
pub struct Summary {
    pub passed: u32,
    pub failed: u32,
    pub cant_tell: u32,
    pub inapplicable: u32,
}

/// A page that was stored: its name, its new revision, and what its outcomes come to.
#[derive(Debug, Drop)]
pub struct Stored {
    pub page: Text,
    pub rev: u64,
    pub summary: Summary,
}

/// A site with its pages in byte order of their names.
#[derive(Drop)]
pub struct Sheet {
    pub site: Text,
    pub pages: List<SitePage>,
}

/// The judgements of a page, in the order in which they were accepted, with its current revision.
#[derive(Debug, Drop)]
pub struct PageVerdicts {
    pub rev: u64,
    pub verdicts: List<KeptVerdict>,
}

/// What the desk answers. Each command has its own reply, and `Refused` answers any.
#[derive(Drop)]
pub enum Reply {
    Site {
        site: Text,
    },
    /// The role that the user has now; None for a user who is no member any more.
    Member {
        user: Text,
        role: Option<MemberRole>,
    },
    /// How many language subtags the site accepts now, and how many pages it has.
    Languages {
        languages: u32,
        pages: u32,
    },
    Stored(Stored),
    Page(Page),
    Dropped {
        page: Text,
    },
    /// The pages in the order in which they were sent.
    Imported {
        pages: List<Stored>,
    },
    /// The final outcome of the rule on the node now.
    Judged {
        rule: RuleNo,
        node: NodeId,
        outcome: Auto,
    },
    /// How many claims were added as judgements, how many the page has already, and how many entries were
    /// skipped.
    Taken {
        added: u32,
        known: u32,
        skipped: u32,
    },
    Outcomes(SitePage),
    Report(SitePage),
    Earl(SitePage),
    Names(Tree),
    SiteReport(Sheet),
    SiteEarl(Sheet),
    SiteCsv(Sheet),
    Verdicts(PageVerdicts),
    /// In byte order of their names.
    Members {
        members: List<Member>,
    },
    /// In byte order of the sites.
    Memberships {
        memberships: List<Membership>,
    },
    Refused(Refusal),
}
