use earl_in::Claim;
use keep_core::MemberRole;
use rule_core::{Auto, RuleNo};
use snap_edit::Edit;
use snap_tree::{List, NodeId, Raw, Text};

/// A page of an import.
#[derive(Debug, Drop)]
pub struct Entry {
    pub page: Text,
    /// The revision that the sender saw; 0 for a page that isn't there.
    pub rev: u64,
    pub raw: Raw,
}

/// What a caller asks the desk. A revision is the one that the sender saw, 0 for a page that isn't there.
#[derive(Debug, Drop)]
pub enum Command {
    /// Makes a site, with the caller as its owner.
    PutSite {
        site: Text,
    },
    /// Gives a user a role in a site, or takes the user out of it.
    PutMember {
        site: Text,
        user: Text,
        role: Option<MemberRole>,
    },
    /// Puts a list of language subtags in the place of the site's.
    PutLanguages {
        site: Text,
        languages: List<Text>,
    },
    /// Puts a page in, or in the place of the one of its name.
    PutPage {
        site: Text,
        page: Text,
        rev: u64,
        raw: Raw,
    },
    GetPage {
        site: Text,
        page: Text,
    },
    /// Takes a page out, with its judgements.
    DropPage {
        site: Text,
        page: Text,
        rev: u64,
    },
    /// Puts pages in, all or none.
    Import {
        site: Text,
        entries: List<Entry>,
    },
    /// Edits a page.
    EditPage {
        site: Text,
        page: Text,
        rev: u64,
        edits: List<Edit>,
    },
    /// Judges a rule on a node of a page, by the digest of the evidence that was seen.
    Judge {
        site: Text,
        page: Text,
        rule: RuleNo,
        node: NodeId,
        verdict: Auto,
        digest: [u8; 32],
        note: Text,
    },
    /// Takes what was judged in another tool: its claims in their order, with None for each entry that makes
    /// none.
    TakeEarl {
        site: Text,
        page: Text,
        claims: List<Option<Claim>>,
    },
    GetOutcomes {
        site: Text,
        page: Text,
    },
    GetReport {
        site: Text,
        page: Text,
    },
    GetEarl {
        site: Text,
        page: Text,
    },
    GetNames {
        site: Text,
        page: Text,
    },
    SiteReport {
        site: Text,
    },
    SiteEarl {
        site: Text,
    },
    SiteCsv {
        site: Text,
    },
    /// The judgements of a page.
    GetVerdicts {
        site: Text,
        page: Text,
    },
    /// The members of a site.
    GetMembers {
        site: Text,
    },
    /// The sites of which the caller is a member. It names none.
    GetMemberships,
}
