ghost use Rattle.std.specs.Prelude.{◌≡◌, IfOk};
ghost use Rattle.acc_tree.specs.Seen.{seen};
ghost use Rattle.snap_tree.specs.Trees.{Document};
ghost use Rattle.snap_tree.specs.declared.row.NodeId.{NodeId};
ghost use Rattle.rule_sights.specs.Targets.{JudgesRows};
ghost use Rattle.rules_page.specs.PageTitle.{first_title, texts, page_title, page_has_title, page_has_title_info, page_has_title_target};

use crate::filled::filled;
use rule_core::{Class, Reason, Rule, RuleInfo, RuleNo, Verdict};
use rule_sights::page_root;
use snap_tree::{Body, Branches, NodeId, OutOfMemory, Text, Tree, tidy};
use std::alloc::Global;

/// ACT rule 2779a5, HTML page has non-empty title, restated as published at
/// <https://www.w3.org/WAI/standards-guidelines/act/rules/2779a5/>. Its target is the root of a page. It
/// fails where there is no HTML element `title`, or the page title is blank. The evidence is the page title.
#[derive(Clone, Copy, Debug, PartialEq, Eq)]
pub struct PageHasTitle;

impl PageHasTitle {
    /// Its number.
    pub const NO: u16 = 1;

    /// What the rule says of itself.
    pub const INFO: RuleInfo = RuleInfo {
        no: RuleNo(Self::NO),
        id: *b"2779a5",
        applies: Class::SelfOnly,
        expects: Class::Title,
        inputs: [0; 4],
    };

    /// The law of its targets: on each page it has a verdict exactly where the node is one. It does nothing: the clause
    /// is what it is for.
    #[tactic(auto, using(crate::proofs::Local::titles))]
    pub fn law_of_targets()
        ensures { (page : Document) (n : NodeId) → JudgesRows page_has_title page_has_title_target page n }
    {}
}

/// What is below the first HTML element `title` in document order; `None` where there is none.
fn first_title(trees: Branches<'_>) -> Option<Branches<'_>>
    ensures { result ≡ first_title trees.entry }
{
    let mut rest = trees;
    while let Some(branch) = rest.first() {
        if branch.row.is_html("title") {
            return Some(branch.kids);
        }
        if let Some(kids) = first_title(branch.kids) {
            return Some(kids);
        }
        rest = branch.after;
    }
    None
}

/// The texts that stand side by side, with nothing between them.
fn texts(alloc: Global, trees: Branches<'_>) -> Result<Text, OutOfMemory>
    ensures { IfOk result (λ t. t ≡ texts trees.entry) }
{
    let mut joined = String::new(alloc);
    let mut rest = trees;
    while let Some(branch) = rest.first() {
        if let Body::Words { text } = branch.row.body.get() {
            joined.push_str(text.as_str())?;
        }
        rest = branch.after;
    }
    Ok(Text::from_string(joined))
}

// The title of a page whose trees these are.
fn title_in(alloc: Global, trees: Branches<'_>) -> Result<Option<Text>, OutOfMemory>
    ensures { IfOk result (λ title. title ≡ page_title trees.entry) }
{
    match first_title(trees) {
        None => Ok(None),
        Some(kids) => Ok(Some(tidy(alloc, &texts(alloc, kids)?)?)),
    }
}

/// The page title: the text children of the first HTML element `title` in document order, put
/// together and tidied; `None` where there is no such element.
#[tactic(auto, using(crate::proofs::Seeing::title_seen))]
pub(crate) fn page_title(alloc: Global, tree: &Tree) -> Result<Option<Text>, OutOfMemory>
    ensures { IfOk result (λ title. title ≡ page_title (seen tree.now.trees)) }
{
    Ok(title_in(alloc, tree.branches())?)
}

impl Rule for PageHasTitle {
    ghost means = { page_has_title };

    ghost described = { page_has_title_info };

    fn info(&self) -> RuleInfo {
        Self::INFO
    }

    fn judge(&self, alloc: Global, tree: &Tree, n: NodeId) -> Result<Option<Verdict>, OutOfMemory> {
        if page_root(tree, n).is_none() {
            return Ok(None);
        }
        let title = page_title(alloc, tree)?;
        let finding = filled(title.as_ref(), Reason::NoTitle, Reason::EmptyTitle);
        Ok(Some(finding.verdict_on(alloc, title.as_ref())?))
    }

    #[tactic(auto, using(crate::proofs::Local::title_local))]
    fn law_of_locality(&self) {}
}
