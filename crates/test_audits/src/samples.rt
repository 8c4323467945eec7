use audit::PageWork;
use fixture_pages::Node::Html;
use fixture_pages::{Attrs, built, row};
use fixture_rules::{Judged, judgements};
use judge_core::Outcomes;
use snap_tree::Tree;
use std::alloc::Global;
use std::test::Fail;

/// A node of a page: its number, and its attributes. The first is the root, the others are its children.
pub type Node = (u32, Attrs<'static>);

/// The page of some nodes.
pub fn page(alloc: Global, nodes: &[Node]) -> Result<Tree, Fail> {
    let mut rows = Vec::new(alloc);
    let mut root = 0;
    for (id, marks) in nodes {
        rows.push(row(alloc, *id, Html(root, "div", marks))?)?;
        if root == 0 {
            root = *id;
        }
    }
    Ok(built(alloc, rows)?)
}

/// A page with judgements.
pub fn work(alloc: Global, nodes: &[Node], judged: &[Judged]) -> Result<PageWork, Fail> {
    Ok(PageWork {
        tree: page(alloc, nodes)?,
        judgements: judgements(alloc, judged)?,
    })
}

/// The rows of some outcomes, one a line.
pub fn lines(alloc: Global, outcomes: &Outcomes) -> Result<String, Fail> {
    let mut lines = String::new(alloc);
    for row in outcomes.rows.as_slice() {
        let line = format!(in alloc;
            "{} {} {:?} {:?} `{}` {:?} `{}`\n",
            row.rule.0,
            row.node.0,
            row.auto,
            row.reason,
            row.evidence.as_str(),
            row.last,
            row.hand.as_str()
        )?;
        lines.push_str(line.as_str())?;
    }
    Ok(lines)
}
