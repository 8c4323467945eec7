ghost use Rattle.std.specs.Prelude.{◌≡◌, ◌++◌, IfOk, OnOk};
ghost use Rattle.std.specs.Option.{option_copied};
ghost use Rattle.std.specs.String.{string_bytes};
ghost use Rattle.snap_tree.specs.Trees.{rows_of};
ghost use Rattle.acc_tree.specs.Frames.{nothing_above};
ghost use Rattle.acc_tree.specs.Seen.{seen_row, seen};
ghost use Rattle.acc_name.specs.Names.{name_of};
ghost use Rattle.rules_bypass.specs.Bypass.{is_heading, is_link, is_button, is_summary, fragment, leads_inside, heading_line, with_name, collapses, of_heading, of_landmark, of_skip_link, of_collapse, one, line_at, lines};
ghost use Rattle.rules_bypass.specs.Bypass.{is_mark, leads, may_count, line_in, row_lines, behind, lack, question, lines_verdict, has_stop, trees_verdict};
ghost use Rattle.rules_bypass.specs.Shapes.{seems};

use crate::shapes::{seems_heading, seems_landmark};
use acc_name::name;
use acc_tree::{
    Above, Attribute, Tag, above_children, attr, element_of, has, html_tag, included_at, role_at,
};
use aria_tables::{AriaAttr, Role, is_landmark};
use rule_core::{Finding, LastLong, Reason, Verdict};
use snap_tree::{OutOfMemory, Row, Text, Tree};
use std::alloc::Global;

/// What a block of content can be bypassed by. Each has its rule, which asks whether a page has one.
#[derive(Clone, Copy, Debug, PartialEq, Eq)]
pub(crate) enum Bypass {
    /// An included heading with a name.
    Heading,
    /// An included landmark.
    Landmark,
    /// An included link that the Tab key reaches and that leads to an element of the page.
    SkipLink,
    /// An included `summary`, or button that says whether it is expanded, that the Tab key reaches.
    Collapse,
}

fn is_heading(role: Option<Role>) -> bool
    ensures { result ≡ is_heading role }
{
    matches!(role, Some(Role::Heading))
}

fn is_link(role: Option<Role>) -> bool
    ensures { result ≡ is_link role }
{
    matches!(role, Some(Role::Link))
}

fn is_button(role: Option<Role>) -> bool
    ensures { result ≡ is_button role }
{
    matches!(role, Some(Role::Button))
}

fn is_summary(tag: Option<Tag>) -> bool
    ensures { result ≡ is_summary tag }
{
    matches!(tag, Some(Tag::Summary))
}

fn is_mark(role: Option<Role>) -> bool
    ensures { result ≡ is_mark role }
{
    match role {
        Some(role) => is_landmark(role),
        None => false,
    }
}

// The id behind a `#`.
fn fragment(href: &str) -> Option<&str>
    ensures { option_copied result ≡ fragment href.now }
{
    href.strip_prefix('#')
}

fn leads_inside(tree: &Tree, href: &str) -> bool
    ensures { result ≡ leads_inside (seen tree.now.trees) href.now }
{
    match fragment(href) {
        Some(id) => element_of(tree, id).is_some(),
        None => false,
    }
}

fn leads(tree: &Tree, row: &Row) -> bool
    ensures { result ≡ leads (seen tree.now.trees) (seen_row row.now) }
{
    match attr(row, Attribute::Href) {
        Some(href) => leads_inside(tree, href.as_str()),
        None => false,
    }
}

// Something, a space, and the name.
fn with_name(
    alloc: Global,
    word: &str,
    name: &Text,
    last: &mut LastLong,
) -> Result<Text, OutOfMemory>
    ensures { IfOk result (λ line. line ≡ with_name word.now name.now) }
{
    let shown = last.brief(alloc, name)?;
    let mut line = String::from_str(alloc, word)?;
    line.push(' ')?;
    line.push_str(shown.as_str())?;
    Ok(Text::from_string(line))
}

fn heading_line(
    alloc: Global,
    name: &Text,
    last: &mut LastLong,
) -> Result<Option<Text>, OutOfMemory>
    ensures { IfOk result (λ line. line ≡ heading_line name.now) }
{
    if name.is_empty() {
        return Ok(None);
    }
    Ok(Some(last.brief(alloc, name)?))
}

fn collapses(above: &Above, row: &Row) -> bool
    ensures { result ≡ collapses above.now (seen_row row.now) }
{
    is_summary(html_tag(row))
        || (is_button(role_at(above, row)) && has(row, Attribute::Aria(AriaAttr::Expanded)))
}

fn of_heading(
    alloc: Global,
    tree: &Tree,
    above: &Above,
    row: &Row,
    last: &mut LastLong,
) -> Result<Option<Text>, OutOfMemory>
    ensures { IfOk result (λ line. line ≡ of_heading above.now (seen_row row.now) (name_of (seen tree.now.trees) row.now.id).text) }
{
    if !(is_heading(role_at(above, row)) && included_at(above, row)) {
        return Ok(None);
    }
    heading_line(alloc, &name(alloc, tree, row.id)?.text, last)
}

fn of_landmark(
    alloc: Global,
    tree: &Tree,
    above: &Above,
    row: &Row,
    last: &mut LastLong,
) -> Result<Option<Text>, OutOfMemory>
    ensures { IfOk result (λ line. line ≡ of_landmark above.now (seen_row row.now) (name_of (seen tree.now.trees) row.now.id).text) }
{
    match role_at(above, row) {
        Some(role) if is_landmark(role) && included_at(above, row) => {
            let name = name(alloc, tree, row.id)?;
            Ok(Some(with_name(alloc, role.word(), &name.text, last)?))
        }
        _ => Ok(None),
    }
}

fn of_skip_link(
    alloc: Global,
    tree: &Tree,
    above: &Above,
    row: &Row,
    last: &mut LastLong,
) -> Result<Option<Text>, OutOfMemory>
    ensures { IfOk result (λ line. line ≡ of_skip_link (seen tree.now.trees) above.now (seen_row row.now) (name_of (seen tree.now.trees) row.now.id).text) }
{
    if !(row.facts.tabbable && is_link(role_at(above, row)) && included_at(above, row)) {
        return Ok(None);
    }
    match attr(row, Attribute::Href) {
        Some(href) if leads_inside(tree, href.as_str()) => {
            let name = name(alloc, tree, row.id)?;
            Ok(Some(with_name(alloc, href.as_str(), &name.text, last)?))
        }
        _ => Ok(None),
    }
}

fn of_collapse(
    alloc: Global,
    tree: &Tree,
    above: &Above,
    row: &Row,
    last: &mut LastLong,
) -> Result<Option<Text>, OutOfMemory>
    ensures { IfOk result (λ line. line ≡ of_collapse above.now (seen_row row.now) (name_of (seen tree.now.trees) row.now.id).text) }
{
    if !(row.facts.tabbable && collapses(above, row) && included_at(above, row)) {
        return Ok(None);
    }
    let name = name(alloc, tree, row.id)?;
    Ok(Some(last.brief(alloc, &name.text)?))
}

impl Bypass {
    // The line of a node, where it counts. Most nodes don't, so the dear question whether a node is
    // included comes after those that rule out most.
    fn line_at(
        self,
        alloc: Global,
        tree: &Tree,
        above: &Above,
        row: &Row,
        last: &mut LastLong,
    ) -> Result<Option<Text>, OutOfMemory>
        ensures { IfOk result (λ line. line ≡ line_at self (seen tree.now.trees) above.now (seen_row row.now)) }
    {
        match self {
            Bypass::Heading => of_heading(alloc, tree, above, row, last),
            Bypass::Landmark => of_landmark(alloc, tree, above, row, last),
            Bypass::SkipLink => of_skip_link(alloc, tree, above, row, last),
            Bypass::Collapse => of_collapse(alloc, tree, above, row, last),
        }
    }

    // Whether a node may count, as far as its row tells at a glance. Most rows are ruled out so.
    fn seems(self, row: &Row) -> bool
        ensures { result ≡ seems self (seen_row row.now) }
    {
        match self {
            Bypass::Heading => seems_heading(row),
            Bypass::Landmark => seems_landmark(row),
            Bypass::SkipLink => row.facts.tabbable,
            Bypass::Collapse => {
                row.facts.tabbable
                    && (has(row, Attribute::Aria(AriaAttr::Expanded)) || is_summary(html_tag(row)))
            }
        }
    }

    // Whether a node may count, as far as its row tells. Where nothing is above it, it is a heading or a landmark if it
    // is one anywhere.
    fn counts_alone(self, tree: &Tree, row: &Row) -> bool
        ensures { result ≡ may_count self (seen tree.now.trees) (seen_row row.now) }
    {
        let above = Above::nothing();
        match self {
            Bypass::Heading => is_heading(role_at(&above, row)),
            Bypass::Landmark => is_mark(role_at(&above, row)),
            Bypass::SkipLink => {
                row.facts.tabbable && leads(tree, row) && is_link(role_at(&above, row))
            }
            Bypass::Collapse => row.facts.tabbable && collapses(&above, row),
        }
    }

    // The same, found at a glance for most rows.
    fn may_count(self, tree: &Tree, row: &Row) -> bool
        ensures { result ≡ may_count self (seen tree.now.trees) (seen_row row.now) }
    {
        self.seems(row) && self.counts_alone(tree, row)
    }

    // The line of a node, where it counts. What is above it is found only where its row doesn't rule it out.
    fn line_in(
        self,
        alloc: Global,
        tree: &Tree,
        row: &Row,
        last: &mut LastLong,
    ) -> Result<Option<Text>, OutOfMemory>
        ensures { IfOk result (λ line. line ≡ line_in self (seen tree.now.trees) (seen_row row.now)) }
    {
        if self.may_count(tree, row) {
            self.line_at(alloc, tree, &above_children(tree, row.parent), row, last)
        } else {
            Ok(None)
        }
    }

    // Adds the line of a node, where it counts.
    fn add_line(
        self,
        found: &mut Vec<Text>,
        alloc: Global,
        tree: &Tree,
        row: &Row,
        last: &mut LastLong,
    ) -> Result<(), OutOfMemory>
        ensures { OnOk result (found.new.items ≡ found.old.items ++ one (line_in self (seen tree.now.trees) (seen_row row.now))) }
    {
        if let Some(line) = self.line_in(alloc, tree, row, last)? {
            found.push(line)?;
        }
        Ok(())
    }

    // Adds the lines of the nodes of these rows that count.
    fn add_lines(
        self,
        found: &mut Vec<Text>,
        alloc: Global,
        tree: &Tree,
        rows: &[Row],
        last: &mut LastLong,
    ) -> Result<(), OutOfMemory>
        ensures { OnOk result (found.new.items ≡ found.old.items ++ row_lines self (seen tree.now.trees) rows.now) }
    {
        for row in rows {
            self.add_line(found, alloc, tree, row, last)?;
        }
        Ok(())
    }

    // The lines of the nodes of a page that count.
    #[tactic(auto, using(crate::proofs::ByRows::page_lines))]
    fn lines(self, alloc: Global, tree: &Tree) -> Result<Vec<Text>, OutOfMemory>
        ensures { IfOk result (λ found. found.items ≡ lines self (seen tree.now.trees) nothing_above (seen tree.now.trees)) }
    {
        let mut found = Vec::new(alloc);
        self.add_lines(&mut found, alloc, tree, tree.rows(), &mut LastLong::new())?;
        Ok(found)
    }

    fn lack(self) -> Reason
        ensures { result ≡ lack self }
    {
        match self {
            Bypass::Heading => Reason::NoHeading,
            Bypass::Landmark => Reason::NoLandmark,
            Bypass::SkipLink => Reason::NoSkipLink,
            Bypass::Collapse => Reason::NoCollapse,
        }
    }

    fn question(self) -> Reason
        ensures { result ≡ question self }
    {
        match self {
            Bypass::Heading => Reason::JudgeHeadingStart,
            Bypass::Landmark => Reason::JudgeLandmark,
            Bypass::SkipLink => Reason::JudgeSkipLink,
            Bypass::Collapse => Reason::JudgeCollapse,
        }
    }

    fn lines_verdict(self, alloc: Global, lines: &[Text]) -> Result<Verdict, OutOfMemory>
        ensures { IfOk result (λ verdict. verdict ≡ lines_verdict self lines.now) }
    {
        match lines {
            [] => Finding::failed(self.lack()).verdict(alloc, &Text::new(alloc)),
            [line, more @ ..] => {
                let mut text = String::from_str(alloc, line.as_str())?;
                add_behind(&mut text, more)?;
                Finding::cant_tell(self.question()).verdict(alloc, &Text::from_string(text))
            }
        }
    }

    /// What is said of a page by the nodes that count: it fails where there is none, and of any other a
    /// person has to judge. None where the Tab key stops nowhere.
    pub(crate) fn verdict(self, alloc: Global, tree: &Tree) -> Result<Option<Verdict>, OutOfMemory>
        ensures { IfOk result (λ verdict. verdict ≡ trees_verdict self (seen tree.now.trees)) }
    {
        if !has_stop(tree) {
            return Ok(None);
        }
        let lines = self.lines(alloc, tree)?;
        Ok(Some(self.lines_verdict(alloc, lines.as_slice())?))
    }
}

// Adds each line behind a line feed.
fn add_behind(text: &mut String, lines: &[Text]) -> Result<(), OutOfMemory>
    ensures { OnOk result (string_bytes text.new ≡ string_bytes text.old ++ behind lines.now) }
{
    for line in lines {
        text.push('\n')?;
        text.push_str(line.as_str())?;
    }
    Ok(())
}

fn any_stop(rows: &[Row]) -> bool
    ensures { result ≡ has_stop rows.now }
{
    rows.iter().any(
        |row: &Row| -> bool
            ensures { result ≡ row.now.facts.tabbable }
        { row.facts.tabbable },
    )
}

#[tactic(auto, using(crate::proofs::Stopping::stop_seen))]
fn has_stop(tree: &Tree) -> bool
    ensures { result ≡ has_stop (rows_of (seen tree.now.trees)) }
{
    any_stop(tree.rows())
}
