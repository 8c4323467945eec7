ghost use Rattle.std.specs.Prelude.{◌≡◌, IfOk};
ghost use Rattle.acc_tree.specs.Seen.{seen};
ghost use Rattle.page_changes.specs.References.{AreCompared};
ghost use Rattle.page_keys.specs.Same.{all_same};
ghost use Rattle.page_keys.specs.Nodes.{keys_in};
ghost use Rattle.page_changes.specs.Marks.{AreMarks};
ghost use Rattle.page_changes.specs.ByNumber.{AreByNumber};
ghost use Rattle.page_changes.specs.Flags.{AreFlags, IsCommon, flags_at, joined};

use crate::by_number::{Agreement, by_number};
use crate::labels::labels_by_id;
use crate::marks::{Marks, PageMarks, compare};
use crate::pages::Pages;
use crate::references::references_below;
use crate::tags::{metas_same, table_same, titles_same};
use number_tables::NumberTable;
use snap_tree::{NodeId, OutOfMemory, Tree};
use std::alloc::Global;

/// Of a node of the old page, whether the new page agrees with it on all that each class of rules looks at.
#[derive(Clone, Copy, Debug, PartialEq, Eq)]
pub struct Flags {
    pub node: NodeId,
    /// The node by itself, and what is around it.
    pub itself: bool,
    /// Also its subtree, and what references in it find.
    pub sub: bool,
    /// Also the nearest table.
    pub table: bool,
    /// Of the root, also the titles.
    pub title: bool,
    /// Of a `meta`, also all metas.
    pub metas: bool,
    /// Of the root, also every node.
    pub whole: bool,
}

/// Whether the pages agree on what some nodes look at of the whole page.
#[derive(Clone, Copy)]
pub(crate) struct Common {
    pub(crate) titles: bool,
    pub(crate) metas: bool,
    pub(crate) all: bool,
}

fn flags_at(pages: &Pages<'_>, common: Common, marks: Marks, references: bool) -> Flags
    requires { AreCompared pages.now }
    ensures { result ≡ flags_at (seen pages.now.old.now.trees) (seen pages.now.new.now.trees) common marks references }
{
    Flags {
        node: marks.node,
        itself: marks.itself,
        sub: marks.itself & (marks.tree & references),
        table: marks.itself & table_same(pages, marks.table),
        title: marks.itself & (!marks.root | common.titles),
        metas: marks.itself & (!marks.meta | common.metas),
        whole: marks.itself & (!marks.root | common.all),
    }
}

#[inline(never)]
fn all_flags(
    alloc: Global,
    pages: &Pages<'_>,
    common: Common,
    each: &[Marks],
    references: &[bool],
) -> Result<Vec<Flags>, OutOfMemory>
    requires { AreCompared pages.now }
    ensures { IfOk result (λ flags. flags.items ≡ joined (seen pages.now.old.now.trees) (seen pages.now.new.now.trees) common each.now references.now) }
{
    let mut flags = Vec::with_capacity(alloc, each.len())?;
    let mut rest = each;
    let mut left = references;
    loop {
        match (rest.split_first(), left.split_first()) {
            (Some((marks, later)), Some((same, others))) => {
                flags.push(flags_at(pages, common, *marks, *same))?;
                rest = later;
                left = others;
            }
            _ => return Ok(flags),
        }
    }
}

// What is looked at of the whole page.
fn common_of(alloc: Global, pages: &Pages<'_>, all: bool) -> Result<Common, OutOfMemory>
    requires compared { AreCompared pages.now }
    requires all { all ≡ all_same (seen pages.now.old.now.trees) (seen pages.now.new.now.trees) (keys_in (seen pages.now.old.now.trees)) }
    ensures { IfOk result (λ common. IsCommon (seen pages.now.old.now.trees) (seen pages.now.new.now.trees) common) }
{
    let titles = titles_same(alloc, pages)?;
    let metas = metas_same(alloc, pages)?;
    Ok(Common { titles, metas, all })
}

fn page_flags(
    alloc: Global,
    pages: &Pages<'_>,
    marks: &PageMarks,
) -> Result<Vec<Flags>, OutOfMemory>
    requires compared { AreCompared pages.now }
    requires marks { AreMarks (seen pages.now.old.now.trees) (seen pages.now.new.now.trees) marks.now }
    ensures { IfOk result (λ flags. AreFlags (seen pages.now.old.now.trees) (seen pages.now.new.now.trees) flags.items) }
{
    let common = common_of(alloc, pages, marks.all)?;
    let references = references_below(alloc, pages)?;
    let flags = all_flags(
        alloc,
        pages,
        common,
        marks.each.as_slice(),
        references.as_slice(),
    )?;
    Ok(flags)
}

fn marks_by_number(
    alloc: Global,
    old: &Tree,
    new: &Tree,
    marks: &PageMarks,
) -> Result<NumberTable<Agreement>, OutOfMemory>
    requires { AreMarks (seen old.now.trees) (seen new.now.trees) marks.now }
    ensures { IfOk result (λ by_number. AreByNumber (seen old.now.trees) (seen new.now.trees) by_number) }
{
    let by_number = by_number(alloc, marks.each.as_slice())?;
    let _ = old;
    let _ = new;
    Ok(by_number)
}

/// Of each node of the old page, in document order, whether the new page agrees on what each class of rules looks
/// at. Each page is gone over once for each kind of key, in time linear in its nodes and references but for look-ups
/// by number and by id. Fails only for want of memory.
pub fn changes(alloc: Global, old: &Tree, new: &Tree) -> Result<Vec<Flags>, OutOfMemory>
    ensures { IfOk result (λ flags. AreFlags (seen old.now.trees) (seen new.now.trees) flags.items) }
{
    let marks = compare(alloc, old, new)?;
    let by_number = marks_by_number(alloc, old, new, &marks)?;
    let old_labels = labels_by_id(alloc, old)?;
    let new_labels = labels_by_id(alloc, new)?;
    let pages = Pages {
        old,
        new,
        by_number: &by_number,
        old_labels: &old_labels,
        new_labels: &new_labels,
    };
    page_flags(alloc, &pages, &marks)
}
