ghost use Rattle.std.specs.Prelude.{◌≡◌, map, [], IfOk};
ghost use Rattle.std.specs.List.{flat_map};
ghost use Rattle.std.specs.Option.{option_map_or};
ghost use Rattle.snap_tree.specs.Lookups.{tagged};
ghost use Rattle.acc_tree.specs.Seen.{seen};
ghost use Rattle.page_keys.specs.Keys.{own_key};
ghost use Rattle.page_keys.specs.Same.{all_same};
ghost use Rattle.page_keys.specs.Nodes.{tree_keys};
ghost use Rattle.page_keys.specs.Classes.{titles, metas};
ghost use Rattle.page_changes.specs.References.{AreCompared};

use crate::by_number::agreed_at;
use crate::pages::Pages;
use crate::references::same_numbers;
use snap_tree::{List, NodeId, OutOfMemory, Text, Tree};
use std::alloc::Global;

#[tactic(auto, using(acc_tree::proofs::Finding::tagged_seen))]
fn tagged(alloc: Global, page: &Tree, tag: &str) -> Result<List<NodeId>, OutOfMemory>
    ensures { IfOk result (λ nodes. nodes ≡ tagged (seen page.now.trees) tag.now) }
{
    let tag = Text::from_str(alloc, tag)?;
    page.tagged(alloc, &tag)
}

// Whether the subtrees of these nodes agree.
fn trees_same(pages: &Pages<'_>, nodes: &[NodeId]) -> bool
    requires { AreCompared pages.now }
    ensures { result ≡ all_same (seen pages.now.old.now.trees) (seen pages.now.new.now.trees) (flat_map (tree_keys (seen pages.now.old.now.trees)) nodes.now) }
{
    let mut rest = nodes;
    while let Some((node, later)) = rest.split_first() {
        if !agreed_at(pages.old, pages.new, pages.by_number, *node).tree {
            return false;
        }
        rest = later;
    }
    true
}

// Whether what these nodes have of their own agrees.
fn owns_same(pages: &Pages<'_>, nodes: &[NodeId]) -> bool
    requires { AreCompared pages.now }
    ensures { result ≡ all_same (seen pages.now.old.now.trees) (seen pages.now.new.now.trees) (map own_key nodes.now) }
{
    let mut rest = nodes;
    while let Some((node, later)) = rest.split_first() {
        if !agreed_at(pages.old, pages.new, pages.by_number, *node).own {
            return false;
        }
        rest = later;
    }
    true
}

/// Whether the subtree of the nearest table agrees, where there is one.
pub(crate) fn table_same(pages: &Pages<'_>, table: Option<NodeId>) -> bool
    requires { AreCompared pages.now }
    ensures { result ≡ all_same (seen pages.now.old.now.trees) (seen pages.now.new.now.trees) (option_map_or (tree_keys (seen pages.now.old.now.trees)) table []) }
{
    match table {
        Some(table) => agreed_at(pages.old, pages.new, pages.by_number, table).tree,
        None => true,
    }
}

/// Whether the pages have the same titles, which agree.
#[tactic(auto, using(crate::proofs::Keyed::titles_are))]
pub(crate) fn titles_same(alloc: Global, pages: &Pages<'_>) -> Result<bool, OutOfMemory>
    requires { AreCompared pages.now }
    ensures { IfOk result (λ same. same ≡ all_same (seen pages.now.old.now.trees) (seen pages.now.new.now.trees) (titles (seen pages.now.old.now.trees))) }
{
    let before = tagged(alloc, pages.old, "title")?;
    let after = tagged(alloc, pages.new, "title")?;
    let same = same_numbers(before.as_slice(), after.as_slice());
    let agree = trees_same(pages, before.as_slice());
    Ok(same & agree)
}

/// Whether the pages have the same metas, which agree in what each has of its own.
#[tactic(auto, using(crate::proofs::Keyed::metas_are))]
pub(crate) fn metas_same(alloc: Global, pages: &Pages<'_>) -> Result<bool, OutOfMemory>
    requires { AreCompared pages.now }
    ensures { IfOk result (λ same. same ≡ all_same (seen pages.now.old.now.trees) (seen pages.now.new.now.trees) (metas (seen pages.now.old.now.trees))) }
{
    let before = tagged(alloc, pages.old, "meta")?;
    let after = tagged(alloc, pages.new, "meta")?;
    let same = same_numbers(before.as_slice(), after.as_slice());
    let agree = owns_same(pages, before.as_slice());
    Ok(same & agree)
}
