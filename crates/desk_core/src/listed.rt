//! Trees with the languages of their site, and as they are kept: without.

ghost use Rattle.std.specs.Prelude.{◌≡◌, [], IfOk};
ghost use Rattle.snap_tree.specs.Langs.{AreLangs};
ghost use Rattle.snap_tree.specs.Trees.{with_langs};
ghost use Rattle.desk_core.specs.Placing.{work_listed};

use audit::PageWork;
use snap_tree::{Duplicate, List, OutOfMemory, Text, Tree};
use std::alloc::Global;

/// The tree as it is kept.
pub fn bare(alloc: Global, tree: &Tree) -> Result<Tree, OutOfMemory>
    ensures { IfOk result (λ t. t ≡ with_langs tree.now []) }
{
    tree.with_langs(alloc, &List::from_vec(Vec::new(alloc)))
}

/// A page that was built, with the languages of its site.
pub fn work_listed(
    alloc: Global,
    languages: &List<Text>,
    work: &PageWork,
) -> Result<PageWork, OutOfMemory>
    requires { AreLangs languages.now }
    ensures { IfOk result (λ w. w ≡ work_listed languages.now work.now) }
{
    let tree = work.tree.with_langs(alloc, languages)?;
    let judgements = work.judgements.copy(alloc)?;
    Ok(PageWork { tree, judgements })
}
