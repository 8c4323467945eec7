ghost use Rattle.std.specs.Prelude.{◌≡◌, IfOk};
ghost use Rattle.snap_tree.specs.Langs.{AreLangs};
ghost use Rattle.keep_core.specs.Listed.{listed};

use crate::page::Page;
use snap_tree::{List, OutOfMemory, Text};
use std::alloc::Global;

/// A page that was loaded, with the languages of its site, without which it is kept.
pub fn listed(alloc: Global, page: Page, languages: &List<Text>) -> Result<Page, OutOfMemory>
    requires { AreLangs languages.now }
    ensures { IfOk result (λ p. p ≡ listed languages.now page) }
{
    let tree = page.tree.with_langs(alloc, languages)?;
    Ok(Page {
        head: page.head,
        tree,
    })
}
