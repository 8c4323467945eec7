ghost use Rattle.std.specs.Prelude.{◌≡◌, ◌<◌, ◌^◌, ℕ, None, IfOk};
ghost use Rattle.snap_tree.specs.Grown.{page_of};
ghost use Rattle.made_pages.specs.Pages.{made_page, made_pages, page_fault};

use crate::page::made_page;
use snap_tree::{BuildFault, OutOfMemory, Tree};
use std::alloc::Global;

/// No page that a number makes has a fault, whatever the number. It does nothing: the clause is what it is for.
#[tactic(auto, using(crate::proofs::Faultless::faultless))]
pub fn laws_of_pages()
    ensures faultless { (number page : ℕ) → page < 2 ^ 32 → page_fault number page ≡ None }
{}

/// A page that a number makes: the tree of its rows. It fails only for want of memory.
#[tactic(auto, using(crate::proofs::Faultless::faultless))]
pub fn made_tree(alloc: Global, number: u32, page: u32) -> Result<Tree, OutOfMemory>
    ensures { IfOk result (λ tree. tree ≡ page_of (made_page number page)) }
{
    match Tree::build(alloc, made_page(alloc, number, page)?) {
        Ok(tree) => Ok(tree),
        Err(BuildFault::Tree(_)) => unreachable!(),
        Err(BuildFault::OutOfMemory) => Err(OutOfMemory),
    }
}

/// The pages that a number makes, from 1 to the last. It fails only for want of memory.
#[tactic(auto, using(crate::proofs::Firsts::made_more))]
pub fn made_pages(alloc: Global, number: u32, pages: u32) -> Result<Vec<Tree>, OutOfMemory>
    ensures { IfOk result (λ trees. trees.items ≡ made_pages number pages) }
{
    let mut trees = Vec::new(alloc);
    for earlier in 0..pages {
        let tree = made_tree(alloc, number, earlier + 1)?;
        trees.push(tree)?;
    }
    Ok(trees)
}
