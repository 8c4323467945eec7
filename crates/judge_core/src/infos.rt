ghost use Rattle.std.specs.Prelude.{◌≡◌, IfOk};

use rule_core::{RuleBook, RuleInfo};
use snap_tree::OutOfMemory;
use std::alloc::Global;

/// The infos of a book's rules, in the order of their numbers.
pub fn infos_of<B: RuleBook>(alloc: Global, book: &B) -> Result<Vec<RuleInfo>, OutOfMemory>
    ensures { IfOk result (λ infos. infos.items ≡ B.book.infos) }
{
    let mut infos = Vec::new(alloc);
    for place in 0..65_536 {
        let Some(info) = book.info(place) else {
            return Ok(infos);
        };
        infos.push(info)?;
    }
    Ok(infos)
}
