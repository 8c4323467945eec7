ghost use Rattle.std.specs.Prelude.{◌≡◌, [], ◌∷◌, ◌<◌, length, MatchOption, IfSome};
ghost use Rattle.snap_tree.specs.Labels.{first_with_id};
ghost use Rattle.texts.specs.Words.{words};
ghost use Rattle.acc_tree.specs.Seen.{seen};
ghost use Rattle.acc_tree.specs.References.{found};

use snap_tree::{NodeId, Tree, next_word};

/// The first element in document order with this id, which compares exactly; None where no element has
/// it, and for the empty id.
#[tactic(auto, using(crate::proofs::Finding::id_found))]
pub fn element_of(tree: &Tree, id: &str) -> Option<NodeId>
    ensures { result ≡ first_with_id (seen tree.now.trees) id.now }
{
    tree.by_id(id)
}

/// The first element that a word of the text finds, and the text behind that word; None where no word
/// is an element's id.
///
/// So all elements that a reference finds are gone over by
/// `while let Some((node, later)) = first_found(tree, rest) { .. rest = later; }`.
pub fn first_found<'a>(tree: &Tree, text: &'a str) -> Option<(NodeId, &'a str)>
    ensures found { MatchOption result (found (seen tree.now.trees) (words text.now) ≡ [])
        (λ first. found (seen tree.now.trees) (words text.now)
        ≡ first.0 ∷ found (seen tree.now.trees) (words first.1.now)) }
    ensures shorter { IfSome result (λ first. length first.1.now < length text.now) }
{
    let mut rest = text;
    while let Some((word, later)) = next_word(rest) {
        if let Some(node) = element_of(tree, word) {
            return Some((node, later));
        }
        rest = later;
    }
    None
}
