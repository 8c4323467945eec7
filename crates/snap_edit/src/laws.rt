ghost use Rattle.std.specs.Prelude.{◌≡◌, ℕ, List, [], Ok};
ghost use Rattle.snap_tree.specs.declared.row.NodeId.{NodeId};
ghost use Rattle.snap_tree.specs.Trees.{Trees};
ghost use Rattle.snap_edit.specs.declared.edit.TheConstants.{MOST_EDITS};
ghost use Rattle.snap_edit.specs.declared.edit.Edit.TheVariants.{DropAttr, Remove};
ghost use Rattle.snap_edit.specs.Edits.{edited_all};
ghost use Rattle.snap_edit.specs.Laws.{GoesInParts, DropUndoesSet, IsHeavyAtMost, FactsBreakNothing};

/// Laws of edits. It does nothing: the clauses are what it is for.
///
/// An empty list gives the page back. A list in two parts is the second part applied to what the first
/// gives, where both together are at most 200. An attribute that an element of a page doesn't have is set
/// and then dropped: the page is as before. A page from which an attribute or a subtree is taken has one
/// fault at the most: what references find is too heavy. Other facts for a page's node are never refused.
#[tactic(auto, using(crate::proofs::Undoing::goes_in_parts, crate::proofs::Shaping::removed_in_shape, crate::proofs::Facts::facts_break_nothing))]
pub fn laws_of_edits()
    ensures none { (t : Trees) → edited_all t [] ≡ Ok t }
    ensures parts { GoesInParts }
    ensures undone { DropUndoesSet }
    ensures dropped { (n : NodeId) (name : List ℕ) → IsHeavyAtMost (DropAttr n name) }
    ensures removed { (n : NodeId) → IsHeavyAtMost (Remove n) }
    ensures facts { FactsBreakNothing }
{}

/// The limit on a list of edits, as a number. Definitions name the limit, so this clause alone says how much
/// it is.
pub fn laws_of_limits()
    ensures edits { MOST_EDITS ≡ 200 }
{}
