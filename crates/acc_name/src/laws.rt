ghost use Rattle.std.specs.Prelude.{ℕ, List, Bool, Option};
ghost use Rattle.aria_tables.specs.declared.role.Role.{Role};
ghost use Rattle.snap_tree.specs.declared.row.NodeId.{NodeId};
ghost use Rattle.snap_tree.specs.Trees.{Trees};
ghost use Rattle.acc_tree.specs.Sights.{Sight};
ghost use Rattle.acc_name.specs.declared.named.How.{How};
ghost use Rattle.acc_name.specs.Names.{Asked};
ghost use Rattle.acc_name.specs.NameLaws.{OwnNodeIsSilent, HiddenIsSilent, FirstDecides, ReferencesTell, ReferredSays, FollowsOnce};
ghost use Rattle.acc_name.specs.NameLaws.{ValuesWithin, ContentNames, TextSaysItself, ChildrenInOrder, NameIsOwn, StrangerHasNone};

/// Laws of names: each clause in the shape of the standard's step. It does nothing: the clauses are what
/// it is for.
///
/// The node asked for says nothing within its own name, nor does a hidden one. The first of an element's
/// clauses that isn't blank decides, where the children say their texts in order, each by itself. What
/// references find says its text as one that is referred to, and what aria-owns finds as a child does; no
/// reference is followed there.
#[tactic(auto, using(crate::proofs::Deciding::first_decides, crate::proofs::Deciding::follows_once, crate::proofs::Deciding::text_says_itself, crate::proofs::Deciding::children_in_order, crate::proofs::Deciding::values_within, crate::proofs::Alone::stranger))]
pub fn laws_of_names()
    ensures own_node { (asked : Asked) (s : Sight) → OwnNodeIsSilent asked s }
    ensures hidden { (asked : Asked) (how : How) (s : Sight) → HiddenIsSilent asked how s }
    ensures decides { (asked : Asked) (how : How) (s : Sight) → FirstDecides asked how s }
    ensures references { (t : Trees) (n : NodeId) (hidden : Bool) (s : Sight) → ReferencesTell t n hidden s }
    ensures referred { (t : Trees) (n m : NodeId) → ReferredSays t n m }
    ensures once { (n : NodeId) (hidden : Bool) (how : How) (s : Sight) → FollowsOnce n hidden how s }
    ensures values { (asked : Asked) (s : Sight) → ValuesWithin asked s }
    ensures content { (role : Option Role) (text : List ℕ) → ContentNames role text }
    ensures text { (asked : Asked) (how : How) (s : Sight) → TextSaysItself asked how s }
    ensures children { (asked : Asked) (s : Sight) → ChildrenInOrder asked s }
    ensures name { (t : Trees) (n : NodeId) → NameIsOwn t n }
    ensures stranger { (t : Trees) (n : NodeId) → StrangerHasNone t n }
{}
