ghost use Rattle.std.specs.Prelude.{◌≡◌, ℕ, List, filter, true};
ghost use Rattle.snap_tree.specs.declared.row.Attr.{Attr};
ghost use Rattle.snap_tree.specs.declared.row.NodeId.{NodeId};
ghost use Rattle.snap_tree.specs.declared.row.Row.{Row};
ghost use Rattle.snap_tree.specs.Rows.{attrs_of};
ghost use Rattle.texts.specs.Words.{same_folded};
ghost use Rattle.snap_tree.specs.Trees.{Trees};
ghost use Rattle.snap_tree.specs.Labels.{first_with_id, labels_for};
ghost use Rattle.snap_tree.specs.Lookups.{tagged};
ghost use Rattle.acc_tree.specs.declared.attributes.Attribute.{Attribute};
ghost use Rattle.acc_tree.specs.Attributes.{attribute_name, is_aria, is_looked_at};
ghost use Rattle.acc_tree.specs.Seen.{seen, seen_row, attr, aria_attrs};
ghost use Rattle.acc_tree.specs.Sights.{SightIsSpot, SeenSpot, TellsNearest};

/// Laws of sights, and of what is seen. It does nothing: the clauses are what it is for.
///
/// A sight is the spot of its number, with the list of those above summed up. What is seen of a spot is
/// the spot among what is seen. Ids, tags and labels find the same elements there.
#[tactic(auto, using(crate::proofs::Sighting::sight_is_spot, crate::proofs::Sighting::seen_spot_is, crate::proofs::Finding::id_found, crate::proofs::Finding::tagged_seen, crate::proofs::Finding::labels_seen))]
pub fn laws_of_sights()
    ensures sight { (t : Trees) (n : NodeId) → SightIsSpot t n }
    ensures seen { (t : Trees) (n : NodeId) → SeenSpot t n }
    ensures ids { (t : Trees) (id : List ℕ) → first_with_id (seen t) id ≡ first_with_id t id }
    ensures tags { (t : Trees) (tag : List ℕ) → tagged (seen t) tag ≡ tagged t tag }
    ensures labels { (t : Trees) (n : NodeId) → labels_for (seen t) n ≡ labels_for t n }
{}

/// The law of what is above a node. It does nothing: the clause is what it is for.
///
/// The nearest HTML `table` and the nearest HTML `label` that a sight tells of are the first ones among the node's
/// ancestors, of which the parent comes first; it tells of none exactly where no ancestor is one.
pub fn laws_of_above()
    ensures { (t : Trees) (n : NodeId) → TellsNearest t n }
{}

/// Laws of what is seen of attributes: it is the row's own.
///
/// A seen row has the row's looked-at attributes, in their order and spelling, and no other. An attribute
/// that is asked for by name is looked at, and so is each whose name begins `aria-`. So the seen row and
/// the row itself say the same of both.
#[tactic(auto, using(crate::proofs::Seeing::attrs_seen, crate::proofs::Seeing::named_seen, crate::proofs::Seeing::aria_seen, crate::proofs::Seeing::attr_seen, crate::proofs::Seeing::aria_attrs_seen))]
pub fn laws_of_attributes()
    ensures kept { (row : Row) → attrs_of (seen_row row) ≡ filter (λ a. is_looked_at a.name) (attrs_of row) }
    ensures named { (name : Attribute) (a : Attr) → same_folded a.name (attribute_name name) ≡ true
        → is_looked_at a.name ≡ true }
    ensures aria { (a : Attr) → is_aria a.name ≡ true → is_looked_at a.name ≡ true }
    ensures attr { (name : Attribute) (row : Row) → attr name (seen_row row) ≡ attr name row }
    ensures aria_attrs { (row : Row) → aria_attrs (seen_row row) ≡ aria_attrs row }
{}
