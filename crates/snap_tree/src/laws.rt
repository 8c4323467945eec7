ghost use Rattle.std.specs.Prelude.{◌≡◌, List, [], ◌∷◌, ◌++◌, None, ◌↔◌};
ghost use Rattle.snap_tree.specs.declared.row.NodeId.{NodeId};
ghost use Rattle.snap_tree.specs.declared.row.Row.{Row};
ghost use Rattle.snap_tree.specs.Trees.{Trees, rows_of};
ghost use Rattle.snap_tree.specs.Grown.{grown, planted};
ghost use Rattle.snap_tree.specs.Faults.{tree_fault};
ghost use Rattle.snap_tree.specs.Well.{IsWell, AreApart};
ghost use Rattle.snap_tree.specs.Rows.{own_fault};
ghost use Rattle.snap_tree.specs.WellRow.{IsWellRow};
ghost use Rattle.snap_tree.specs.Naming.{AreNamed};
ghost use Rattle.snap_tree.specs.declared.build.TheConstants.{MOST_NODES, MOST_DEPTH};
ghost use Rattle.snap_tree.specs.declared.limits.TheConstants.{MOST_ATTRS, MOST_BYTES};
ghost use Rattle.snap_tree.specs.declared.weight.TheConstants.{MOST_WEIGHT};
ghost use Rattle.snap_tree.specs.SpotLaws.{AbsentHasNoSpot, SpotHasRow, NamesFirstAbove, ClimbsAbove, WalksAbove, GrowBeside};

/// Laws of the trees that rows make. It does nothing: the clauses are what it is for.
///
/// Growing is the plain way of making a tree of rows: one row after another goes under its parent as
/// the last child. No row is lost or made, and rows without a fault make a well tree. Trees in which
/// each node names the one above it, and whose numbers differ, are what their rows grow to. The rows of a
/// well tree have no fault, so the rows that `Tree::build` accepts are exactly those of well trees. A row
/// has no fault by itself exactly where it keeps the limits.
#[tactic(auto, using(crate::proofs::Growth::grown_push, crate::proofs::Growth::rows_of_grown, crate::proofs::Wellness::well_from_sound, crate::proofs::Naming::regrown, crate::proofs::Naming::named_well, crate::proofs::Soundness::sound_from_well, crate::proofs::RowLimits::row_limits))]
pub fn laws_of_growth()
    ensures first { (r : Row) → grown (r ∷ []) ≡ planted r (grown []) }
    ensures next { (rows : List Row) (r : Row) → grown (rows ++ r ∷ []) ≡ planted r (grown rows) }
    ensures kept { (rows : List Row) → rows_of (grown rows) ≡ rows }
    ensures well { (rows : List Row) → tree_fault rows ≡ None → IsWell (grown rows) }
    ensures regrown { (t : Trees) → AreNamed None t → AreApart (rows_of t) → grown (rows_of t) ≡ t }
    ensures named { (t : Trees) → IsWell t → AreNamed None t }
    ensures exact { (t : Trees) → IsWell t → tree_fault (rows_of t) ≡ None }
    ensures limits { (r : Row) → (own_fault r ≡ None) ↔ IsWellRow r }
{}

/// Laws of the spot of a node: its row, what is below it, and what is above it.
///
/// A number of no row has no spot, and the row of a spot is the row of its number. In a well tree a node
/// names the first of those above it, that one stands in the tree with the others above it, and so a
/// walk by the parent's number goes over the list above. Rows that name none of the rows before them
/// grow to trees of their own beside those.
pub fn laws_of_spots()
    ensures absent { (t : Trees) (n : NodeId) → AbsentHasNoSpot t n }
    ensures row { (t : Trees) (n : NodeId) → SpotHasRow t n }
    ensures named { (t : Trees) (n : NodeId) → IsWell t → NamesFirstAbove t n }
    ensures climbs { (t : Trees) (n : NodeId) → IsWell t → ClimbsAbove t n }
    ensures walks { (t : Trees) (n : NodeId) → IsWell t → WalksAbove t n }
    ensures beside { (rows others : List Row) → GrowBeside rows others }
{}

/// The limits of a page, as numbers: nodes, depth, attributes of an element, bytes of a text, a tag, or an
/// attribute's name or value, and the weight of its references. Definitions name the limits, so these
/// clauses alone say how much each is.
pub fn laws_of_limits()
    ensures nodes { MOST_NODES ≡ 10000 }
    ensures depth { MOST_DEPTH ≡ 128 }
    ensures attributes { MOST_ATTRS ≡ 64 }
    ensures bytes { MOST_BYTES ≡ 65536 }
    ensures weight { MOST_WEIGHT ≡ 100000 }
{}
