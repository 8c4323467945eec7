ghost use Rattle.std.specs.Prelude.{ℕ, List};
ghost use Rattle.snap_tree.specs.Trees.{Trees, Document};
ghost use Rattle.aria_tables.specs.declared.role.Role.{Role};
ghost use Rattle.acc_tree.specs.Owning.{items, owned};
ghost use Rattle.acc_tree.specs.Pages.{role, explicit_role, is_exposed, is_included, is_decorative};
ghost use Rattle.acc_tree.specs.Sights.{sight_of};
ghost use Rattle.page_keys.specs.Keys.{Key};
ghost use Rattle.page_keys.specs.Same.{TellsSame};
ghost use Rattle.page_keys.specs.PageKeys.{PageKey, TellsSameIn};
ghost use Rattle.page_keys.specs.Nodes.{self_keys, tree_keys, node_keys};
ghost use Rattle.page_keys.specs.Classes.{sub_keys, table_keys, title_keys, metas_keys, whole_keys};
ghost use Rattle.page_keys.specs.Laws.{LooksAt, alone, subtree, table_sight, root_titles, meta_owns, page_at};
ghost use Rattle.page_keys.specs.Laws.{words_find, labelled_by, labels_at, follows_at, owned_elements};

/// The test of a key tells whether two pages agree on it. It does nothing: the clauses are what it is for.
#[tactic(auto, using(crate::proofs::Tests::same_tells, crate::proofs::PageTests::same_in_tells))]
pub fn laws_of_keys()
    ensures nodes { (old new : Trees) (key : Key) → TellsSame old new key }
    ensures pages { (old new : Document) (key : PageKey) → TellsSameIn old new key }
{}

/// What is said of a node by itself. It does nothing: the clauses are what it is for.
///
/// Two well pages that agree on its Frame and Own and on the Frame of each node above it say the same of its row,
/// of what is above it, of its role, and of whether it is exposed and included. Neither page need hold the node.
#[tactic(auto, using(crate::proofs::Looking::alone_looks, crate::proofs::Looking::role_looks, crate::proofs::Looking::explicit_looks, crate::proofs::Looking::exposed_looks, crate::proofs::Looking::included_looks, crate::proofs::Looking::decorative_looks))]
pub fn laws_of_nodes()
    ensures alone { LooksAt alone self_keys }
    ensures role { LooksAt role self_keys }
    ensures explicit { LooksAt explicit_role self_keys }
    ensures exposed { LooksAt is_exposed self_keys }
    ensures included { LooksAt is_included self_keys }
    ensures decorative { LooksAt is_decorative self_keys }
{}

/// What is said of a node and of those below it. It does nothing: the clauses are what it is for.
///
/// Two well pages that agree on Frame, Own and Kids throughout its subtree have the same nodes there, in the same
/// order, with equal rows. Where they agree on the Frames above it too, its sight is the same, of which all else is
/// a function: what is above each of these nodes and the role of each.
#[tactic(auto, using(crate::proofs::Looking::subtree_looks, crate::proofs::Looking::sight_looks))]
pub fn laws_of_subtrees()
    ensures subtree { LooksAt subtree tree_keys }
    ensures sight { LooksAt sight_of node_keys }
{}

/// What the references of a node find. It does nothing: the clauses are what it is for.
///
/// Two well pages that agree on what the class Sub looks at find the same for each word of its references, or
/// nothing on both; and what aria-labelledby finds, its labels, and the nodes that it follows by aria-owns, are seen
/// the same.
#[tactic(auto, using(crate::proofs::Looking::words_look, crate::proofs::Looking::labelled_looks, crate::proofs::Looking::labels_look, crate::proofs::Looking::follows_look))]
pub fn laws_of_references()
    ensures words { LooksAt words_find sub_keys }
    ensures labelled_by { LooksAt labelled_by sub_keys }
    ensures labels { LooksAt labels_at sub_keys }
    ensures follows { LooksAt follows_at sub_keys }
{}

/// What a node owns. It does nothing: the clauses are what it is for.
///
/// Two well pages that agree on what the class Sub looks at have it own the same elements, of the same roles, whether
/// aria-owns is followed or not, and whichever roles are looked through.
#[tactic(auto, using(crate::proofs::Looking::elements_look, crate::proofs::Looking::items_look, crate::proofs::Looking::owned_looks))]
pub fn laws_of_owning()
    ensures elements { (through : List Role) (number : ℕ) → LooksAt (owned_elements through number) sub_keys }
    ensures items { (number : ℕ) → LooksAt (λ t n. items t n number) sub_keys }
    ensures owned { LooksAt owned sub_keys }
{}

/// What is said of the nearest table, of the titles, of the metas and of the whole page. It does nothing: the
/// clauses are what it is for.
///
/// Two well pages that agree on what the class looks at say the same: of the table nearest to any node, at the root
/// of the titles and of the page, and at a `meta` of all metas.
#[tactic(auto, using(crate::proofs::Looking::table_looks, crate::proofs::Looking::titles_look, crate::proofs::Looking::metas_look, crate::proofs::Looking::whole_looks))]
pub fn laws_of_classes()
    ensures table { LooksAt table_sight table_keys }
    ensures titles { LooksAt root_titles title_keys }
    ensures metas { LooksAt meta_owns metas_keys }
    ensures whole { LooksAt page_at whole_keys }
{}
