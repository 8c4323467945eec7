ghost use Rattle.std.specs.Prelude.{Bool};
ghost use Rattle.snap_tree.specs.declared.row.NodeId.{NodeId};
ghost use Rattle.acc_name.specs.declared.named.How.{How};
ghost use Rattle.acc_name.specs.Local.{NameLooks, OpenLooks, ClosedLooks};

/// What a name looks at, and what each node says in one. It does nothing: the clauses are what it is for.
///
/// Two well pages that agree on a node, on its subtree, and on what references there look at, give the node the same
/// name, by the same clause. A reference looks at its id also where that finds nothing; an element that is found is
/// looked at with its subtree, and with the frames above it.
///
/// On such pages the node says the same in the name of any node, however it is come to, and whether hidden nodes
/// count or not. Where no reference is open, it is enough that they agree on the node and on its subtree.
#[tactic(auto, using(crate::proofs::NamedAgain::name_looks, crate::proofs::NamedAgain::open_looks, crate::proofs::NamedAgain::closed_looks))]
pub fn law_of_locality()
    ensures name { NameLooks }
    ensures said { (node : NodeId) (how : How) (hidden : Bool) → OpenLooks node how hidden }
    ensures said_within_reference { (node : NodeId) (how : How) (hidden : Bool) → ClosedLooks node how hidden }
{}
