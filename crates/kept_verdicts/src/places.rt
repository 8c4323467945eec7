ghost use Rattle.std.specs.Prelude.{◌≡◌, IfOk, OnOk};
ghost use Rattle.kept_verdicts.specs.Places.{HasPut, ArePlaced};

use judge_core::Judgement;
use snap_tree::OutOfMemory;
use std::alloc::Global;
use std::collections::BTreeMap;

/// The places of the judgements on each node, in the order of the list that they are of.
pub type Places = BTreeMap<u32, Vec<usize>>;

fn put(places: &mut Places, node: u32, place: usize) -> Result<(), OutOfMemory>
    ensures { OnOk result (HasPut places.old places.new node place) }
{
    places.entry(node)?.or_default().push(place)?;
    Ok(())
}

/// The places of the judgements of a list by the node that they are on, counted from 0. Fails only for want of memory.
pub fn places_of(alloc: Global, js: &[Judgement]) -> Result<Places, OutOfMemory>
    ensures { IfOk result (λ places. ArePlaced js.now places) }
{
    let mut places: Places = BTreeMap::new(alloc);
    for (place, judgement) in js.iter().enumerate() {
        put(&mut places, judgement.node.0, place)?;
    }
    Ok(places)
}
