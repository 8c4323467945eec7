ghost use Rattle.std.specs.Prelude.{◌≡◌, map, IfOk};
ghost use Rattle.fixture_rules.specs.Judged.{judgement_of};

use judge_core::Judgement;
use rule_core::{Auto, RuleNo};
use snap_tree::{List, NodeId, OutOfMemory, Text};
use std::alloc::Global;

/// A judgement in a table: the rule, the node, the evidence, the verdict and who judged.
pub type Judged<'a> = (u16, u32, &'a str, Auto, &'a str);

fn judgement(alloc: Global, judged: Judged) -> Result<Judgement, OutOfMemory>
    ensures { IfOk result (λ j. j ≡ judgement_of judged.entry) }
{
    let (rule, node, evidence, verdict, hand) = judged;
    let hand = Text::from_str(alloc, hand)?;
    let evidence = Text::from_str(alloc, evidence)?;
    Ok(Judgement {
        rule: RuleNo(rule),
        node: NodeId(node),
        verdict,
        hand,
        note: Text::new(alloc),
        evidence,
    })
}

/// The judgements of a table, each without a note. Fails only for want of memory.
pub fn judgements(alloc: Global, judged: &[Judged]) -> Result<List<Judgement>, OutOfMemory>
    ensures { IfOk result (λ list. list ≡ map judgement_of judged.now) }
{
    let mut list = Vec::new(alloc);
    for row in judged {
        list.push(judgement(alloc, *row)?)?;
    }
    Ok(List::from_vec(list))
}
