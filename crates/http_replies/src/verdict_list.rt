ghost use Rattle.std.specs.Prelude.{◌≡◌, map, IfOk, OnOk};
ghost use Rattle.serde_json.specs.View.{view};
ghost use Rattle.serde_json.specs.Written.{compact_text};
ghost use Rattle.reports.specs.Ids.{HaveTexts};
ghost use Rattle.http_replies.specs.VerdictList.{verdict_data, verdicts_data};

use crate::members::{put_flag, put_number, put_word};
use crate::outcomes::put_id;
use desk_core::PageVerdicts;
use kept_verdicts::KeptVerdict;
use reports::outcome_word;
use rule_core::{RuleInfo, digest};
use serde_json::{Map, Value, put};
use snap_tree::OutOfMemory;
use std::alloc::Global;

// The body of the reply that tells the judgements of a page.
#[tactic(auto, using(crate::proofs::NoFloats::verdicts_have_no_float))]
pub(crate) fn verdicts_body(
    alloc: Global,
    infos: &[RuleInfo],
    told: &PageVerdicts,
) -> Result<Vec<u8>, OutOfMemory>
    requires { HaveTexts infos.now }
    ensures { IfOk result (λ b. b.items ≡ compact_text (verdicts_data infos.now told.now)) }
{
    let value = verdicts_value(alloc, infos, told)?;
    Ok(value.to_vec(alloc)?)
}

#[tactic(auto, unfolding(crate::specs::VerdictList::verdicts_data))]
fn verdicts_value(
    alloc: Global,
    infos: &[RuleInfo],
    told: &PageVerdicts,
) -> Result<Value, OutOfMemory>
    requires { HaveTexts infos.now }
    ensures { IfOk result (λ v. view v ≡ verdicts_data infos.now told.now) }
{
    let verdicts = verdict_values(alloc, infos, told.verdicts.as_slice())?;
    let mut members = Map::new(alloc);
    put_number(&mut members, alloc, "rev", told.rev)?;
    put(&mut members, alloc, "verdicts", Value::Array(verdicts))?;
    Ok(Value::Object(members))
}

fn verdict_values(
    alloc: Global,
    infos: &[RuleInfo],
    verdicts: &[KeptVerdict],
) -> Result<Vec<Value>, OutOfMemory>
    requires { HaveTexts infos.now }
    ensures { IfOk result (λ v. map view v.items ≡ map (verdict_data infos.now) verdicts.now) }
{
    let mut values = Vec::with_capacity(alloc, verdicts.len())?;
    for verdict in verdicts {
        values.push(verdict_value(alloc, infos, verdict)?)?;
    }
    Ok(values)
}

#[tactic(auto, unfolding(crate::specs::VerdictList::verdict_data))]
fn verdict_value(
    alloc: Global,
    infos: &[RuleInfo],
    verdict: &KeptVerdict,
) -> Result<Value, OutOfMemory>
    requires { HaveTexts infos.now }
    ensures { IfOk result (λ v. view v ≡ verdict_data infos.now verdict.now) }
{
    let judgement = &verdict.judgement;
    let digest = hex::encode(alloc, digest(&judgement.evidence))?;
    let mut members = Map::new(alloc);
    put_word(&mut members, alloc, "by", judgement.hand.as_str())?;
    put_flag(&mut members, alloc, "counts", verdict.counts)?;
    put_word(&mut members, alloc, "digest", digest.as_str())?;
    put_number(&mut members, alloc, "node", u64::from(judgement.node.0))?;
    put_word(&mut members, alloc, "note", judgement.note.as_str())?;
    put_id(&mut members, alloc, infos, judgement.rule)?;
    put_word(
        &mut members,
        alloc,
        "verdict",
        outcome_word(judgement.verdict),
    )?;
    Ok(Value::Object(members))
}
