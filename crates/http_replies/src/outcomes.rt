ghost use Rattle.std.specs.Prelude.{◌≡◌, ◌++◌, [], ◌∷◌, map, codes, if◌then◌else◌, IfOk, OnOk};
ghost use Rattle.std.specs.Str.{IsUtf8};
ghost use Rattle.serde_json.specs.Data.{string, put as with_member};
ghost use Rattle.serde_json.specs.View.{view, members_view};
ghost use Rattle.serde_json.specs.Written.{compact_text};
ghost use Rattle.reports.specs.Ids.{HaveTexts};
ghost use Rattle.reports.specs.TextReport.{is_inapplicable, is_known};
ghost use Rattle.http_replies.specs.Words.{id_of};
ghost use Rattle.http_replies.specs.Shown.{row_data, inapplicable_ids, known_rows, outcomes_data};

use crate::members::{Members, put_number, put_word};
use crate::words::rule_of;
use judge_core::OutRow;
use keep_core::SitePage;
use reports::{is_inapplicable, is_known, outcome_word};
use rule_core::{RuleInfo, RuleNo, digest};
use serde_json::{Map, Value, put};
use snap_tree::OutOfMemory;
use std::alloc::Global;
use std::str;

// The body of the reply that shows the outcomes of a page.
#[tactic(auto, using(crate::proofs::NoFloats::outcomes_have_no_float))]
pub(crate) fn outcomes_body(
    alloc: Global,
    infos: &[RuleInfo],
    page: &SitePage,
) -> Result<Vec<u8>, OutOfMemory>
    requires { HaveTexts infos.now }
    ensures { IfOk result (λ b. b.items ≡ compact_text (outcomes_data infos.now page.now)) }
{
    let value = outcomes_value(alloc, infos, page)?;
    Ok(value.to_vec(alloc)?)
}

#[tactic(auto, unfolding(crate::specs::Shown::outcomes_data))]
fn outcomes_value(alloc: Global, infos: &[RuleInfo], page: &SitePage) -> Result<Value, OutOfMemory>
    requires { HaveTexts infos.now }
    ensures { IfOk result (λ v. view v ≡ outcomes_data infos.now page.now) }
{
    let rows = page.outcomes.rows.as_slice();
    let ids = ids_value(alloc, infos, rows)?;
    let shown = rows_value(alloc, infos, rows)?;
    let mut members = Map::new(alloc);
    put(&mut members, alloc, "inapplicable", Value::Array(ids))?;
    put(&mut members, alloc, "outcomes", Value::Array(shown))?;
    put_number(&mut members, alloc, "rev", page.head.rev)?;
    Ok(Value::Object(members))
}

// The ids of the rules without a row.
fn ids_value(alloc: Global, infos: &[RuleInfo], rows: &[OutRow]) -> Result<Vec<Value>, OutOfMemory>
    requires { HaveTexts infos.now }
    ensures { IfOk result (λ v. map view v.items ≡ inapplicable_ids infos.now rows.now) }
{
    let mut ids = Vec::new(alloc);
    for info in infos {
        push_id(alloc, &mut ids, info, rows)?;
    }
    Ok(ids)
}

// Adds the id of a rule, where it has no row.
fn push_id(
    alloc: Global,
    ids: &mut Vec<Value>,
    info: &RuleInfo,
    rows: &[OutRow],
) -> Result<(), OutOfMemory>
    requires { IsUtf8 info.now.id }
    ensures { OnOk result (map view ids.new.items
        ≡ map view ids.old.items ++ (if is_inapplicable rows.now info.now then string info.now.id ∷ [] else [])) }
{
    if !is_inapplicable(rows, info) {
        return Ok(());
    }
    let id = Value::try_from_str(alloc, as_text(&info.id))?;
    ids.push(id)?;
    Ok(())
}

// The text that bytes are.
fn as_text(bytes: &[u8]) -> &str
    requires { IsUtf8 bytes.now }
    ensures { result.now ≡ bytes.now }
{
    match str::from_utf8(bytes) {
        Ok(text) => text,
        Err(_) => "",
    }
}

// The rows of these rules.
fn rows_value(alloc: Global, infos: &[RuleInfo], rows: &[OutRow]) -> Result<Vec<Value>, OutOfMemory>
    requires { HaveTexts infos.now }
    ensures { IfOk result (λ v. map view v.items ≡ known_rows infos.now rows.now) }
{
    let mut values = Vec::new(alloc);
    for row in rows {
        push_row(alloc, &mut values, infos, row)?;
    }
    Ok(values)
}

// Adds a row, where it is of one of the rules.
fn push_row(
    alloc: Global,
    values: &mut Vec<Value>,
    infos: &[RuleInfo],
    row: &OutRow,
) -> Result<(), OutOfMemory>
    requires { HaveTexts infos.now }
    ensures { OnOk result (map view values.new.items
        ≡ map view values.old.items ++ (if is_known infos.now row.now then row_data infos.now row.now ∷ [] else [])) }
{
    if !is_known(infos, row) {
        return Ok(());
    }
    let value = row_value(alloc, infos, row)?;
    values.push(value)?;
    Ok(())
}

#[tactic(auto, unfolding(crate::specs::Shown::row_data))]
fn row_value(alloc: Global, infos: &[RuleInfo], row: &OutRow) -> Result<Value, OutOfMemory>
    requires { HaveTexts infos.now }
    ensures { IfOk result (λ v. view v ≡ row_data infos.now row.now) }
{
    let digest = hex::encode(alloc, digest(&row.evidence))?;
    let mut members = Map::new(alloc);
    put_word(&mut members, alloc, "automatic", outcome_word(row.auto))?;
    put_word(&mut members, alloc, "by", row.hand.as_str())?;
    put_word(&mut members, alloc, "digest", digest.as_str())?;
    put_word(&mut members, alloc, "evidence", row.evidence.as_str())?;
    put_number(&mut members, alloc, "node", u64::from(row.node.0))?;
    put_word(&mut members, alloc, "outcome", outcome_word(row.last))?;
    put_word(&mut members, alloc, "reason", row.reason.word())?;
    put_id(&mut members, alloc, infos, row.rule)?;
    Ok(Value::Object(members))
}

// Puts the id of a rule in.
#[tactic(auto, using(crate::proofs::Ids::found_text))]
pub(crate) fn put_id(
    members: &mut Members,
    alloc: Global,
    infos: &[RuleInfo],
    rule: RuleNo,
) -> Result<(), OutOfMemory>
    requires { HaveTexts infos.now }
    ensures { OnOk result (members_view members.new.entries ≡ with_member (codes "rule") (string (id_of infos.now rule)) (members_view members.old.entries)) }
{
    match rule_of(infos, rule) {
        Some(info) => put_word(members, alloc, "rule", as_text(&info.id)),
        None => put_word(members, alloc, "rule", ""),
    }
}
