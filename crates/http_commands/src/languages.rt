ghost use Rattle.std.specs.Prelude.{◌≡◌, option_map, IfOk};
ghost use Rattle.serde_json.specs.View.{view, items_view};
ghost use Rattle.snap_json.specs.Seen.{seen};
ghost use Rattle.snap_tree.specs.Langs.{AreLangs};
ghost use Rattle.http_routes.specs.declared.part.Part.TheVariants as part;
ghost use Rattle.http_routes.specs.declared.fault.RequestFault.TheVariants as fault;
ghost use Rattle.http_commands.specs.declared.unasked.Unasked.TheVariants as unasked;
ghost use Rattle.http_commands.specs.Shapes.{Gives};
ghost use Rattle.http_commands.specs.Entries.{many};
ghost use Rattle.http_commands.specs.Languages.{list_of, texts_in, place_behind, in_form, languages_in};

use crate::shape::in_shape;
use crate::unasked::Unasked;
use http_routes::{Part, RequestFault};
use serde_json::Value;
use snap_json::text_of;
use snap_tree::{List, OutOfMemory, Text, langs_fault};
use std::alloc::Global;

/// The list of languages that a body gives.
pub(crate) fn languages_in(alloc: Global, body: &Value) -> Result<List<Text>, Unasked>
    ensures exact { Gives result (languages_in (view body.now)) }
    ensures form { IfOk result (λ langs. AreLangs langs) }
{
    in_shape(Part::Body, 0, body.as_object())?;
    let values = in_shape(Part::Languages, 0, list_of(body.get("languages")))?;
    let texts = texts_in(alloc, values)?;
    in_form(values, texts)
}

fn list_of(member: Option<&Value>) -> Option<&[Value]>
    ensures { option_map (λ vs. items_view vs.now) result ≡ list_of (seen member.entry) }
{
    let values = member?.as_array()?;
    Some(values.as_slice())
}

// The texts with which a list begins: up to its first value that is none.
fn texts_in(alloc: Global, values: &[Value]) -> Result<List<Text>, OutOfMemory>
    ensures { IfOk result (λ texts. texts ≡ texts_in (items_view values.now)) }
{
    let mut texts = Vec::new(alloc);
    for value in values {
        match text_of(alloc, Some(value))? {
            Some(text) => texts.push(text)?,
            None => return Ok(List::from_vec(texts)),
        }
    }
    Ok(List::from_vec(texts))
}

// The place behind some texts, which stands still at the greatest u32.
fn place_behind(texts: &List<Text>) -> u32
    ensures { result ≡ place_behind texts.now }
{
    u32::try_from(texts.as_slice().len() + 1).unwrap_or(u32::MAX)
}

// The texts with which a list of values begins, where they are of the form and there is no other value.
#[tactic(auto, using(crate::proofs::Lists::many_view))]
fn in_form(values: &[Value], texts: List<Text>) -> Result<List<Text>, Unasked>
    ensures exact { Gives result (in_form (many (items_view values.now)) texts) }
    ensures form { IfOk result (λ langs. AreLangs langs) }
{
    match langs_fault(&texts) {
        Some(place) => Err(bad_at(place)),
        None if texts.len() < values.len() => Err(bad_at(place_behind(&texts))),
        None => Ok(texts),
    }
}

fn bad_at(place: u32) -> Unasked
    ensures { result ≡ unasked.Refused (fault.BadShape part.Languages place) }
{
    Unasked::Refused(RequestFault::BadShape {
        part: Part::Languages,
        place,
    })
}
