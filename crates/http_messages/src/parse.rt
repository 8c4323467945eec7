ghost use Rattle.std.specs.Prelude.{◌≡◌, ℕ, ◌≤◌, List, length, take, map, All, MatchOption, IfOk, IfSome};
ghost use Rattle.httparse.specs.Grammar.{RequestHead};
ghost use Rattle.httparse.specs.Spans.{IsRequestAt, IsRequestWithin, IsHeaderWithin, span_bytes};
ghost use Rattle.http_messages.specs.Heads.{IsHead, HeadOf, version_of, seen};
ghost use Rattle.http_messages.specs.Parsing.{field_at};

use crate::head::{Field, Head, Version};
use httparse::Status;
use httparse::spans::{EMPTY_HEADER_SPAN, HeaderSpan, RequestSpans, parse_request};
use std::alloc::Global;
use texts::{List, OutOfMemory};

/// The most fields of a head.
pub const MOST_FIELDS: usize = 64;

/// The head that a block is, taken whole, by httparse's grammar; None where it is none, or has more
/// than 64 fields.
pub fn read_head(alloc: Global, block: &[u8]) -> Result<Option<Head>, OutOfMemory>
    ensures { IfOk result (HeadOf block.now) }
{
    let mut fields = [EMPTY_HEADER_SPAN; MOST_FIELDS];
    match whole_head(block, &mut fields) {
        Some(spans) => Ok(Some(head_of(alloc, block, &spans, &fields)?)),
        None => Ok(None),
    }
}

fn whole_head(block: &[u8], fields: &mut [HeaderSpan]) -> Option<RequestSpans>
    requires { length fields.old ≡ MOST_FIELDS }
    ensures found { MatchOption result ((h : RequestHead) → ¬ (IsHead block.now h)) (λ spans. (h : RequestHead) × IsHead block.now h × IsRequestAt block.now fields.new spans h) }
    ensures within { IfSome result (IsRequestWithin block.now fields.new) }
{
    match parse_request(block, fields) {
        Ok(Status::Complete(head)) if head.len == block.len() => Some(head),
        _ => None,
    }
}

// The head whose parts lie there.
fn head_of(
    alloc: Global,
    block: &[u8],
    spans: &RequestSpans,
    fields: &[HeaderSpan],
) -> Result<Head, OutOfMemory>
    requires { IsRequestWithin block.now fields.now spans.now }
    ensures { IfOk result (λ head. (h : RequestHead) → IsRequestAt block.now fields.now spans.now h → head ≡ seen h) }
{
    let (sent, _) = fields.split_at(spans.headers);
    Ok(Head {
        version: version_of(spans.version),
        method: list_of(alloc, spans.method.of(block))?,
        target: list_of(alloc, spans.path.of(block))?,
        fields: fields_of(alloc, block, sent)?,
    })
}

fn version_of(minor: u8) -> Version
    ensures { result ≡ version_of minor }
{
    if minor == 0 {
        Version::Http10
    } else {
        Version::Http11
    }
}

fn fields_of(alloc: Global, block: &[u8], spans: &[HeaderSpan]) -> Result<List<Field>, OutOfMemory>
    requires { All (IsHeaderWithin (length block.now)) spans.now }
    ensures { IfOk result (λ fields. fields ≡ map (field_at block.now) spans.now) }
{
    let mut fields = Vec::with_capacity(alloc, spans.len())?;
    for span in spans {
        fields.push(Field {
            name: list_of(alloc, span.name.of(block))?,
            value: list_of(alloc, span.value.of(block))?,
        })?;
    }
    Ok(List::from_vec(fields))
}

fn list_of(alloc: Global, bytes: &[u8]) -> Result<List<u8>, OutOfMemory>
    ensures { IfOk result (λ list. list ≡ bytes.now) }
{
    Ok(List::from_vec(Vec::from_slice(alloc, bytes)?))
}
