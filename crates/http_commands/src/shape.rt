ghost use Rattle.std.specs.Prelude.{◌≡◌, IfOk};
ghost use Rattle.serde_json.specs.View.{view};
ghost use Rattle.web_address.specs.Address.{IsWebAddress};
ghost use Rattle.http_commands.specs.Shapes.{in_shape, Gives, Reads, json_in, snapshot_in, sent_page};

use crate::unasked::Unasked;
use http_routes::{Part, RequestFault};
use serde_json::Value;
use snap_json::{Field, SnapFault, json_of, raw_of};
use snap_tree::Raw;
use std::alloc::Global;

/// What a part means, or the refusal that it is out of shape.
pub(crate) fn in_shape<T>(part: Part, place: u32, meaning: Option<T>) -> Result<T, Unasked>
    ensures { Gives result (in_shape part place meaning) }
{
    match meaning {
        Some(value) => Ok(value),
        None => Err(Unasked::Refused(RequestFault::BadShape { part, place })),
    }
}

/// The JSON value that a body is.
pub(crate) fn json_in(alloc: Global, body: &[u8]) -> Result<Value, Unasked>
    ensures { Reads view result (json_in body.now) }
{
    match json_of(alloc, body)? {
        Some(value) => Ok(value),
        None => Err(Unasked::Refused(RequestFault::BadJson)),
    }
}

/// The page of a snapshot that is the body.
pub(crate) fn snapshot_in(alloc: Global, body: &Value) -> Result<Raw, Unasked>
    ensures exact { Gives result (snapshot_in (view body.now)) }
    ensures web { IfOk result (λ raw. IsWebAddress raw.address) }
{
    in_shape(Part::Body, 0, body.as_object())?;
    sent_page(alloc, body)
}

// The page of a snapshot, or the refusal by its first fault.
fn sent_page(alloc: Global, body: &Value) -> Result<Raw, Unasked>
    ensures exact { Gives result (sent_page (view body.now)) }
    ensures web { IfOk result (λ raw. IsWebAddress raw.address) }
{
    match raw_of(alloc, body) {
        Ok(raw) => Ok(raw),
        Err(SnapFault::OutOfMemory) => Err(Unasked::OutOfMemory),
        Err(SnapFault::Shape { place, field }) => Err(Unasked::Refused(RequestFault::BadShape {
            part: Part::Snapshot(field),
            place,
        })),
        Err(_) => Err(Unasked::Refused(RequestFault::BadShape {
            part: Part::Snapshot(Field::Url),
            place: 0,
        })),
    }
}
