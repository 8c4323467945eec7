ghost use Rattle.std.specs.Prelude.{◌≡◌, ◌+◌, ◌<◌, ◌≤◌, ◌++◌, length, OnOk, OnErr};
ghost use Rattle.std.specs.Vec.{vec_capacity};
ghost use Rattle.http.specs.StatusCode.{IsStatusCode};
ghost use Rattle.reply_frames.specs.Frames.{phrase, status_line, type_line, length_line, closing_line, head, framed};
ghost use Rattle.reply_frames.specs.Pushing.{Fits};

use crate::kind::Kind;
use crate::pushing::{push, push_number};
use http::StatusCode;
use std::alloc::AllocError;

/// The most bytes of a head.
pub const MOST_HEAD: usize = 256;

/// The most bytes of the phrase of a status code.
pub const MOST_PHRASE: usize = 31;

/// The numbers of the limits. It does nothing: the clauses are what it is for.
pub fn laws_of_limits()
    ensures head { MOST_HEAD ≡ 256 }
    ensures phrase { MOST_PHRASE ≡ 31 }
{}

/// Makes a reply of a body that was printed: its head is put in front of it. Memory is taken only where
/// there isn't room for the head, and fails only where there isn't room for 256 bytes more. The status has
/// three digits, and its phrase at most 31 bytes.
#[tactic(auto, using(crate::proofs::Heads::turned), unfolding(crate::specs::Frames::framed))]
pub fn frame(out: &mut Vec<u8>, status: u16, kind: Kind, closes: bool) -> Result<(), AllocError>
    requires valid { IsStatusCode status }
    requires short { length (phrase status) ≤ MOST_PHRASE }
    ensures framed { OnOk result (out.new.items ≡ framed status kind closes out.old.items) }
    ensures full { OnErr result (vec_capacity out.old < length out.old.items + MOST_HEAD) }
{
    let n = out.len();
    push_head(out, status, kind, closes, n)?;
    out.rotate_left(n);
    Ok(())
}

#[tactic(auto, unfolding(crate::specs::Frames::head))]
fn push_head(
    out: &mut Vec<u8>,
    status: u16,
    kind: Kind,
    closes: bool,
    n: usize,
) -> Result<(), AllocError>
    requires valid { IsStatusCode status }
    requires short { length (phrase status) ≤ MOST_PHRASE }
    ensures pushed { OnOk result (out.new.items ≡ out.old.items ++ head status kind closes n) }
    ensures fits { Fits MOST_HEAD out.old.items (vec_capacity out.old) out.new.items (vec_capacity out.new) result }
{
    push_status_line(out, status)?;
    push_type_line(out, kind)?;
    push_length_line(out, n)?;
    push(out, closing_line(closes))?;
    push(out, b"\r\n")?;
    Ok(())
}

#[tactic(auto, unfolding(crate::specs::Frames::status_line))]
fn push_status_line(out: &mut Vec<u8>, status: u16) -> Result<(), AllocError>
    requires valid { IsStatusCode status }
    requires short { length (phrase status) ≤ MOST_PHRASE }
    ensures pushed { OnOk result (out.new.items ≡ out.old.items ++ status_line status) }
    ensures fits { Fits 96 out.old.items (vec_capacity out.old) out.new.items (vec_capacity out.new) result }
{
    push(out, b"HTTP/1.1 ")?;
    push_number(out, u64::from(status))?;
    push(out, b" ")?;
    push(out, phrase(status).as_bytes())?;
    push(out, b"\r\n")?;
    Ok(())
}

// The phrase of a status code.
fn phrase(status: u16) -> &'static str
    requires { IsStatusCode status }
    ensures { result.now ≡ phrase status }
{
    match StatusCode::from_u16(status) {
        Ok(status) => status.canonical_reason().unwrap_or(""),
        Err(_) => "",
    }
}

#[tactic(auto, unfolding(crate::specs::Frames::type_line))]
fn push_type_line(out: &mut Vec<u8>, kind: Kind) -> Result<(), AllocError>
    ensures pushed { OnOk result (out.new.items ≡ out.old.items ++ type_line kind) }
    ensures fits { Fits 48 out.old.items (vec_capacity out.old) out.new.items (vec_capacity out.new) result }
{
    push(out, b"content-type: ")?;
    push(out, kind.text().as_bytes())?;
    push(out, b"\r\n")?;
    Ok(())
}

#[tactic(auto, unfolding(crate::specs::Frames::length_line))]
fn push_length_line(out: &mut Vec<u8>, n: usize) -> Result<(), AllocError>
    ensures pushed { OnOk result (out.new.items ≡ out.old.items ++ length_line n) }
    ensures fits { Fits 38 out.old.items (vec_capacity out.old) out.new.items (vec_capacity out.new) result }
{
    push(out, b"content-length: ")?;
    push_number(out, n as u64)?;
    push(out, b"\r\n")?;
    Ok(())
}

fn closing_line(closes: bool) -> &'static [u8]
    ensures line { result.now ≡ closing_line closes }
    ensures short { length result.now ≤ 19 }
{
    if closes {
        b"connection: close\r\n"
    } else {
        b""
    }
}
