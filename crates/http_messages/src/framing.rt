ghost use Rattle.std.specs.Prelude.{◌≡◌, ◌<◌, ◌^◌, Some, None, true, codes, if◌then◌else◌};
ghost use Rattle.std.specs.List.{list_all};
ghost use Rattle.std.specs.Char.{is_ascii_digit};
ghost use Rattle.std.specs.Str.Parse.{digits_value};
ghost use Rattle.http_messages.specs.Framing.{needs_length, stated_length, body_length, is_length, number_of};

use crate::fault::HeadFault;
use crate::head::{Head, all_are};

/// The most bytes of a body.
pub const MOST_BODY: u64 = 8_388_608;

// The most digits of a content-length.
pub(crate) const MOST_DIGITS: usize = 19;

/// How many bytes of body follow the head; `Err` is the first refusal that holds.
///
/// The body is as long as the content-length says, and empty without one. `BadHead` is answered where a
/// content-length isn't 1 to 19 digits, or two of them differ; `TransferEncoding` where there is such a
/// field; `LengthRequired` for a PUT or POST without a content-length; `BodyTooLarge` for more than
/// 8,388,608 bytes.
#[tactic(auto, unfolding(crate::specs::Framing::body_length))]
pub fn body_length(head: &Head) -> Result<u64, HeadFault>
    ensures { result ≡ body_length head.now }
{
    let stated = stated_length(head)?;
    if head.has_field(b"transfer-encoding") {
        return Err(HeadFault::TransferEncoding);
    }
    match stated {
        None if needs_length(head) => Err(HeadFault::LengthRequired),
        None => Ok(0),
        Some(n) if n > MOST_BODY => Err(HeadFault::BodyTooLarge),
        Some(n) => Ok(n),
    }
}

fn needs_length(head: &Head) -> bool
    ensures { result ≡ needs_length head.now }
{
    head.method.as_slice() == b"PUT".as_slice() || head.method.as_slice() == b"POST".as_slice()
}

// What the content-length says, if there is one.
#[tactic(auto, unfolding(crate::specs::Framing::stated_length))]
fn stated_length(head: &Head) -> Result<Option<u64>, HeadFault>
    ensures { result ≡ stated_length head.now }
{
    let name = b"content-length";
    let Some(field) = head.first_named(name) else {
        return Ok(None);
    };
    let value = field.value.as_slice();
    if is_length(value) && all_are(head, name, value) {
        Ok(Some(number(value)))
    } else {
        Err(HeadFault::BadHead)
    }
}

/// The number that 1 to 19 digits give; None where the value isn't so.
pub fn number_of(value: &[u8]) -> Option<u64>
    ensures { result ≡ number_of value.now }
{
    if is_length(value) {
        Some(number(value))
    } else {
        None
    }
}

#[tactic(auto, unfolding(crate::specs::Framing::is_length))]
fn is_length(value: &[u8]) -> bool
    ensures { result ≡ is_length value.now }
{
    !value.is_empty() & (value.len() <= MOST_DIGITS) & are_digits(value)
}

fn are_digits(value: &[u8]) -> bool
    ensures { result ≡ list_all is_ascii_digit value.now }
{
    value.iter().all(|b| b.is_ascii_digit())
}

// The number that the digits give.
fn number(digits: &[u8]) -> u64
    requires { is_length digits.now ≡ true }
    ensures { result ≡ digits_value 10 digits.now }
{
    let mut n = 0;
    for b in digits {
        n = 10 * n + u64::from(*b - b'0');
    }
    n
}
