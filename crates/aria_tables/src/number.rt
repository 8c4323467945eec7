ghost use Rattle.std.specs.Prelude.{◌≡◌};
ghost use Rattle.std.specs.Char.{is_ascii_digit};
ghost use Rattle.std.specs.List.{list_all};
ghost use Rattle.aria_tables.specs.Numbers.{is_digits, after_minus, after_sign, after_digits, begins_with_digit, is_fraction, is_number, is_whole_number};

fn all_digits(text: &[u8]) -> bool
    ensures { result ≡ list_all is_ascii_digit text.now }
{
    text.iter().all(|c| c.is_ascii_digit())
}

fn is_digits(text: &[u8]) -> bool
    ensures { result ≡ is_digits text.now }
{
    !text.is_empty() & all_digits(text)
}

fn after_minus(text: &[u8]) -> &[u8]
    ensures { result.now ≡ after_minus text.now }
{
    match text {
        [b'-', rest @ ..] => rest,
        _ => text,
    }
}

fn after_sign(text: &[u8]) -> &[u8]
    ensures { result.now ≡ after_sign text.now }
{
    match text {
        [b'+' | b'-', rest @ ..] => rest,
        _ => text,
    }
}

// What stands after the digits at the start.
fn after_digits(text: &[u8]) -> &[u8]
    ensures { result.now ≡ after_digits text.now }
{
    let mut rest = text;
    while let [c, later @ ..] = rest {
        if !c.is_ascii_digit() {
            return rest;
        }
        rest = later;
    }
    rest
}

fn begins_with_digit(text: &[u8]) -> bool
    ensures { result ≡ begins_with_digit text.now }
{
    match text {
        [c, ..] => c.is_ascii_digit(),
        [] => false,
    }
}

// Whether it is nothing, or a point and digits.
fn is_fraction(text: &[u8]) -> bool
    ensures { result ≡ is_fraction text.now }
{
    match text {
        [] => true,
        [b'.', digits @ ..] => is_digits(digits),
        _ => false,
    }
}

/// Whether it is an optional `+` or `-`, then digits, and optionally a point and digits.
pub(crate) fn is_number(value: &[u8]) -> bool
    ensures { result ≡ is_number value.now }
{
    let unsigned = after_sign(value);
    begins_with_digit(unsigned) & is_fraction(after_digits(unsigned))
}

/// Whether it is an optional `-`, then digits.
pub(crate) fn is_whole_number(value: &[u8]) -> bool
    ensures { result ≡ is_whole_number value.now }
{
    is_digits(after_minus(value))
}
