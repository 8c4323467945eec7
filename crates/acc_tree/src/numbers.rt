ghost use Rattle.std.specs.Prelude.{◌≡◌};
ghost use Rattle.std.specs.List.{list_all};
ghost use Rattle.std.specs.Char.{is_ascii_digit};
ghost use Rattle.acc_tree.specs.Numbers.{is_digits, whole_number};

fn has_digits_alone(text: &str) -> bool
    ensures { result ≡ list_all is_ascii_digit text.now }
{
    text.as_bytes().iter().all(
        |byte: &u8| -> bool
            ensures { result ≡ is_ascii_digit byte.now }
        { byte.is_ascii_digit() },
    )
}

fn is_digits(text: &str) -> bool
    ensures { result ≡ is_digits text.now }
{
    !text.is_empty() & has_digits_alone(text)
}

/// The number that a text of ASCII digits alone writes; None for any other text. A number too great for
/// 64 bits counts as `u64::MAX`.
pub fn whole_number(text: &str) -> Option<u64>
    ensures { result ≡ whole_number text.now }
{
    if !is_digits(text) {
        return None;
    }
    match text.parse::<u64>() {
        Ok(number) => Some(number),
        Err(_) => Some(u64::MAX),
    }
}
