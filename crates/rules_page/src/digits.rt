ghost use Rattle.std.specs.Prelude.{◌≡◌, ◌<◌};
ghost use Rattle.aria_tables.specs.Numbers.{after_digits, begins_with_digit};
ghost use Rattle.rules_page.specs.Digits.{digit, number_at_start};

/// What numbers saturate at.
pub(crate) const GREATEST: u64 = 1_000_000_000;

/// The number of a digit.
pub(crate) fn digit(byte: u8) -> u64
    ensures value { result ≡ digit byte }
    ensures small { result < 256 }
{
    u64::from(byte.saturating_sub(b'0'))
}

/// Whether a text begins with a digit.
pub(crate) fn begins_with_digit(text: &[u8]) -> bool
    ensures { result ≡ begins_with_digit text.now }
{
    match text {
        [byte, ..] => byte.is_ascii_digit(),
        [] => false,
    }
}

/// What stands after the digits at the start of a text.
pub(crate) fn after_digits(text: &[u8]) -> &[u8]
    ensures { result.now ≡ after_digits text.now }
{
    let mut rest = text;
    while let [byte, later @ ..] = rest {
        if !byte.is_ascii_digit() {
            return rest;
        }
        rest = later;
    }
    rest
}

/// The number that the digits at the start of a text write; one past 1,000,000,000 counts as that.
pub(crate) fn number_at_start(text: &[u8]) -> u64
    ensures { result ≡ number_at_start text.now }
{
    let mut number = 0u64;
    let mut rest = text;
    while let [byte, later @ ..] = rest {
        if !byte.is_ascii_digit() {
            return number;
        }
        number = (number * 10 + digit(*byte)).min(GREATEST);
        rest = later;
    }
    number
}
