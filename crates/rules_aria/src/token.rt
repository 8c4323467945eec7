ghost use Rattle.std.specs.Prelude.{◌≡◌};
ghost use Rattle.rules_aria.specs.Token.{begins};

/// Whether a token begins with this, which compares ASCII case-insensitively.
#[tactic(auto, using(crate::proofs::Beginning::too_short))]
pub(crate) fn begins(token: &str, front: &str) -> bool
    ensures { result ≡ begins front.now token.now }
{
    match token.as_bytes().split_at_checked(front.len()) {
        Some((start, _)) => start.eq_ignore_ascii_case(front.as_bytes()),
        None => false,
    }
}
