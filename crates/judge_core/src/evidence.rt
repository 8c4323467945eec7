ghost use Rattle.std.specs.Prelude.{◌≡◌};
ghost use Rattle.rule_core.specs.Brief.{digest};

use snap_tree::Text;

/// The SHA-256 digest of a text's bytes (FIPS 180-4), by which a judge names the evidence that was
/// judged.
pub fn evidence_digest(t: &Text) -> [u8; 32]
    ensures { result ≡ digest t.now }
{
    rule_core::digest(t)
}
