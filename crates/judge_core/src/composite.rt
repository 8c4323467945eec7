ghost use Rattle.std.specs.Prelude.{◌≡◌, ◌<◌, length};
ghost use Rattle.std.specs.List.{list_any};
ghost use Rattle.judge_core.specs.Composites.{merge, is_passed, is_open};

use rule_core::Auto;

/// What a composite rule makes of its inputs' outcomes on a node, of which there is at least one:
/// passed where some is passed, else cantTell where some is, else failed.
pub fn merge_composite(inputs: &[Auto]) -> Auto
    requires { 0 < length inputs.now }
    ensures { result ≡ merge inputs.now }
{
    if some_passed(inputs) {
        Auto::Passed
    } else if some_open(inputs) {
        Auto::CantTell
    } else {
        Auto::Failed
    }
}

fn some_passed(outcomes: &[Auto]) -> bool
    ensures { result ≡ list_any is_passed outcomes.now }
{
    outcomes
        .iter()
        .any(|outcome| matches!(outcome, Auto::Passed))
}

fn some_open(outcomes: &[Auto]) -> bool
    ensures { result ≡ list_any is_open outcomes.now }
{
    outcomes
        .iter()
        .any(|outcome| matches!(outcome, Auto::CantTell))
}
