ghost use Rattle.std.specs.Prelude.{◌≡◌};
ghost use Rattle.std.specs.Option.{option_copied};
ghost use Rattle.rules_page.specs.Filled.{filled};

use rule_core::{Finding, Reason};
use snap_tree::{Text, blank};

/// What is found where a text is expected that isn't blank: failed for the first reason where there is
/// no text, and for the second where it is blank.
pub(crate) fn filled(text: Option<&Text>, absent: Reason, empty: Reason) -> Finding
    ensures { result ≡ filled absent empty (option_copied text.entry) }
{
    match text {
        None => Finding::failed(absent),
        Some(text) if blank(text) => Finding::failed(empty),
        Some(_) => Finding::met(),
    }
}
