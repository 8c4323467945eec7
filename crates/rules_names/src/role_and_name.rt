ghost use Rattle.std.specs.Prelude.{◌≡◌, IfOk};
ghost use Rattle.rules_names.specs.RoleAndName.{role_word, role_and_name};

use aria_tables::Role;
use rule_core::LastLong;
use snap_tree::{OutOfMemory, Text};
use std::alloc::Global;

/// The word of a role; `-` where there is none.
pub fn role_word(role: Option<Role>) -> &'static str
    ensures { result.now ≡ role_word role }
{
    match role {
        Some(role) => role.word(),
        None => "-",
    }
}

/// The evidence of the rules on names: the role's word, or `-` where there is no role, a line feed, and
/// `brief` of the name.
pub(crate) fn role_and_name(
    alloc: Global,
    last: &mut LastLong,
    role: Option<Role>,
    name: &Text,
) -> Result<Text, OutOfMemory>
    ensures { IfOk result (λ text. text ≡ role_and_name role name.now) }
{
    let shown = last.brief(alloc, name)?;
    let mut text = String::from_str(alloc, role_word(role))?;
    text.push('\n')?;
    text.push_str(shown.as_str())?;
    Ok(Text::from_string(text))
}
