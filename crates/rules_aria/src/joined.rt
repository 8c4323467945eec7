ghost use Rattle.std.specs.Prelude.{◌≡◌, [], ◌∷◌, ◌++◌, OnOk};
ghost use Rattle.std.specs.String.{string_bytes};
ghost use Rattle.rules_aria.specs.Joined.{added};

use snap_tree::OutOfMemory;

/// Adds a part to a text, behind a line feed unless it is the first.
pub(crate) fn add_line(text: &mut String, part: &str) -> Result<(), OutOfMemory>
    ensures { OnOk result (string_bytes text.new ≡ added 10 (string_bytes text.old) part.now) }
{
    if !text.is_empty() {
        text.push('\n')?;
    }
    text.push_str(part)?;
    Ok(())
}

/// Adds a part to a text, behind a space unless it is the first.
pub(crate) fn add_word(text: &mut String, part: &str) -> Result<(), OutOfMemory>
    ensures { OnOk result (string_bytes text.new ≡ added 32 (string_bytes text.old) part.now) }
{
    if !text.is_empty() {
        text.push(' ')?;
    }
    text.push_str(part)?;
    Ok(())
}
