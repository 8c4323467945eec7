ghost use Rattle.std.specs.Prelude.{◌≡◌, IfOk, OnOk};
ghost use Rattle.std.specs.String.{string_bytes};
ghost use Rattle.acc_tree.specs.Seen.{seen_row};
ghost use Rattle.rules_aria.specs.AriaLines.{line, aria_lines};
ghost use Rattle.rules_aria.specs.Joined.{added};

use crate::joined::add_line;
use acc_tree::aria_attrs;
use snap_tree::{Attr, OutOfMemory, Row, Text};
use std::alloc::Global;

// Adds the line of an attribute: its name and its value as sent, with `=` between.
fn add_attribute(lines: &mut String, attr: &Attr) -> Result<(), OutOfMemory>
    ensures { OnOk result (string_bytes lines.new ≡ added 10 (string_bytes lines.old) (line attr.now)) }
{
    add_line(lines, attr.name.as_str())?;
    lines.push('=')?;
    lines.push_str(attr.value.as_str())?;
    Ok(())
}

/// The lines that show an element's ARIA attributes: for each attribute whose name begins `aria-`, in
/// their order, its name and value as sent with `=` between; and a line feed between lines. Fails only for want of
/// memory.
pub fn aria_lines(alloc: Global, row: &Row) -> Result<Text, OutOfMemory>
    ensures { IfOk result (λ text. text ≡ aria_lines (seen_row row.now)) }
{
    let mut lines = String::new(alloc);
    let mut attrs = aria_attrs(row);
    while let Some(attr) = attrs.next() {
        add_attribute(&mut lines, attr)?;
    }
    Ok(Text::from_string(lines))
}
