ghost use Rattle.std.specs.Prelude.{◌≡◌, ◌++◌, ◌&&◌, ◌+◌, ◌≤◌, [], length, unwrap_or, take, drop, Some, None, if◌then◌else◌, IfOk, OnOk, IsUtf8, IsCharBoundary};
ghost use Rattle.std.specs.String.{string_bytes};
ghost use Rattle.texts.specs.Words.{blank};
ghost use Rattle.acc_tree.specs.Seen.{seen_row, seen};
ghost use Rattle.acc_tree.specs.Sights.{seen_sight};
ghost use Rattle.acc_name.specs.declared.named.How.TheVariants as how;
ghost use Rattle.acc_name.specs.Captions.{captioning, weighed, caption_or, kept};
ghost use Rattle.acc_name.specs.Hosts.{is_captioning};
ghost use Rattle.acc_name.specs.Names.{heard, spoken, joined, is_chosen};
ghost use Rattle.acc_name.specs.Placing.{settled};
ghost use Rattle.acc_name.specs.Voices.{asked_of, text_in, asked_for, says_within};

use crate::clauses::say;
use crate::heard::{Aside, Inner};
use crate::named::{How, Name};
use crate::placing::{Stand, keep, part_before, place_of};
use crate::references::References;
use crate::room::{Nested, Room};
use crate::tags::is_select;
use crate::told::{Scope, Told, Wanted};
use acc_tree::{Above, Sight, html_tag, role_at, under};
use aria_tables::Role;
use snap_tree::{Branches, OutOfMemory, Row, Text};
use std::alloc::Global;

// Makes what a root says of what stands from the mark on, which is kept of those below it, and puts it with
// what was said before it.
fn settle(
    alloc: Global,
    scope: Scope,
    wanted: Wanted,
    told: &Told,
    role: Option<Role>,
    row: &Row,
    inner: Aside,
    so_far: Aside,
    stand: Stand,
    content: &mut String,
) -> Result<Aside, OutOfMemory>
    requires start { IsCharBoundary (string_bytes content.old) stand.start }
    requires mark { IsCharBoundary (string_bytes content.old) stand.mark }
    requires order { stand.start ≤ stand.mark }
    requires blank { inner.is_blank ≡ blank (drop stand.mark (string_bytes content.old)) }
    ensures content { OnOk result (string_bytes content.new ≡ settled stand.place stand.start (seen_row row.now) (take stand.mark (string_bytes content.old)) (says_within scope told.now role (seen_row row.now) inner (drop stand.mark (string_bytes content.old)))) }
    ensures utf8 { OnOk result (IsUtf8 (says_within scope told.now role (seen_row row.now) inner (drop stand.mark (string_bytes content.old)))) }
    ensures chosen { IfOk result (λ aside. text_in aside.chosen ≡ asked_for wanted.chosen (joined (text_in so_far.chosen) (joined (if is_chosen (seen_row row.now) then Some (says_within scope told.now role (seen_row row.now) inner (drop stand.mark (string_bytes content.old))) else None) (text_in inner.chosen)))) }
    ensures caption { IfOk result (λ aside. aside.caption ≡ caption_or so_far.caption (captioning (is_captioning wanted.caption (seen_row row.now)) (blank (says_within scope told.now role (seen_row row.now) inner (drop stand.mark (string_bytes content.old)))))) }
    ensures blank { IfOk result (λ aside. aside.is_blank ≡ (so_far.is_blank && blank (says_within scope told.now role (seen_row row.now) inner (drop stand.mark (string_bytes content.old))))) }
{
    let Aside {
        chosen,
        caption,
        is_blank,
    } = inner;
    let below = Inner {
        chosen: &chosen,
        caption,
        is_blank,
    };
    let mark = stand.mark;
    let said = say(
        alloc,
        scope,
        told,
        How::Inner,
        role,
        row,
        below,
        mark,
        content,
    )?;
    let (_, text) = content.as_str().split_at(mark);
    let aside = so_far.and_then(alloc, wanted, row, text, said.is_blank, chosen)?;
    keep(content, stand, row, said.is_blank)?;
    Ok(aside)
}

// Counts what the chosen options say below a `select` that stands within another.
fn nest(nested: &mut Nested, wanted: Wanted, row: &Row, inner: &Aside) -> Result<(), OutOfMemory> {
    if wanted.chosen & is_select(html_tag(row)) {
        nested.count(inner.len())
    } else {
        Ok(())
    }
}

// Writes what is kept of what trees say within a name, given what is above them, and answers what they say
// beside it. Each subtree is heard once, and what it says is written once: a caption that names the node
// above stands where the content of that node begins, and the rest of the content is dropped.
fn hear<'a, R: References>(
    alloc: Global,
    references: &R,
    scope: Scope,
    room: Room,
    nested: &mut Nested,
    above: &Above<'a>,
    wanted: Wanted,
    trees: Branches<'a>,
    content: &mut String,
) -> Result<Aside, OutOfMemory>
    ensures content { OnOk result (string_bytes content.new ≡ string_bytes content.old ++ kept (heard (asked_of scope (R.tells references.now)) above.now wanted.caption (seen trees.entry))) }
    ensures chosen { IfOk result (λ aside. text_in aside.chosen ≡ asked_for wanted.chosen (heard (asked_of scope (R.tells references.now)) above.now wanted.caption (seen trees.entry)).chosen) }
    ensures caption { IfOk result (λ aside. aside.caption ≡ weighed (heard (asked_of scope (R.tells references.now)) above.now wanted.caption (seen trees.entry)).caption) }
    ensures blank { IfOk result (λ aside. aside.is_blank ≡ blank (kept (heard (asked_of scope (R.tells references.now)) above.now wanted.caption (seen trees.entry)))) }
    ensures fits { IfOk result (λ aside. length (string_bytes content.new) + length (unwrap_or (text_in aside.chosen) []) ≤ room.bytes) }
{
    let start = content.as_str().len();
    let mut so_far = Aside::nothing();
    let mut rest = trees;
    while let Some(branch) = rest.first() {
        let row = branch.row;
        let around = room.less(so_far.len())?;
        let before = around.less(content.len())?;
        let told = references.told(alloc, before, nested, row, &branch.kids, above)?;
        let place = place_of(so_far.caption, wanted.caption, row);
        part_before(content, place, row)?;
        let mark = content.as_str().len();
        let stand = Stand { place, start, mark };
        let beneath = under(above, row);
        let inner = hear(
            alloc,
            references,
            scope,
            told.within(around)?,
            nested,
            &beneath,
            wanted.below(row),
            branch.kids,
            content,
        )?;
        nest(nested, wanted, row, &inner)?;
        let role = role_at(above, row);
        so_far = settle(
            alloc, scope, wanted, &told, role, row, inner, so_far, stand, content,
        )?;
        rest = branch.after;
    }
    room.less(content.len())?.less(so_far.len())?;
    Ok(so_far)
}

/// What a node says, given how it is come to.
pub(crate) fn spoken<R: References>(
    alloc: Global,
    references: &R,
    scope: Scope,
    room: Room,
    nested: &mut Nested,
    how: How,
    sight: Sight<'_>,
) -> Result<Name, OutOfMemory>
    ensures { IfOk result (λ name. name ≡ spoken (asked_of scope (R.tells references.now)) how (seen_sight sight.entry)) }
{
    let Sight { row, below, above } = sight;
    let told = references.told(alloc, room, nested, row, &below, &above)?;
    let beneath = under(&above, row);
    let mut content = String::new(alloc);
    let inner = hear(
        alloc,
        references,
        scope,
        told.within(room)?,
        nested,
        &beneath,
        Wanted::nothing().below(row),
        below,
        &mut content,
    )?;
    let Aside {
        chosen,
        caption,
        is_blank,
    } = inner;
    let inner = Inner {
        chosen: &chosen,
        caption,
        is_blank,
    };
    let role = role_at(&above, row);
    let said = say(alloc, scope, &told, how, role, row, inner, 0, &mut content)?;
    Ok(Name {
        text: Text::from_string(content),
        source: said.source,
    })
}
