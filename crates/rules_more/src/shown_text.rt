ghost use Rattle.std.specs.Prelude.{◌≡◌, ◌++◌, IfOk, IfSome, OnOk};
ghost use Rattle.std.specs.List.{flat_map};
ghost use Rattle.std.specs.Option.{option_copied};
ghost use Rattle.std.specs.String.{string_bytes};
ghost use Rattle.snap_tree.specs.Trees.{rows_of};
ghost use Rattle.texts.specs.Words.{tidy};
ghost use Rattle.acc_tree.specs.Seen.{seen};
ghost use Rattle.rules_more.specs.ShownText.{shown_of, all_shown, shown_text};

use snap_tree::{Body, Branches, OutOfMemory, Row, Text, tidy};
use std::alloc::Global;

// What a row shows: a text that is rendered and visible.
fn shown_of(row: &Row) -> &str
    ensures { result.now ≡ shown_of row.now }
{
    match row.body.get() {
        Body::Words { text } if row.facts.rendered & row.facts.visible => text.as_str(),
        _ => "",
    }
}

fn shown_among(alloc: Global, rows: &[Row]) -> Result<Text, OutOfMemory>
    ensures { IfOk result (λ text. text ≡ flat_map shown_of rows.now) }
{
    let mut text = String::new(alloc);
    for row in rows {
        text.push_str(shown_of(row))?;
    }
    Ok(Text::from_string(text))
}

// What these trees show, with nothing between.
#[tactic(auto, using(crate::proofs::Showing::shown_seen))]
fn all_shown(alloc: Global, below: &Branches<'_>) -> Result<Text, OutOfMemory>
    ensures { IfOk result (λ text. text ≡ all_shown (seen below.now)) }
{
    shown_among(alloc, below.rows())
}

// A text, and the same tidied.
#[derive(Drop)]
struct Tidied {
    text: Text,
    tidied: Text,
    ghost tidies: { tidied ≡ tidy text },
}

impl Tidied {
    fn of(alloc: Global, text: Text) -> Result<Self, OutOfMemory>
        ensures { IfOk result (λ both. both.tidied ≡ tidy text) }
    {
        let tidied = tidy(alloc, &text)?;
        Ok(Tidied { text, tidied })
    }
}

/// What was last shown: of elements that show the same, one after another, as those that stand in one another do, only
/// for the first is the text tidied.
#[derive(Drop)]
pub(crate) struct LastShown {
    last: Option<Tidied>,
}

impl LastShown {
    /// Nothing was shown yet. It takes no memory.
    pub(crate) fn new() -> Self {
        LastShown { last: None }
    }

    // The text tidied, where it is the one that was last shown.
    fn known(&self, text: &Text) -> Option<&Text>
        ensures { IfSome (option_copied result) (λ tidied. tidied ≡ tidy text.now) }
    {
        match &self.last {
            Some(both) if both.text == *text => Some(&both.tidied),
            _ => None,
        }
    }

    /// The text that an element shows, with this below it.
    pub(crate) fn shown_text(
        &mut self,
        alloc: Global,
        below: &Branches<'_>,
    ) -> Result<Text, OutOfMemory>
        ensures { IfOk result (λ text. text ≡ shown_text (seen below.now)) }
    {
        let text = all_shown(alloc, below)?;
        if let Some(tidied) = self.known(&text) {
            return tidied.copy(alloc);
        }
        let both = Tidied::of(alloc, text)?;
        let shown = both.tidied.copy(alloc)?;
        self.last = Some(both);
        Ok(shown)
    }
}
