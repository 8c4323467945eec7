//! What a case speaks of: a page, edits of it, or bytes.
//!
//! | step | gives |
//! |---|---|
//! | `page` | the page of the lines below it |
//! | `made SEED N` | a page that is made for trials |
//! | `accepts gsw haw` | the page, whose site accepts these language subtags in place of those before |
//! | `edits` | the page after `set 2 class "x y"`, `drop 2 class`, `text 6 "Go"`, `facts 5 rv` or `none`, `remove 7`, `move 5 to 7 at 1`, `insert in 2 at 0` with rows below it; each list begins with the page of the case |
//! | `json`, `hex`, `spaces N` | bytes: a text, hexadecimal digits, so many spaces |
//! | `read` | the page that the bytes are |
//! | `judged` | judgements, as `16 7 "Hours" passed` |

use crate::judgings::judgement;
use fixture_answers::words_of;
use fixture_sketches::{Line, Sketch, Step, Trouble, count, cut, edits_of, lines_of, number};
use judge_core::Judgement;
use made_pages::made_page;
use rule_core::LastLong;
use snap_edit::{EditFault, EditKind, apply};
use snap_json::read_snapshot;
use snap_tree::{BuildFault, List, Raw, Row, Text, Tree, langs_fault};
use std::alloc::Global;

/// The address of each page that is written as lines.
const ADDRESS: &str = "https://example.org/";

/// What the steps of a case gave so far.
#[derive(Drop)]
pub(crate) struct State {
    alloc: Global,
    page: Option<Tree>,
    edited: Option<Tree>,
    // why the last page or the last edits were refused; empty where they weren't
    refused: String,
    bytes: Vec<u8>,
    judgements: Vec<Judgement>,
    /// The last long text of which the evidence was asked.
    pub(crate) last_long: LastLong,
}

impl State {
    /// No page yet.
    pub(crate) fn new(alloc: Global) -> Self {
        State {
            alloc,
            page: None,
            edited: None,
            refused: String::new(alloc),
            bytes: Vec::new(alloc),
            judgements: Vec::new(alloc),
            last_long: LastLong::new(),
        }
    }

    /// Takes what a step gives: a page, edits or bytes. No where the step asks something.
    pub(crate) fn take(&mut self, step: &Step) -> Result<bool, Trouble> {
        let (word, rest) = cut(step.words.as_str(), ' ');
        let block = step.block.as_slice();
        let taken = match word {
            "page" => self.draw(block),
            "made" => self.make(rest),
            "accepts" => self.accept(rest),
            "edits" => self.edit(block),
            "json" => self.send(block, false),
            "hex" => self.send(block, true),
            "spaces" => self.send_spaces(rest),
            "read" => self.read(),
            "judged" => self.judge(block),
            _ => return Ok(false),
        };
        taken?;
        Ok(true)
    }

    fn draw(&mut self, lines: &[Line]) -> Result<(), Trouble> {
        let rows = List::from_vec(rows_of(self.alloc, lines)?);
        let address = Text::from_str(self.alloc, ADDRESS)?;
        self.build(Raw { address, rows })
    }

    fn make(&mut self, words: &str) -> Result<(), Trouble> {
        let (seed, page) = cut(words, ' ');
        let (seed, page) = (number(seed)?, number(page)?);
        self.build(made_page(self.alloc, seed, page)?)
    }

    fn send_spaces(&mut self, words: &str) -> Result<(), Trouble> {
        let times = count(words)?;
        self.bytes = vec![in self.alloc; b' '; times]?;
        Ok(())
    }

    /// The lines of the page that a step expects; `None` where it expects something else.
    pub(crate) fn wanted(&self, step: &Step) -> Result<Option<Vec<Line>>, Trouble> {
        if step.words.as_str() != "gives" {
            return Ok(None);
        }
        let rows = rows_of(self.alloc, step.block.as_slice())?;
        let mut wanted = Vec::new(self.alloc);
        for text in lines_of(self.alloc, rows.as_slice())? {
            wanted.push(Line { at: step.at, text })?;
        }
        Ok(Some(wanted))
    }

    /// The page, after the last edits where there are some.
    pub(crate) fn tree(&self) -> Result<&Tree, Trouble> {
        match (&self.edited, &self.page) {
            (Some(tree), _) => Ok(tree),
            (None, Some(tree)) if self.refused.is_empty() => Ok(tree),
            _ => Err(Trouble::NoPage),
        }
    }

    /// Why the last page or the last edits were refused, or `nothing`.
    pub(crate) fn refused(&self) -> &str {
        match self.refused.as_str() {
            "" => "nothing",
            refused => refused,
        }
    }

    /// What was judged.
    pub(crate) fn judgements(&self) -> &[Judgement] {
        self.judgements.as_slice()
    }

    /// The bytes that were given last.
    pub(crate) fn bytes(&self) -> &[u8] {
        self.bytes.as_slice()
    }

    fn build(&mut self, raw: Raw) -> Result<(), Trouble> {
        self.page = None;
        self.edited = None;
        self.refused = String::new(self.alloc);
        match Tree::build(self.alloc, raw) {
            Ok(tree) => self.page = Some(tree),
            Err(BuildFault::Tree(fault)) => self.refused = format!(in self.alloc; "{fault}")?,
            Err(BuildFault::OutOfMemory) => return Err(Trouble::OutOfMemory),
        }
        Ok(())
    }

    fn accept(&mut self, words: &str) -> Result<(), Trouble> {
        let langs = words_of(self.alloc, words)?;
        let Some(page) = &self.page else {
            return Err(Trouble::NoPage);
        };
        let relisted = match langs_fault(&langs) {
            Some(_) => return Err(Trouble::NotInForm),
            None => page.with_langs(self.alloc, &langs)?,
        };
        self.page = Some(relisted);
        self.edited = None;
        Ok(())
    }

    fn judge(&mut self, lines: &[Line]) -> Result<(), Trouble> {
        self.judgements.clear();
        for line in lines {
            self.judgements.push(judgement(self.alloc, line)?)?;
        }
        Ok(())
    }

    fn read(&mut self) -> Result<(), Trouble> {
        self.edited = None;
        self.refused = String::new(self.alloc);
        match read_snapshot(self.alloc, self.bytes.as_slice()) {
            Ok(tree) => self.page = Some(tree),
            Err(_) => return Err(Trouble::NoPage),
        }
        Ok(())
    }

    fn edit(&mut self, lines: &[Line]) -> Result<(), Trouble> {
        let edits = edits_of(self.alloc, lines)?;
        let Some(page) = &self.page else {
            return Err(Trouble::NoPage);
        };
        self.edited = None;
        self.refused = String::new(self.alloc);
        match apply(self.alloc, page, edits.as_slice()) {
            Ok(tree) => self.edited = Some(tree),
            Err(EditFault::At { index, kind }) => self.refused = refusal(self.alloc, index, kind)?,
            Err(EditFault::OutOfMemory) => return Err(Trouble::OutOfMemory),
        }
        Ok(())
    }

    fn send(&mut self, lines: &[Line], is_hexadecimal: bool) -> Result<(), Trouble> {
        self.bytes.clear();
        for line in lines {
            if is_hexadecimal {
                push_hexadecimal(&mut self.bytes, line.text.as_str())?;
            } else {
                self.bytes.extend_from_slice(line.text.as_bytes())?;
            }
        }
        Ok(())
    }
}

/// The rows that lines are.
fn rows_of(alloc: Global, lines: &[Line]) -> Result<Vec<Row>, Trouble> {
    let mut sketch = Sketch::new(alloc);
    for line in lines {
        sketch.line(line.text.as_str())?;
    }
    Ok(sketch.into_rows())
}

// The index of an edit and its fault, and behind 8 the fault of the page, as `edit 0: 8 4 ParentUnknownOrNotOpen
// node 60`.
fn refusal(alloc: Global, index: u32, kind: EditKind) -> Result<String, Trouble> {
    let number = kind.number();
    match kind {
        EditKind::Tree(fault) => Ok(format!(in alloc; "edit {index}: {number} {fault}")?),
        _ => Ok(format!(in alloc; "edit {index}: {number} {kind:?}")?),
    }
}

// Adds the bytes that pairs of hexadecimal digits say.
fn push_hexadecimal(bytes: &mut Vec<u8>, digits: &str) -> Result<(), Trouble> {
    let mut high = None;
    for digit in digits.chars() {
        let value = digit.to_digit(16).ok_or(Trouble::NotInForm)? as u8;
        high = match high {
            None => Some(value),
            Some(high) => {
                bytes.push(high << 4 | value)?;
                None
            }
        };
    }
    Ok(())
}
