//! Reads pages that are written as lines of elements and texts.

use crate::trouble::Trouble;
use crate::words::{cut, cut_quoted, number, unescaped};
use snap_tree::{Attr, Body, Facts, List, NodeId, Row, SharedBody, Space, Text};
use std::alloc::Global;

/// The rows of a page, as far as its lines are read.
#[derive(Drop)]
pub struct Sketch {
    alloc: Global,
    rows: Vec<Row>,
    // the numbers of the nodes that stand one within the other, from the first of their line on
    open: Vec<u32>,
    last: u32,
}

// What is read of a node before its body.
#[derive(Clone, Copy)]
struct Given {
    number: u32,
    parent: Option<u32>,
}

impl Sketch {
    /// A page without a line.
    pub fn new(alloc: Global) -> Self {
        Sketch {
            alloc,
            rows: Vec::new(alloc),
            open: Vec::new(alloc),
            last: 0,
        }
    }

    /// The rows of the lines.
    pub fn into_rows(self) -> Vec<Row> {
        let Sketch { rows, .. } = self;
        rows
    }

    /// Reads one line: nodes of which each stands within the one before it, the first within the nearest line
    /// above that is indented less.
    pub fn line(&mut self, line: &str) -> Result<(), Trouble> {
        let nodes = line.trim_start();
        let indented = line.len().saturating_sub(nodes.len());
        if self.open.len() < indented / 2 {
            return Err(Trouble::NotInForm);
        }
        self.open.truncate(indented / 2);
        let mut rest = nodes.trim_end();
        for _ in 0..line.len() {
            if rest.is_empty() {
                break;
            }
            rest = self.node(rest)?;
        }
        Ok(())
    }

    // Reads the first node of a text. Answers what stands behind it.
    fn node<'a>(&mut self, text: &'a str) -> Result<&'a str, Trouble> {
        let (given, text) = self.given(text)?;
        if let Some(quoted) = cut_quoted(text) {
            let (words, behind) = quoted;
            let (facts, behind) = cut_facts(behind.trim_start())?;
            let text = Text::from_string(unescaped(self.alloc, words)?);
            self.put(given, Body::Words { text }, facts)?;
            return Ok(behind);
        }
        let Some((inside, behind)) = cut_element(text) else {
            return Err(Trouble::NotInForm);
        };
        let (body, facts) = element(self.alloc, inside)?;
        self.put(given, body, facts)?;
        Ok(behind.trim_start())
    }

    // The number and the parent that are given before a node, or those that it has by its place.
    fn given<'a>(&self, text: &'a str) -> Result<(Given, &'a str), Trouble> {
        let behind = text.trim_start_matches(|sign: char| sign.is_ascii_digit());
        let digits = text.strip_suffix(behind).unwrap_or("");
        let number = match digits {
            "" => self.last.wrapping_add(1),
            _ => number(digits)?,
        };
        let rest = behind.trim_start();
        match rest.strip_prefix("in ") {
            None => {
                let parent = self.open.last().copied();
                Ok((Given { number, parent }, rest))
            }
            Some(rest) => {
                let (above, rest) = cut(rest, ' ');
                let parent = match self::number(above)? {
                    0 => None,
                    above => Some(above),
                };
                Ok((Given { number, parent }, rest))
            }
        }
    }

    fn put(&mut self, given: Given, body: Body, facts: Facts) -> Result<(), Trouble> {
        self.rows.push(Row {
            id: NodeId(given.number),
            parent: given.parent.map(NodeId),
            body: SharedBody::new(self.alloc, body)?,
            facts,
        })?;
        self.open.push(given.number)?;
        self.last = given.number;
        Ok(())
    }
}

// What stands between the signs of an element that a text begins with, and behind them.
fn cut_element(text: &str) -> Option<(&str, &str)> {
    let inside = text.strip_prefix('<')?;
    let mut is_quoted = false;
    let mut is_escaped = false;
    for (at, sign) in inside.char_indices() {
        if sign == '>' && !is_quoted {
            let (before, behind) = inside.split_at_checked(at)?;
            return Some((before, behind.strip_prefix('>')?));
        }
        if sign == '"' && !is_escaped {
            is_quoted = !is_quoted;
        }
        is_escaped = sign == '\\' && !is_escaped;
    }
    None
}

// The facts that a text begins with behind `!`, and what stands behind them; rendered and visible where it
// begins with none.
fn cut_facts(text: &str) -> Result<(Facts, &str), Trouble> {
    match text.strip_prefix('!') {
        Some(rest) => {
            let (letters, behind) = cut(rest, ' ');
            Ok((facts(letters)?, behind.trim_start()))
        }
        None => Ok((facts("rv")?, text)),
    }
}

/// The facts that letters say: r for rendered, v for visible, f for focusable, t for tabbable.
pub fn facts(letters: &str) -> Result<Facts, Trouble> {
    let mut facts = Facts {
        rendered: false,
        visible: false,
        focusable: false,
        tabbable: false,
    };
    for letter in letters.chars() {
        match letter {
            'r' => facts.rendered = true,
            'v' => facts.visible = true,
            'f' => facts.focusable = true,
            't' => facts.tabbable = true,
            _ => return Err(Trouble::NotInForm),
        }
    }
    Ok(facts)
}

// The space that a tag is written in, and the tag.
fn space_of(word: &str) -> (Space, &str) {
    match word.split_once(':') {
        Some(("svg", tag)) => (Space::Svg, tag),
        Some((_, tag)) => (Space::Other, tag),
        None => (Space::Html, word),
    }
}

// The body and the facts of an element by what stands between its signs.
fn element(alloc: Global, inside: &str) -> Result<(Body, Facts), Trouble> {
    let (word, rest) = cut(inside, ' ');
    let (space, tag) = space_of(word);
    let tag = Text::from_str(alloc, tag)?;
    let mut attrs = Vec::new(alloc);
    let mut shown = facts("rv")?;
    let mut rest = rest.trim();
    for _ in 0..inside.len() {
        if rest.is_empty() {
            break;
        }
        if let Some(letters) = rest.strip_prefix('!') {
            shown = facts(letters)?;
            break;
        }
        rest = attribute(alloc, rest, &mut attrs)?;
    }
    let attrs = List::from_vec(attrs);
    Ok((Body::Element { space, tag, attrs }, shown))
}

// Adds the attribute that a text begins with. Answers what stands behind it.
fn attribute<'a>(alloc: Global, text: &'a str, attrs: &mut Vec<Attr>) -> Result<&'a str, Trouble> {
    let (name, raw, behind) = cut_attribute(text)?;
    let name = Text::from_str(alloc, name)?;
    let value = Text::from_string(unescaped(alloc, raw)?);
    attrs.push(Attr { name, value })?;
    Ok(behind.trim_start())
}

// The name of the attribute that a text begins with, its value with its escapes, and what stands behind it.
fn cut_attribute(text: &str) -> Result<(&str, &str, &str), Trouble> {
    let (word, _) = cut(text, ' ');
    if !word.contains('=') {
        let (word, behind) = cut(text, ' ');
        return Ok((word, "", behind));
    }
    let (name, rest) = cut(text, '=');
    if !rest.starts_with('"') {
        let (value, behind) = cut(rest, ' ');
        return Ok((name, value, behind));
    }
    match cut_quoted(rest) {
        Some((value, behind)) => Ok((name, value, behind)),
        None => Err(Trouble::NotInForm),
    }
}
