ghost use Rattle.std.specs.Prelude.{◌≡◌, ◌++◌, ◌<◌, true, map, slice_set, vec_len, IfOk, OnOk};
ghost use Rattle.std.specs.BTreeMap.{get_by_text};
ghost use Rattle.std.specs.String.{string_bytes};
ghost use Rattle.std.specs.Option.{option_copied, option_to_list, option_eq};
ghost use Rattle.std.specs.Cmp.Lexicographic.{pointwise};
ghost use Rattle.texts.specs.Words.{words};
ghost use Rattle.snap_tree.specs.Labels.{first_with_id};
ghost use Rattle.snap_tree.specs.Trees.{Trees, rows_of};
ghost use Rattle.acc_tree.specs.References.{named_by, reference_words};
ghost use Rattle.acc_tree.specs.Seen.{seen, seen_row};
ghost use Rattle.page_keys.specs.Keys.{id_key};
ghost use Rattle.page_keys.specs.Same.{same_node, same, all_same};
ghost use Rattle.page_keys.specs.References.{reference_keys};
ghost use Rattle.page_changes.specs.References.{AreCompared, IsMemory, Remembers, nodes_same, word_same, words_same, named_same, id_same, labels_same, row_same, rows_same, below_same};

use crate::by_number::agreed_at;
use crate::labels::{id_of, label_under, labels_naming};
use crate::looked::has_aria;
use crate::marks::well;
use crate::pages::Pages;
use acc_tree::{Attribute, element_of, is_labelable, text_at};
use aria_tables::AriaAttr;
use snap_tree::{Branches, NodeId, OutOfMemory, Row, Text, next_word};
use std::alloc::Global;
use std::collections::BTreeMap;

// Of ids that were asked for, whether the same labels name them, which agree.
type Memory = BTreeMap<String, bool>;

/// Whether two lists of nodes have the same numbers.
pub(crate) fn same_numbers(a: &[NodeId], b: &[NodeId]) -> bool
    ensures { result ≡ pointwise same_node a.now b.now }
{
    let mut left = a;
    let mut right = b;
    loop {
        match (left.split_first(), right.split_first()) {
            (None, None) => return true,
            (Some((one, more)), Some((other, others))) => {
                if one.0 != other.0 {
                    return false;
                }
                left = more;
                right = others;
            }
            _ => return false,
        }
    }
}

fn same_number(a: Option<NodeId>, b: Option<NodeId>) -> bool
    ensures { result ≡ option_eq same_node a b }
{
    match (a, b) {
        (Some(a), Some(b)) => a.0 == b.0,
        (None, None) => true,
        _ => false,
    }
}

// Whether these nodes agree by themselves and throughout their subtrees.
#[inline(never)]
fn nodes_same(pages: &Pages<'_>, nodes: &[NodeId]) -> bool
    requires { AreCompared pages.now }
    ensures { result ≡ nodes_same (seen pages.now.old.now.trees) (seen pages.now.new.now.trees) nodes.now }
{
    let mut rest = nodes;
    while let Some((node, later)) = rest.split_first() {
        let agreed = agreed_at(pages.old, pages.new, pages.by_number, *node);
        if !(agreed.itself & agreed.tree) {
            return false;
        }
        rest = later;
    }
    true
}

fn found_same(pages: &Pages<'_>, node: Option<NodeId>) -> bool
    requires { AreCompared pages.now }
    ensures { result ≡ nodes_same (seen pages.now.old.now.trees) (seen pages.now.new.now.trees) (option_to_list node) }
{
    match node {
        Some(node) => nodes_same(pages, [node].as_slice()),
        None => true,
    }
}

#[tactic(auto, using(crate::proofs::Keyed::id_key_same))]
fn id_key_same(pages: &Pages<'_>, before: Option<NodeId>, id: &str) -> bool
    requires { before ≡ first_with_id (seen pages.now.old.now.trees) id.now }
    ensures { result ≡ same (seen pages.now.old.now.trees) (seen pages.now.new.now.trees) (id_key id.now) }
{
    same_number(before, element_of(pages.new, id))
}

// Whether a word finds the same element on both pages, and that agrees.
fn word_same(pages: &Pages<'_>, word: &str) -> bool
    requires { AreCompared pages.now }
    ensures { result ≡ word_same (seen pages.now.old.now.trees) (seen pages.now.new.now.trees) word.now }
{
    let before = element_of(pages.old, word);
    id_key_same(pages, before, word) && found_same(pages, before)
}

fn words_same(pages: &Pages<'_>, text: &str) -> bool
    requires { AreCompared pages.now }
    ensures { result ≡ words_same (seen pages.now.old.now.trees) (seen pages.now.new.now.trees) (words text.now) }
{
    let mut rest = text;
    while let Some((word, later)) = next_word(rest) {
        if !word_same(pages, word) {
            return false;
        }
        rest = later;
    }
    true
}

fn attr_same(pages: &Pages<'_>, row: &Row, name: AriaAttr) -> bool
    requires { AreCompared pages.now }
    ensures { result ≡ words_same (seen pages.now.old.now.trees) (seen pages.now.new.now.trees) (named_by name (seen_row row.now)) }
{
    words_same(pages, text_at(row, Attribute::Aria(name)))
}

// Whether all that the words of the five attributes find is the same.
#[inline(never)]
#[tactic(auto, using(crate::proofs::Keyed::five_attrs))]
fn attrs_same(pages: &Pages<'_>, row: &Row) -> bool
    requires { AreCompared pages.now }
    ensures { result ≡ words_same (seen pages.now.old.now.trees) (seen pages.now.new.now.trees) (reference_words (seen_row row.now)) }
{
    let by_labels = attr_same(pages, row, AriaAttr::Labelledby);
    let by_descriptions = attr_same(pages, row, AriaAttr::Describedby);
    let by_details = attr_same(pages, row, AriaAttr::Details);
    let by_flow = attr_same(pages, row, AriaAttr::Flowto);
    let by_owning = attr_same(pages, row, AriaAttr::Owns);
    by_labels & (by_descriptions & (by_details & (by_flow & by_owning)))
}

// Whether all that the words of a row's references find is the same. A row has none unless the name of one of its
// attributes begins `aria-`.
#[inline(always)]
#[tactic(auto, using(crate::proofs::Unreferring::no_references))]
fn references_same(pages: &Pages<'_>, row: &Row) -> bool
    requires { AreCompared pages.now }
    ensures { result ≡ words_same (seen pages.now.old.now.trees) (seen pages.now.new.now.trees) (reference_words (seen_row row.now)) }
{
    if has_aria(row.attrs()) {
        attrs_same(pages, row)
    } else {
        true
    }
}

// Whether the same labels name an id on both pages, and agree.
#[tactic(auto, using(crate::proofs::Keyed::named_is))]
fn named_same(pages: &Pages<'_>, id: &str) -> bool
    requires { AreCompared pages.now }
    ensures { result ≡ named_same (seen pages.now.old.now.trees) (seen pages.now.new.now.trees) id.now }
{
    let before = labels_naming(pages.old_labels, id);
    let after = labels_naming(pages.new_labels, id);
    let same = same_numbers(before, after);
    let agree = nodes_same(pages, before);
    same & agree
}

fn remembered(memory: &Memory, id: &str) -> Option<bool>
    ensures { result ≡ get_by_text memory.now id.now }
{
    memory.get(id).copied()
}

fn remember(memory: &mut Memory, id: String, same: bool) -> Result<(), OutOfMemory>
    ensures { OnOk result (Remembers memory.old memory.new (string_bytes id) same) }
{
    memory.insert(id, same)?;
    Ok(())
}

// The same, found once for each id.
#[inline(never)]
fn named_again(
    alloc: Global,
    pages: &Pages<'_>,
    memory: &mut Memory,
    id: &str,
) -> Result<bool, OutOfMemory>
    requires compared { AreCompared pages.now }
    requires memory { IsMemory (seen pages.now.old.now.trees) (seen pages.now.new.now.trees) memory.old }
    ensures same { IfOk result (λ same. same ≡ named_same (seen pages.now.old.now.trees) (seen pages.now.new.now.trees) id.now) }
    ensures memory { OnOk result (IsMemory (seen pages.now.old.now.trees) (seen pages.now.new.now.trees) memory.new) }
{
    if let Some(same) = remembered(memory, id) {
        return Ok(same);
    }
    let same = named_same(pages, id);
    remember(memory, String::from_str(alloc, id)?, same)?;
    Ok(same)
}

#[inline(never)]
fn id_same(
    alloc: Global,
    pages: &Pages<'_>,
    memory: &mut Memory,
    id: Option<&Text>,
) -> Result<bool, OutOfMemory>
    requires compared { AreCompared pages.now }
    requires memory { IsMemory (seen pages.now.old.now.trees) (seen pages.now.new.now.trees) memory.old }
    ensures same { IfOk result (λ same. same ≡ id_same (seen pages.now.old.now.trees) (seen pages.now.new.now.trees) (option_copied id.entry)) }
    ensures memory { OnOk result (IsMemory (seen pages.now.old.now.trees) (seen pages.now.new.now.trees) memory.new) }
{
    let Some(id) = id else {
        return Ok(true);
    };
    let named = named_again(alloc, pages, memory, id.as_str())?;
    let before = element_of(pages.old, id.as_str());
    let found = id_key_same(pages, before, id.as_str());
    Ok(found & named)
}

// Nothing labels a row that has no id and stands below no label.
#[inline(always)]
#[tactic(auto, using(crate::proofs::Unreferring::no_labels))]
fn is_unlabelled(label: Option<NodeId>, row: &Row) -> bool
    ensures { result ≡ true → (old new : Trees) → true ≡ labels_same old new label (seen_row row.now) }
{
    match label {
        Some(_) => false,
        None => id_of(row).is_none(),
    }
}

#[inline(always)]
fn labels_same(
    alloc: Global,
    pages: &Pages<'_>,
    memory: &mut Memory,
    label: Option<NodeId>,
    row: &Row,
) -> Result<bool, OutOfMemory>
    requires compared { AreCompared pages.now }
    requires memory { IsMemory (seen pages.now.old.now.trees) (seen pages.now.new.now.trees) memory.old }
    ensures same { IfOk result (λ same. same ≡ labels_same (seen pages.now.old.now.trees) (seen pages.now.new.now.trees) label (seen_row row.now)) }
    ensures memory { OnOk result (IsMemory (seen pages.now.old.now.trees) (seen pages.now.new.now.trees) memory.new) }
{
    if is_unlabelled(label, row) {
        return Ok(true);
    }
    if !is_labelable(row) {
        return Ok(true);
    }
    let named = id_same(alloc, pages, memory, id_of(row))?;
    let around = found_same(pages, label);
    Ok(named & around)
}

#[inline(always)]
fn row_same(
    alloc: Global,
    pages: &Pages<'_>,
    memory: &mut Memory,
    label: Option<NodeId>,
    row: &Row,
) -> Result<bool, OutOfMemory>
    requires compared { AreCompared pages.now }
    requires memory { IsMemory (seen pages.now.old.now.trees) (seen pages.now.new.now.trees) memory.old }
    ensures same { IfOk result (λ same. same ≡ row_same (seen pages.now.old.now.trees) (seen pages.now.new.now.trees) label (seen_row row.now)) }
    ensures memory { OnOk result (IsMemory (seen pages.now.old.now.trees) (seen pages.now.new.now.trees) memory.new) }
{
    let labels = labels_same(alloc, pages, memory, label, row)?;
    let words = references_same(pages, row);
    Ok(words & labels)
}

fn put(list: &mut Vec<bool>, place: usize, same: bool)
    requires { place < vec_len list.old }
    ensures items { list.new.items ≡ slice_set list.old.items place same }
{
    list[place] = same;
}

// Adds, of each node of some trees, whether the references of it and of all below it agree. The nearest label is
// handed down; whether those of all trees agree is handed up.
#[cycle(adding)]
fn add_below(
    alloc: Global,
    list: &mut Vec<bool>,
    pages: &Pages<'_>,
    memory: &mut Memory,
    label: Option<NodeId>,
    trees: Branches<'_>,
) -> Result<bool, OutOfMemory>
    requires compared { AreCompared pages.now }
    requires memory { IsMemory (seen pages.now.old.now.trees) (seen pages.now.new.now.trees) memory.old }
    ensures list { OnOk result (list.new.items ≡ list.old.items ++ below_same (seen pages.now.old.now.trees) (seen pages.now.new.now.trees) label (seen trees.entry)) }
    ensures all { IfOk result (λ all. all ≡ rows_same (seen pages.now.old.now.trees) (seen pages.now.new.now.trees) label (seen trees.entry)) }
    ensures memory { OnOk result (IsMemory (seen pages.now.old.now.trees) (seen pages.now.new.now.trees) memory.new) }
{
    let mut all = true;
    let mut rest = trees;
    while let Some(branch) = rest.first() {
        let place = list.len();
        let here = row_same(alloc, pages, memory, label, branch.row)?;
        list.push(here)?;
        let inner = add_kids(
            alloc,
            list,
            pages,
            memory,
            label_under(label, branch.row),
            branch.kids,
        )?;
        put(list, place, here & inner);
        all = all & (here & inner);
        rest = branch.after;
    }
    Ok(all)
}

// The same of the trees below a node, of which a leaf has none.
#[cycle(adding)]
#[inline(always)]
fn add_kids(
    alloc: Global,
    list: &mut Vec<bool>,
    pages: &Pages<'_>,
    memory: &mut Memory,
    label: Option<NodeId>,
    trees: Branches<'_>,
) -> Result<bool, OutOfMemory>
    requires compared { AreCompared pages.now }
    requires memory { IsMemory (seen pages.now.old.now.trees) (seen pages.now.new.now.trees) memory.old }
    ensures list { OnOk result (list.new.items ≡ list.old.items ++ below_same (seen pages.now.old.now.trees) (seen pages.now.new.now.trees) label (seen trees.entry)) }
    ensures all { IfOk result (λ all. all ≡ rows_same (seen pages.now.old.now.trees) (seen pages.now.new.now.trees) label (seen trees.entry)) }
    ensures memory { OnOk result (IsMemory (seen pages.now.old.now.trees) (seen pages.now.new.now.trees) memory.new) }
{
    if trees.is_empty() {
        return Ok(true);
    }
    add_below(alloc, list, pages, memory, label, trees)
}

/// Of each node of the old page, whether the references of it and of all below it agree.
pub(crate) fn references_below(alloc: Global, pages: &Pages<'_>) -> Result<Vec<bool>, OutOfMemory>
    requires { AreCompared pages.now }
    ensures { IfOk result (λ list. list.items ≡ map (λ row. all_same (seen pages.now.old.now.trees) (seen pages.now.new.now.trees) (reference_keys (seen pages.now.old.now.trees) row.id)) (rows_of (seen pages.now.old.now.trees))) }
{
    well(pages.old);
    let mut list = Vec::new(alloc);
    let mut memory: Memory = BTreeMap::new(alloc);
    add_below(
        alloc,
        &mut list,
        pages,
        &mut memory,
        None,
        pages.old.branches(),
    )?;
    Ok(list)
}
