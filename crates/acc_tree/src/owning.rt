ghost use Rattle.std.specs.Prelude.{◌≡◌, ◌≤◌, ◌||◌, ◌++◌, not, map, IfOk, OnOk};
ghost use Rattle.snap_tree.specs.Rows.{is_text};
ghost use Rattle.acc_tree.specs.Inclusion.{is_hidden};
ghost use Rattle.acc_tree.specs.Seen.{seen_row, seen};
ghost use Rattle.acc_tree.specs.Sights.{seen_sight};
ghost use Rattle.acc_tree.specs.Owning.{is_bare, by_role, standing_of, owned_in, takes_nothing, in_its_place, taken, owned_by, item_of, items, owned};

use crate::following::follows;
use crate::frames::under;
use crate::inclusion::is_hidden;
use crate::lent::Above;
use crate::roles::role_at;
use crate::sights::{Sight, sight_of};
use aria_tables::Role;
use snap_tree::{Branch, Branches, List, NodeId, OutOfMemory, Row, Tree};
use std::alloc::Global;

/// An element that another owns, and how many times one may still follow aria-owns from there on: 1, or 0 where it
/// was itself followed or stands below what was.
#[derive(Clone, Copy, Debug)]
pub struct Item {
    pub node: NodeId,
    pub number: u8,
}

/// The same with the element's role.
#[derive(Clone, Copy, Debug)]
pub struct OwnedElement {
    pub node: NodeId,
    pub role: Role,
    pub number: u8,
}

/// How a node stands to the element whose owned elements are asked for.
#[derive(Clone, Copy)]
enum Standing {
    /// Neither it nor anything below it is owned.
    Left,
    /// What it owns itself stands in its place.
    Through,
    /// It is owned.
    Owned(Role),
}

fn is_bare(role: Role) -> bool
    ensures { result ≡ is_bare role }
{
    matches!(role, Role::NoneRole | Role::Presentation | Role::Generic)
}

fn by_role(through: &[Role], role: Option<Role>) -> Standing
    ensures { result ≡ by_role through.now role }
{
    match role {
        Some(role) => {
            if is_bare(role) || role.is_one_of(through) {
                Standing::Through
            } else {
                Standing::Owned(role)
            }
        }
        None => Standing::Through,
    }
}

fn is_left(row: &Row) -> bool
    ensures { result ≡ (is_text (seen_row row.now) || not row.now.facts.rendered
        || is_hidden (seen_row row.now)) }
{
    row.is_text() || !row.facts.rendered || is_hidden(row)
}

fn standing_of(through: &[Role], above: &Above<'_>, row: &Row) -> Standing
    ensures { result ≡ standing_of through.now above.now (seen_row row.now) }
{
    if is_left(row) {
        return Standing::Left;
    }
    if row.facts.visible {
        by_role(through, role_at(above, row))
    } else {
        Standing::Through
    }
}

// Adds what children own where nothing more is followed.
fn add_inner<'a>(
    list: &mut Vec<OwnedElement>,
    through: &[Role],
    above: &Above<'a>,
    trees: Branches<'a>,
) -> Result<(), OutOfMemory>
    ensures { OnOk result
        (list.new.items ≡ list.old.items ++ owned_in through.now 0 takes_nothing above.now (seen trees.entry)) }
{
    let mut rest = trees;
    while let Some(Branch { row, kids, after }) = rest.first() {
        let standing = standing_of(through, above, row);
        if let Standing::Owned(role) = standing {
            list.push(OwnedElement {
                node: row.id,
                role,
                number: 0,
            })?;
        }
        if let Standing::Through = standing {
            let inner = under(above, row);
            add_inner(list, through, &inner, kids)?;
        }
        rest = after;
    }
    Ok(())
}

// Adds what stands in the place of a node that is followed.
fn add_in_place(
    list: &mut Vec<OwnedElement>,
    through: &[Role],
    sight: Sight<'_>,
) -> Result<(), OutOfMemory>
    ensures { OnOk result
        (list.new.items ≡ list.old.items ++ in_its_place through.now (seen_sight sight.entry)) }
{
    match standing_of(through, &sight.above, sight.row) {
        Standing::Left => {}
        Standing::Through => {
            let inner = under(&sight.above, sight.row);
            add_inner(list, through, &inner, sight.below)?;
        }
        Standing::Owned(role) => list.push(OwnedElement {
            node: sight.row.id,
            role,
            number: 0,
        })?,
    }
    Ok(())
}

// Adds what stands in the place of each node that a row follows.
fn add_taken(
    alloc: Global,
    list: &mut Vec<OwnedElement>,
    through: &[Role],
    tree: &Tree,
    row: &Row,
) -> Result<(), OutOfMemory>
    ensures { OnOk result
        (list.new.items ≡ list.old.items ++ taken through.now (seen tree.now.trees) 1 (seen_row row.now)) }
{
    let nodes = follows(alloc, tree, row)?;
    for node in nodes.as_slice() {
        if let Some(sight) = sight_of(tree, *node) {
            add_in_place(list, through, sight)?;
        }
    }
    Ok(())
}

// Adds what children own where one may follow once.
fn add_owned<'a>(
    alloc: Global,
    list: &mut Vec<OwnedElement>,
    through: &[Role],
    tree: &Tree,
    above: &Above<'a>,
    trees: Branches<'a>,
) -> Result<(), OutOfMemory>
    ensures { OnOk result (list.new.items ≡ list.old.items
        ++ owned_in through.now 1 (taken through.now (seen tree.now.trees) 1) above.now (seen trees.entry)) }
{
    let mut rest = trees;
    while let Some(Branch { row, kids, after }) = rest.first() {
        let standing = standing_of(through, above, row);
        if let Standing::Owned(role) = standing {
            list.push(OwnedElement {
                node: row.id,
                role,
                number: 1,
            })?;
        }
        if let Standing::Through = standing {
            let inner = under(above, row);
            add_owned(alloc, list, through, tree, &inner, kids)?;
            add_taken(alloc, list, through, tree, row)?;
        }
        rest = after;
    }
    Ok(())
}

/// The elements that a node owns, each with its role and with how many times one may still follow aria-owns from
/// there on. The number that is given, 0 or 1, says how many times one may from the node itself.
///
/// First the child elements in document order, each with that number. For each: nothing where it isn't rendered
/// or has aria-hidden with the value `true`; what it owns itself, again and again, where it isn't visible, or its
/// role is none, presentation, generic, absent or one of those that are looked through; else the child. Then,
/// where one may, the same of each node that the element follows, with the number 0. It goes over each child that
/// is looked through once, over each node that is followed once for each element that follows it, and takes memory
/// for its lists alone.
pub fn owned_by(
    alloc: Global,
    tree: &Tree,
    sight: Sight<'_>,
    number: u8,
    through: &[Role],
) -> Result<List<OwnedElement>, OutOfMemory>
    requires { number ≤ 1 }
    ensures { IfOk result (λ list. list ≡ owned_by through.now (seen tree.now.trees) number (seen_sight sight.entry)) }
{
    let mut list = Vec::new(alloc);
    let inner = under(&sight.above, sight.row);
    if number == 0 {
        add_inner(&mut list, through, &inner, sight.below)?;
        return Ok(List::from_vec(list));
    }
    add_owned(alloc, &mut list, through, tree, &inner, sight.below)?;
    add_taken(alloc, &mut list, through, tree, sight.row)?;
    Ok(List::from_vec(list))
}

fn items_of(alloc: Global, elements: &[OwnedElement]) -> Result<List<Item>, OutOfMemory>
    ensures { IfOk result (λ list. list ≡ map item_of elements.now) }
{
    let mut items = Vec::new(alloc);
    for element in elements {
        items.push(Item {
            node: element.node,
            number: element.number,
        })?;
    }
    Ok(List::from_vec(items))
}

/// The elements that a node owns with no role looked through, where one may follow aria-owns from it so many times,
/// 0 or 1; each with how many times one may still follow from there on (see `owned_by`). None for a number that the
/// tree doesn't hold.
pub fn items(alloc: Global, tree: &Tree, n: NodeId, number: u8) -> Result<List<Item>, OutOfMemory>
    requires { number ≤ 1 }
    ensures { IfOk result (λ list. list ≡ items (seen tree.now.trees) n number) }
{
    match sight_of(tree, n) {
        Some(sight) => {
            let elements = owned_by(alloc, tree, sight, number, &[])?;
            items_of(alloc, elements.as_slice())
        }
        None => Ok(List::from_vec(Vec::new(alloc))),
    }
}

fn numbers_of(alloc: Global, items: &[Item]) -> Result<List<NodeId>, OutOfMemory>
    ensures { IfOk result (λ list. list ≡ map (λ i. i.node) items.now) }
{
    let mut numbers = Vec::new(alloc);
    for item in items {
        numbers.push(item.node)?;
    }
    Ok(List::from_vec(numbers))
}

/// The numbers of the elements that a node owns, with no role looked through and aria-owns followed once (see
/// `owned_by`). None for a number that the tree doesn't hold.
pub fn owned(alloc: Global, tree: &Tree, n: NodeId) -> Result<List<NodeId>, OutOfMemory>
    ensures { IfOk result (λ list. list ≡ owned (seen tree.now.trees) n) }
{
    let items = items(alloc, tree, n, 1)?;
    numbers_of(alloc, items.as_slice())
}
