ghost use Rattle.std.specs.Prelude.{◌≡◌, [], None, IfSome, IfOk, IfErr, OnOk, option_and_then};
ghost use Rattle.std.specs.Option.{option_copied, option_map};
ghost use Rattle.std.specs.List.{find};
ghost use Rattle.snap_tree.specs.Trees.{document, rows_of, with_langs};
ghost use Rattle.snap_tree.specs.Langs.{AreLangs};
ghost use Rattle.snap_tree.specs.Grown.{grown, page_of};
ghost use Rattle.snap_tree.specs.Rows.{has_number};
ghost use Rattle.snap_tree.specs.Faults.{shape_fault, tree_fault};
ghost use Rattle.snap_tree.specs.Well.{IsWell};
ghost use Rattle.snap_tree.specs.Places.{IsPlaces, HasRun, run_below};
ghost use Rattle.snap_tree.specs.Opened.{Breaks};
ghost use Rattle.snap_tree.specs.Indexed.{IsIndex, IsKept};
ghost use Rattle.snap_tree.specs.Lookups.{node, tagged};
ghost use Rattle.snap_tree.specs.Spots.{spot, parent, kids};
ghost use Rattle.snap_tree.specs.SpotLaws.{IsAbsent, ClimbsAbove, WalksAbove};
ghost use Rattle.snap_tree.specs.Labels.{first_with_id, labels_for};

use crate::branches::Branches;
use crate::build::{MOST_NODES, places_of};
use crate::fault::{BuildFault, TreeFault};
use crate::groups::{Groups, Key, folded, group, groups_of};
use crate::index::Index;
use crate::kids::Kids;
use crate::labels::all_labels;
use crate::row::{NodeId, Raw, Row};
use crate::shared::SharedLangs;
use crate::weight::{MOST_WEIGHT, reference_weight};
use number_tables::NumberTable;
use std::alloc::Global;
use std::marker::Model;
use std::sync::Arc;
use texts::{List, OutOfMemory, Text};

/// A page: its address, the language subtags that its site accepts, and the tree of its nodes. Contracts see
/// it as a `Document`. Nothing changes a tree, so its copies share one page and one list in memory, in any
/// threads.
#[derive(Drop)]
pub struct Tree {
    shared: Arc<Page>,
    langs: SharedLangs,
}

impl Model for Tree {
    ghost use Rattle.std.specs.Arc.{arc_value};
    ghost use Rattle.snap_tree.specs.Trees.{Document, document};
    ghost use Rattle.snap_tree.specs.Codes.{coded_document};

    ghost Value = { Document };

    ghost coded = { coded_document };

    ghost use Rattle.snap_tree.specs.Grown.{grown};

    ghost view = { λ t. document (arc_value t.shared).address t.langs (grown (arc_value t.shared).rows.items) };
}

// The rows of a page, and all by which they are looked up.
#[derive(Drop)]
struct Page {
    address: Text,
    rows: Vec<Row>,
    index: Index,
    // The HTML elements of each folded tag.
    tags: Groups,
    ghost kept: { IsKept rows.items index tags },
}

// The place of each number of rows whose shape is sound, or their first fault.
#[tactic(auto, unfolding(crate::specs::Faults::shape_fault))]
fn sound_places(alloc: Global, rows: &[Row]) -> Result<NumberTable<usize>, BuildFault>
    ensures places { IfOk result (λ places. IsPlaces places rows.now) }
    ensures sound { OnOk result (shape_fault rows.now ≡ None) }
    ensures fault { IfErr result (λ f. Breaks f (shape_fault rows.now)) }
{
    if rows.is_empty() {
        return Err(BuildFault::Tree(TreeFault::Empty));
    }
    if rows.len() > MOST_NODES {
        return Err(BuildFault::Tree(TreeFault::TooMany));
    }
    places_of(alloc, rows)
}

// The row of a number, given the place of each; None where no row has it.
fn row_of<'a>(rows: &'a [Row], places: &NumberTable<usize>, n: NodeId) -> Option<&'a Row>
    requires { IsPlaces places.now rows.now }
    ensures { option_copied result ≡ find (has_number n) rows.now }
{
    match places.at(n.0) {
        Some(place) => rows.get(place),
        None => None,
    }
}

// The number of the parent that a row names, where there is a row.
fn named_by(row: Option<&Row>) -> Option<NodeId>
    ensures { result ≡ option_and_then (λ r. r.parent) (option_copied row.entry) }
{
    row?.parent
}

/// The trees below the node at a place, given the size of each subtree in document order: the run of
/// rows behind it.
pub fn run_below<'a>(rows: &'a [Row], sizes: &'a [usize], place: usize) -> Branches<'a>
    requires { HasRun place rows.now sizes.now }
    ensures { result ≡ grown (run_below place rows.now sizes.now) }
{
    let count = sizes[place] - 1;
    let (_, rows) = rows.split_at(place + 1);
    let (_, sizes) = sizes.split_at(place + 1);
    let (rows, _) = rows.split_at(count);
    let (sizes, _) = sizes.split_at(count);
    Branches::over(rows, sizes)
}

// The index of rows that make a tree, or their first fault.
#[tactic(auto, using(crate::proofs::Weights::breaks_shape, crate::proofs::Weights::too_heavy, crate::proofs::Weights::light_enough))]
fn sound_index(alloc: Global, rows: &[Row]) -> Result<Index, BuildFault>
    ensures index { IfOk result (λ index. IsIndex rows.now index) }
    ensures sound { OnOk result (tree_fault rows.now ≡ None) }
    ensures fault { IfErr result (λ f. Breaks f (tree_fault rows.now)) }
{
    let places = sound_places(alloc, rows)?;
    let index = Index::of(alloc, rows, places)?;
    if reference_weight(alloc, rows, &index)? > MOST_WEIGHT {
        return Err(BuildFault::Tree(TreeFault::ReferenceWeight));
    }
    Ok(index)
}

/// The first fault of rows, as `Tree::build` names it; None where they make a page. Fails only for want
/// of memory.
pub fn tree_fault(alloc: Global, rows: &[Row]) -> Result<Option<TreeFault>, OutOfMemory>
    ensures { IfOk result (λ fault. fault ≡ tree_fault rows.now) }
{
    match sound_index(alloc, rows) {
        Ok(_) => Ok(None),
        Err(BuildFault::Tree(fault)) => Ok(Some(fault)),
        Err(BuildFault::OutOfMemory) => Err(OutOfMemory),
    }
}

impl Tree {
    /// The tree whose rows in document order are the given ones, with no language subtag.
    ///
    /// It is refused exactly where the rows have a fault, with the first one in this order: first of all
    /// the number of rows, then each row in list order, by its place and then by itself, and at last what
    /// references find. Else it wants memory.
    #[tactic(auto, using(crate::proofs::Wellness::well_from_sound))]
    pub fn build(alloc: Global, raw: Raw) -> Result<Self, BuildFault>
        ensures tree { IfOk result (λ t. t ≡ page_of raw) }
        ensures well { IfOk result (λ t. IsWell t.trees) }
        ensures sound { OnOk result (tree_fault raw.rows ≡ None) }
        ensures fault { IfErr result (λ f. Breaks f (tree_fault raw.rows)) }
    {
        let index = sound_index(alloc, raw.rows.as_slice())?;
        Ok(Tree::over(alloc, raw, index)?)
    }

    // The page of rows without a fault, whose index is known.
    fn over(alloc: Global, raw: Raw, index: Index) -> Result<Self, OutOfMemory>
        requires sound { tree_fault raw.rows ≡ None }
        requires indexed { IsIndex raw.rows index }
        ensures { IfOk result (λ t. t ≡ page_of raw) }
    {
        let Raw { address, rows } = raw;
        let rows = rows.into_vec();
        let tags = groups_of(alloc, Key::Tag, rows.as_slice())?;
        let page = Page {
            address,
            rows,
            index,
            tags,
        };
        let shared = Arc::new(alloc, page)?;
        let langs = SharedLangs::none(alloc)?;
        Ok(Tree { shared, langs })
    }

    // The page that the tree shares with its copies.
    fn page(&self) -> &Page
        ensures { document result.now.address self.now.langs (grown result.now.rows.items) ≡ self.now }
    {
        &self.shared
    }

    /// The language subtags that the page's site accepts beside those of two letters.
    pub fn langs(&self) -> &List<Text>
        ensures langs { result.now ≡ self.now.langs }
        ensures form { AreLangs self.now.langs }
    {
        self.langs.get()
    }

    /// The tree with this list of language subtags, which `langs_fault` has to find no fault in, in place of
    /// its own. It shares the page in memory, and fails only for want of memory.
    pub fn with_langs(&self, alloc: Global, langs: &List<Text>) -> Result<Self, OutOfMemory>
        requires { AreLangs langs.now }
        ensures { IfOk result (λ t. t ≡ with_langs self.now langs.now) }
    {
        let shared = Arc::try_clone(&self.shared)?;
        let langs = SharedLangs::new(alloc, langs.copy(alloc)?)?;
        Ok(Tree { shared, langs })
    }

    /// The tree with another tree's list of language subtags in place of its own. Both share the list in
    /// memory, so it takes none. `OutOfMemory` says that there can be no more copies.
    pub fn with_langs_of(&self, other: &Tree) -> Result<Self, OutOfMemory>
        ensures { IfOk result (λ t. t ≡ with_langs self.now other.now.langs) }
    {
        let shared = Arc::try_clone(&self.shared)?;
        let langs = other.langs.copy()?;
        Ok(Tree { shared, langs })
    }

    /// The page's address.
    pub fn address(&self) -> &Text
        ensures { result.now ≡ self.now.address }
    {
        &self.page().address
    }

    /// The rows in document order.
    #[tactic(auto, using(crate::proofs::Growth::rows_of_grown, crate::proofs::Wellness::well_from_sound))]
    pub fn rows(&self) -> &[Row]
        ensures rows { result.now ≡ rows_of self.now.trees }
        ensures regrown { grown (rows_of self.now.trees) ≡ self.now.trees }
        ensures sound { tree_fault (rows_of self.now.trees) ≡ None }
        ensures well { IsWell self.now.trees }
    {
        self.page().rows.as_slice()
    }

    /// The trees of the page, to go over and down.
    pub fn branches(&self) -> Branches<'_>
        ensures { result ≡ self.now.trees }
    {
        let page = self.page();
        Branches::over(page.rows.as_slice(), page.index.sizes.as_slice())
    }

    /// The row of a number, which is the row of its spot; None exactly where the tree doesn't hold the
    /// number.
    pub fn node(&self, n: NodeId) -> Option<&Row>
        ensures row { option_copied result ≡ node self.now.trees n }
        ensures spot { option_copied result ≡ option_map (λ s. s.row) (spot self.now.trees n) }
        ensures absent { IsAbsent self.now.trees n → result ≡ None }
    {
        let page = self.page();
        row_of(page.rows.as_slice(), &page.index.places, n)
    }

    /// The number of a node's parent; None for the root and for a number that the tree doesn't hold.
    ///
    /// It is the number that the node names, and the first of those above it. That one stands in the
    /// tree with the others above it, so that a walk by `parent` goes over the list above.
    pub fn parent(&self, n: NodeId) -> Option<NodeId>
        ensures parent { result ≡ parent self.now.trees n }
        ensures named { IfSome (spot self.now.trees n) (λ s. s.row.parent ≡ result) }
        ensures climbs { ClimbsAbove self.now.trees n }
        ensures walks { WalksAbove self.now.trees n }
        ensures absent { IsAbsent self.now.trees n → result ≡ None }
    {
        let page = self.page();
        named_by(row_of(page.rows.as_slice(), &page.index.places, n))
    }

    /// The trees below a node; None exactly where the tree doesn't hold the number.
    pub fn below(&self, n: NodeId) -> Option<Branches<'_>>
        ensures below { result ≡ option_map (λ s. s.below) (spot self.now.trees n) }
        ensures absent { IsAbsent self.now.trees n → result ≡ None }
    {
        let page = self.page();
        match page.index.places.at(n.0) {
            Some(place) => Some(run_below(
                page.rows.as_slice(),
                page.index.sizes.as_slice(),
                place,
            )),
            None => None,
        }
    }

    /// The numbers of a node's children in order; none for a number that the tree doesn't hold.
    pub fn kids(&self, n: NodeId) -> Kids<'_>
        ensures kids { result ≡ kids self.now.trees n }
        ensures absent { IsAbsent self.now.trees n → result ≡ [] }
    {
        match self.below(n) {
            Some(below) => Kids::of(below),
            None => Kids::of(Branches::none()),
        }
    }

    /// The HTML elements of a tag, in document order. Tags compare ASCII case-insensitively.
    pub fn tagged(&self, alloc: Global, tag: &Text) -> Result<List<NodeId>, OutOfMemory>
        ensures { IfOk result (λ nodes. nodes ≡ tagged self.now.trees tag.now) }
    {
        let key = folded(alloc, tag.as_str())?;
        let nodes = group(&self.page().tags, key.as_str());
        Ok(List::from_vec(Vec::from_slice(alloc, nodes)?))
    }

    /// The first element in document order with this id, which compares exactly; None where no
    /// element has it, and for the empty id.
    pub fn first_with_id(&self, id: &Text) -> Option<NodeId>
        ensures { result ≡ first_with_id self.now.trees id.now }
    {
        self.by_id(id.as_str())
    }

    /// The same of an id that no `Text` holds, such as a word of a longer text.
    pub fn by_id(&self, id: &str) -> Option<NodeId>
        ensures { result ≡ first_with_id self.now.trees id.now }
    {
        group(&self.page().index.ids, id).first().copied()
    }

    /// The labels of a node: first, where it is the first element with its id, the HTML labels whose
    /// `for` is that id, in document order; then the nearest label above it, where that has no `for`
    /// and the node is the first labelable element below it. No node for one that isn't labelable, and for
    /// a number that the tree doesn't hold.
    pub fn labels_for(&self, alloc: Global, n: NodeId) -> Result<List<NodeId>, OutOfMemory>
        ensures { IfOk result (λ labels. labels ≡ labels_for self.now.trees n) }
    {
        let page = self.page();
        let Some(place) = page.index.places.at(n.0) else {
            return Ok(List::from_vec(Vec::new(alloc)));
        };
        let row = &page.rows[place];
        let outer = page.index.outer[place];
        let labels = all_labels(alloc, &page.index.ids, &page.index.fors, row, outer)?;
        Ok(List::from_vec(labels))
    }

    /// An equal tree, which shares the page and the list in memory: it takes no memory of its own, and the
    /// same short time for any page. `OutOfMemory` says that there can be no more copies.
    pub fn copy(&self) -> Result<Self, OutOfMemory>
        ensures { IfOk result (λ copy. copy ≡ self.now) }
    {
        let shared = Arc::try_clone(&self.shared)?;
        let langs = self.langs.copy()?;
        Ok(Tree { shared, langs })
    }
}
