ghost use Rattle.std.specs.Prelude.{◌≡◌, [], Ok as ok, Err as err, IfOk, IfSome, Some, None};
ghost use Rattle.std.specs.Option.{option_copied};
ghost use Rattle.web_address.specs.Address.{IsWebAddress, address_of};
ghost use Rattle.snap_json.specs.Pages.{kept_tree};
ghost use Rattle.store_tables.specs.declared.fault.StoreFault.TheVariants as fault;
ghost use Rattle.store_tables.specs.Cells.{read_back};

use crate::fault::StoreFault;
use snap_json::{SnapFault, read_kept};
use snap_tree::Tree;
use std::alloc::Global;

// A snapshot, and the tree that it is read as, whose address is a web address, with no language subtag.
#[derive(Drop)]
struct Snapshot {
    bytes: Vec<u8>,
    tree: Tree,
    ghost reads: { kept_tree bytes.items ≡ ok tree },
    ghost stands: { address_of tree.address ≡ Some tree.address },
    ghost bare: { tree.langs ≡ [] },
}

/// The snapshot that was read or written last, with its tree: of equal ones, one after another, only the first is
/// parsed. It holds one snapshot at a time, and none where memory was wanting.
#[derive(Drop)]
pub struct Memo {
    last: Option<Snapshot>,
}

impl Memo {
    /// Nothing was read or written yet. It takes no memory.
    pub fn new() -> Self {
        Memo { last: None }
    }

    // The tree of the last snapshot, where it has these bytes.
    #[tactic(auto, using(crate::proofs::Remembered::is_web_address))]
    fn known(&self, bytes: &[u8]) -> Option<&Tree>
        ensures reads { IfSome (option_copied result) (λ tree. kept_tree bytes.now ≡ ok tree) }
        ensures web_address { IfSome (option_copied result) (λ tree. IsWebAddress tree.address) }
        ensures no_langs { IfSome (option_copied result) (λ tree. tree.langs ≡ []) }
    {
        match &self.last {
            Some(last) if last.bytes.as_slice() == bytes => Some(&last.tree),
            _ => None,
        }
    }

    /// The tree of a snapshot, the same as by `read_kept` whatever is remembered. The snapshot is remembered.
    ///
    /// # Errors
    ///
    /// `Failed` where the bytes are no snapshot, and `OutOfMemory`.
    pub fn read(&mut self, alloc: Global, bytes: Vec<u8>) -> Result<Tree, StoreFault>
        ensures reads { IfOk result (λ tree. kept_tree bytes.items ≡ ok tree) }
        ensures failed { result ≡ err fault.Failed → read_back (kept_tree bytes.items) ≡ None }
        ensures web_address { IfOk result (λ tree. IsWebAddress tree.address) }
        ensures no_langs { IfOk result (λ tree. tree.langs ≡ []) }
    {
        if let Some(tree) = self.known(bytes.as_slice()) {
            return copied(tree);
        }
        let tree = parsed(alloc, bytes.as_slice())?;
        self.keep(bytes, &tree);
        Ok(tree)
    }

    /// Remembers a snapshot that was written of a tree, in place of the last one. Where memory is wanting nothing is
    /// remembered.
    #[tactic(auto, using(web_address::proofs::Standing::stands_for_itself))]
    pub fn keep(&mut self, bytes: Vec<u8>, tree: &Tree)
        requires reads { kept_tree bytes.items ≡ ok tree.now }
        requires web_address { IsWebAddress tree.now.address }
        requires no_langs { tree.now.langs ≡ [] }
    {
        self.last = match tree.copy() {
            Ok(tree) => Some(Snapshot { bytes, tree }),
            Err(_) => None,
        };
    }
}

fn copied(tree: &Tree) -> Result<Tree, StoreFault>
    ensures copy { IfOk result (λ copy. copy ≡ tree.now) }
    ensures memory { result ≡ err fault.Failed → ⊥ }
{
    match tree.copy() {
        Ok(copy) => Ok(copy),
        Err(_) => Err(StoreFault::OutOfMemory),
    }
}

// The tree that bytes are read as.
fn parsed(alloc: Global, bytes: &[u8]) -> Result<Tree, StoreFault>
    ensures reads { IfOk result (λ tree. kept_tree bytes.now ≡ ok tree) }
    ensures failed { result ≡ err fault.Failed → read_back (kept_tree bytes.now) ≡ None }
    ensures web_address { IfOk result (λ tree. IsWebAddress tree.address) }
    ensures no_langs { IfOk result (λ tree. tree.langs ≡ []) }
{
    match read_kept(alloc, bytes) {
        Ok(tree) => Ok(tree),
        Err(SnapFault::OutOfMemory) => Err(StoreFault::OutOfMemory),
        Err(_) => Err(StoreFault::Failed),
    }
}
