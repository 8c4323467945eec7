ghost use Rattle.std.specs.Prelude.{◌≡◌, ℕ, List};
ghost use Rattle.named_rows.specs.ByName.{names_cmp, IsInOrder};
ghost use Rattle.named_rows.specs.Placed.{IsPlace};

use std::cmp::Ordering;
use texts::Text;

/// A row that has a name.
pub trait Named: Drop {
    ghost name: { Self → List ℕ };

    /// Its name.
    fn name(&self) -> &Text
        ensures { result.now ≡ name self.now };
}

/// The place of a name among rows in byte order of their names.
#[derive(Clone, Copy, Debug, PartialEq, Eq)]
pub enum Place {
    /// The row of the name stands there.
    Found(usize),
    /// No row has the name, and one of it belongs there.
    Vacant(usize),
}

/// The place of a name, found in logarithmic time. The rows stand in order, each name below the next.
pub fn place_of<T: Named>(rows: &[T], name: &Text) -> Place
    requires { IsInOrder T.name rows.now }
    ensures { IsPlace T.name name.now rows.now result }
{
    let compare = |row: &T| -> Ordering
        ensures { result ≡ names_cmp (T.name row.now) name.entry.now }
    { row.name().as_str().cmp(name.as_str()) };
    match rows.binary_search_by(compare) {
        Ok(i) => Place::Found(i),
        Err(i) => Place::Vacant(i),
    }
}
