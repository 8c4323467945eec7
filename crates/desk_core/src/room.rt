ghost use Rattle.std.specs.Prelude.{◌≡◌};
ghost use Rattle.desk_core.specs.Pages.{due, has_room, has_room_for, has_revisions};

use crate::limits::MOST_PAGES;
use keep_core::MOST_REVISION;

/// The revision that is to be sent with a page of which this one is there; 0 where none is.
pub fn due(there: Option<u64>) -> u64
    ensures { result ≡ due there }
{
    there.unwrap_or(0)
}

/// A site with so many pages has room for so many new ones.
pub fn has_room_for(new: usize, pages: usize) -> bool
    ensures { result ≡ has_room_for new pages }
{
    pages <= MOST_PAGES && new <= MOST_PAGES - pages
}

/// A site with so many pages has room for a page, which is new where no revision of it is there.
pub fn has_room(there: Option<u64>, pages: usize) -> bool
    ensures { result ≡ has_room there pages }
{
    match there {
        Some(_) => has_room_for(0, pages),
        None => has_room_for(1, pages),
    }
}

/// A site with this counter can give so many revisions more.
pub fn has_revisions(counter: u64, more: usize) -> bool
    ensures { result ≡ has_revisions counter more }
{
    counter <= MOST_REVISION && more as u64 <= MOST_REVISION - counter
}

/// A site with this counter can give one revision more.
pub fn has_revision(counter: u64) -> bool
    ensures { result ≡ has_revisions counter 1 }
{
    counter < MOST_REVISION
}
