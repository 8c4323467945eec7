//! The books by which pages are judged.

use book_forty::infos_forty;
use rule_book::infos;
use rule_core::RuleInfo;

/// One of the books.
#[derive(Clone, Copy)]
pub(crate) enum Book {
    Thirty,
    Forty,
}

impl Book {
    /// What its rules say of themselves.
    pub(crate) fn infos(self) -> &'static [RuleInfo] {
        match self {
            Book::Thirty => infos(),
            Book::Forty => infos_forty(),
        }
    }
}
