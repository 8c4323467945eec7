use crate::member::Member;
use snap_tree::{List, Text};

/// A site: its name, the greatest revision that it has given, its members in byte order of their names, and the
/// language subtags that it accepts beside those of two letters.
#[derive(Debug, Drop, PartialEq, Eq)]
pub struct Site {
    pub name: Text,
    pub counter: u64,
    pub members: List<Member>,
    pub languages: List<Text>,
}
