use snap_tree::Text;

/// A page as a request names it: its site, its name, and the revision that the sender saw.
#[derive(Drop)]
pub struct SentPage {
    pub site: Text,
    pub page: Text,
    pub rev: u64,
}
