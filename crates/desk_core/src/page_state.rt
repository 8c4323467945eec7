use judge_core::Judgement;
use keep_core::Page;
use snap_tree::List;

/// A page with its judgements, in the order in which they were accepted.
#[derive(Drop)]
pub struct PageState {
    pub page: Page,
    pub judgements: List<Judgement>,
}
