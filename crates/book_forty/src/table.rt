ghost use Rattle.std.specs.Prelude.{◌≡◌, IfOk};
ghost use Rattle.snap_tree.specs.declared.row.NodeId.{NodeId};
ghost use Rattle.snap_tree.specs.Trees.{Document};
ghost use Rattle.rule_core.specs.Books.{infos_of, said};
ghost use Rattle.rule_core.specs.Pages.{page_verdicts};
ghost use Rattle.book_forty.specs.Book.{forty};

use rule_book::BLOCKS_CAN_BE_BYPASSED;
use rule_core::{NodeVerdict, Rule, RuleInfo, RuleNo, Verdict};
use rules_aria::{
    AriaAttributeIsDefined, AriaValueIsValid, AutocompleteIsValid, HasRequiredStates,
    HiddenHoldsNoFocus, OwnsRequiredElements, RoleIsValid,
};
use rules_bypass::{HasCollapse, HasHeadingToStart, HasLandmark, HasSkipLink};
use rules_more::{
    DecorativeIsNotExposed, ImageIsDescriptive, LabelIsDescriptive, LanguagesMatch,
    MenuitemHasName, NameHasLabel, PageNeverDelays, PresentationalHoldsNoFocus, StandsInContext,
    StateIsPermitted,
};
use rules_names::{
    ButtonHasName, FormFieldHasName, HeadingHasName, HeadingIsDescriptive, IframeHasName,
    ImageButtonHasName, ImageHasName, LinkHasName, SvgImageHasName,
};
use rules_page::{
    LanguageIsKnown, LanguageOfPartIsKnown, PageHasLang, PageHasNoDelay, PageHasTitle,
    TitleIsDescriptive, ViewportAllowsZoom,
};
use rules_tables::{HeaderHasCells, HeadersReferToCells};
use snap_tree::{NodeId, OutOfMemory, Tree};
use std::alloc::Global;

static INFOS: &[RuleInfo] = &[
    PageHasTitle::INFO,
    TitleIsDescriptive::INFO,
    PageHasLang::INFO,
    LanguageIsKnown::INFO,
    LanguageOfPartIsKnown::INFO,
    ViewportAllowsZoom::INFO,
    PageHasNoDelay::INFO,
    ButtonHasName::INFO,
    LinkHasName::INFO,
    ImageHasName::INFO,
    ImageButtonHasName::INFO,
    FormFieldHasName::INFO,
    IframeHasName::INFO,
    HeadingHasName::INFO,
    SvgImageHasName::INFO,
    HeadingIsDescriptive::INFO,
    AutocompleteIsValid::INFO,
    RoleIsValid::INFO,
    AriaAttributeIsDefined::INFO,
    AriaValueIsValid::INFO,
    HasRequiredStates::INFO,
    OwnsRequiredElements::INFO,
    HiddenHoldsNoFocus::INFO,
    HeadersReferToCells::INFO,
    HeaderHasCells::INFO,
    HasHeadingToStart::INFO,
    HasLandmark::INFO,
    HasSkipLink::INFO,
    HasCollapse::INFO,
    BLOCKS_CAN_BE_BYPASSED,
    LanguagesMatch::INFO,
    PageNeverDelays::INFO,
    LabelIsDescriptive::INFO,
    ImageIsDescriptive::INFO,
    MenuitemHasName::INFO,
    StateIsPermitted::INFO,
    StandsInContext::INFO,
    DecorativeIsNotExposed::INFO,
    PresentationalHoldsNoFocus::INFO,
    NameHasLabel::INFO,
];

/// What the rules say of themselves, in the order of their numbers.
pub fn infos_forty() -> &'static [RuleInfo]
    ensures { result.now ≡ infos_of forty }
{
    INFOS
}

/// What the rule of a number says of a node; nothing by a number that is no atomic rule of the book.
pub(crate) fn said(
    alloc: Global,
    tree: &Tree,
    rule: RuleNo,
    n: NodeId,
) -> Result<Option<Verdict>, OutOfMemory>
    ensures { IfOk result (λ verdict. verdict ≡ said forty rule tree.now n) }
{
    match rule.0 {
        LanguagesMatch::NO => LanguagesMatch.judge(alloc, tree, n),
        PageNeverDelays::NO => PageNeverDelays.judge(alloc, tree, n),
        LabelIsDescriptive::NO => LabelIsDescriptive.judge(alloc, tree, n),
        ImageIsDescriptive::NO => ImageIsDescriptive.judge(alloc, tree, n),
        MenuitemHasName::NO => MenuitemHasName.judge(alloc, tree, n),
        StateIsPermitted::NO => StateIsPermitted.judge(alloc, tree, n),
        StandsInContext::NO => StandsInContext.judge(alloc, tree, n),
        DecorativeIsNotExposed::NO => DecorativeIsNotExposed.judge(alloc, tree, n),
        PresentationalHoldsNoFocus::NO => PresentationalHoldsNoFocus.judge(alloc, tree, n),
        NameHasLabel::NO => NameHasLabel.judge(alloc, tree, n),
        _ => rule_book::said(alloc, tree, rule, n),
    }
}

// What a rule says of a page, where the book says by this number what the rule does.
fn on_page_by<R: Rule>(
    rule: &R,
    alloc: Global,
    tree: &Tree,
    number: RuleNo,
) -> Result<Vec<NodeVerdict>, OutOfMemory>
    requires { (page : Document) (n : NodeId) → R.means page n ≡ said forty number page n }
    ensures { IfOk result (λ verdicts. verdicts.items ≡ page_verdicts (said forty number) tree.now) }
{
    let _ = number;
    rule.judge_page(alloc, tree)
}

/// What the rule of a number says of a page, as the rule goes over it; nothing by a number that is no atomic rule of
/// the book.
pub(crate) fn said_of_page(
    alloc: Global,
    tree: &Tree,
    rule: RuleNo,
) -> Result<Vec<NodeVerdict>, OutOfMemory>
    ensures { IfOk result (λ verdicts. verdicts.items ≡ page_verdicts (said forty rule) tree.now) }
{
    match rule.0 {
        LanguagesMatch::NO => on_page_by(&LanguagesMatch, alloc, tree, rule),
        PageNeverDelays::NO => on_page_by(&PageNeverDelays, alloc, tree, rule),
        LabelIsDescriptive::NO => on_page_by(&LabelIsDescriptive, alloc, tree, rule),
        ImageIsDescriptive::NO => on_page_by(&ImageIsDescriptive, alloc, tree, rule),
        MenuitemHasName::NO => on_page_by(&MenuitemHasName, alloc, tree, rule),
        StateIsPermitted::NO => on_page_by(&StateIsPermitted, alloc, tree, rule),
        StandsInContext::NO => on_page_by(&StandsInContext, alloc, tree, rule),
        DecorativeIsNotExposed::NO => on_page_by(&DecorativeIsNotExposed, alloc, tree, rule),
        PresentationalHoldsNoFocus::NO => on_page_by(
            &PresentationalHoldsNoFocus,
            alloc,
            tree,
            rule,
        ),
        NameHasLabel::NO => on_page_by(&NameHasLabel, alloc, tree, rule),
        _ => rule_book::said_of_page(alloc, tree, rule),
    }
}
