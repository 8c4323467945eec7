ghost use Rattle.std.specs.Prelude.{◌≡◌, IfOk};
ghost use Rattle.snap_tree.specs.declared.row.NodeId.{NodeId};
ghost use Rattle.snap_tree.specs.Trees.{Document};
ghost use Rattle.rule_core.specs.Books.{infos_of, said};
ghost use Rattle.rule_core.specs.Pages.{page_verdicts};
ghost use Rattle.rule_book.specs.Book.{thirty, composites_of};

use rule_core::{Class, NodeVerdict, Rule, RuleInfo, RuleNo, Verdict};
use rules_aria::{
    AriaAttributeIsDefined, AriaValueIsValid, AutocompleteIsValid, HasRequiredStates,
    HiddenHoldsNoFocus, OwnsRequiredElements, RoleIsValid,
};
use rules_bypass::{HasCollapse, HasHeadingToStart, HasLandmark, HasSkipLink};
use rules_names::{
    ButtonHasName, FormFieldHasName, HeadingHasName, HeadingIsDescriptive, IframeHasName,
    ImageButtonHasName, ImageHasName, LinkHasName, SvgImageHasName,
};
use rules_page::{
    LanguageIsKnown, LanguageOfPartIsKnown, PageHasLang, PageHasNoDelay, PageHasTitle,
    TitleIsDescriptive, ViewportAllowsZoom,
};
use rules_tables::{HeaderHasCells, HeadersReferToCells};
use snap_tree::{NodeId, OutOfMemory, Tree};
use std::alloc::Global;

/// The composite rule over those on repeated blocks, ACT rule cf77f2.
pub const BLOCKS_CAN_BE_BYPASSED: RuleInfo = RuleInfo {
    no: RuleNo(30),
    id: *b"cf77f2",
    applies: Class::Whole,
    expects: Class::Whole,
    inputs: [
        HasHeadingToStart::NO,
        HasLandmark::NO,
        HasSkipLink::NO,
        HasCollapse::NO,
    ],
};

// The rules in the order of their numbers, for what is made of them: atomic ones, and then the composite ones whose
// numbers follow theirs, as often as that changes.
macro_rules! rules {
    ($made:ident $given:tt) => {
        $made!($given
            {
                PageHasTitle,
                TitleIsDescriptive,
                PageHasLang,
                LanguageIsKnown,
                LanguageOfPartIsKnown,
                ViewportAllowsZoom,
                PageHasNoDelay,
                ButtonHasName,
                LinkHasName,
                ImageHasName,
                ImageButtonHasName,
                FormFieldHasName,
                IframeHasName,
                HeadingHasName,
                SvgImageHasName,
                HeadingIsDescriptive,
                AutocompleteIsValid,
                RoleIsValid,
                AriaAttributeIsDefined,
                AriaValueIsValid,
                HasRequiredStates,
                OwnsRequiredElements,
                HiddenHoldsNoFocus,
                HeadersReferToCells,
                HeaderHasCells,
                HasHeadingToStart,
                HasLandmark,
                HasSkipLink,
                HasCollapse,
            }
            (BLOCKS_CAN_BE_BYPASSED)
        )
    };
}

macro_rules! each_info {
    (() $({ $($rule:ident,)* } ($($composite:ident),*))*) => {
        &[$($($rule::INFO,)* $($composite,)*)*]
    };
}

macro_rules! each_composite {
    (() $({ $($rule:ident,)* } ($($composite:ident),*))*) => {
        &[$($($composite,)*)*]
    };
}

macro_rules! on_node {
    (($number:ident, $alloc:ident, $tree:ident, $n:ident) $({ $($rule:ident,)* } $composites:tt)*) => {
        match $number.0 {
            $($($rule::NO => $rule.judge($alloc, $tree, $n),)*)*
            _ => Ok(None),
        }
    };
}

macro_rules! on_page {
    (($number:ident, $alloc:ident, $tree:ident) $({ $($rule:ident,)* } $composites:tt)*) => {
        match $number.0 {
            $($($rule::NO => on_page_by(&$rule, $alloc, $tree, $number),)*)*
            _ => Ok(Vec::new($alloc)),
        }
    };
}

static INFOS: &[RuleInfo] = rules!(each_info());

static COMPOSITES: &[RuleInfo] = rules!(each_composite());

/// What the rules say of themselves, in the order of their numbers.
pub fn infos() -> &'static [RuleInfo]
    ensures { result.now ≡ infos_of thirty }
{
    INFOS
}

/// What the composite rules among them say of themselves.
pub fn composites() -> &'static [RuleInfo]
    ensures { result.now ≡ composites_of thirty }
{
    COMPOSITES
}

/// What the rule of a number says of a node; nothing by a number that is no atomic rule of the book.
pub fn said(
    alloc: Global,
    tree: &Tree,
    rule: RuleNo,
    n: NodeId,
) -> Result<Option<Verdict>, OutOfMemory>
    ensures { IfOk result (λ verdict. verdict ≡ said thirty rule tree.now n) }
{
    rules!(on_node(rule, alloc, tree, n))
}

// What a rule says of a page, where the book says by this number what the rule does.
fn on_page_by<R: Rule>(
    rule: &R,
    alloc: Global,
    tree: &Tree,
    number: RuleNo,
) -> Result<Vec<NodeVerdict>, OutOfMemory>
    requires { (page : Document) (n : NodeId) → R.means page n ≡ said thirty number page n }
    ensures { IfOk result (λ verdicts. verdicts.items ≡ page_verdicts (said thirty number) tree.now) }
{
    let _ = number;
    rule.judge_page(alloc, tree)
}

/// What the rule of a number says of a page, as the rule goes over it; nothing by a number that is no atomic rule of
/// the book.
pub fn said_of_page(
    alloc: Global,
    tree: &Tree,
    rule: RuleNo,
) -> Result<Vec<NodeVerdict>, OutOfMemory>
    ensures { IfOk result (λ verdicts. verdicts.items ≡ page_verdicts (said thirty rule) tree.now) }
{
    rules!(on_page(rule, alloc, tree))
}
