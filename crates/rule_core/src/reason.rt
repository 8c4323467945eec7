ghost use Rattle.std.specs.Prelude.{◌≡◌, List, ℕ, Some};
ghost use Rattle.rule_core.specs.declared.reason.Reason.{Reason};
ghost use Rattle.rule_core.specs.Words.{word_of, reason_of};

/// Why a verdict is what it is.
#[derive(Clone, Copy, Debug, PartialEq, Eq, Hash)]
pub enum Reason {
    /// Every expectation is met.
    Met,
    /// An image that is exposed has the role none or presentation, so it wants no name.
    Decorative,
    /// A composite rule's outcome, which its inputs' outcomes make.
    Merged,
    /// The page has no HTML element `title`.
    NoTitle,
    /// The page title is blank.
    EmptyTitle,
    /// A person has to judge whether the page title says what the page is about.
    JudgeTitle,
    /// The root has no attribute `lang`.
    NoLang,
    /// The root's `lang` is blank.
    EmptyLang,
    /// The primary subtag of `lang` is no known language.
    UnknownLang,
    /// The primary subtag of `lang` has three letters, for which there is no table.
    ThreeLetter,
    /// The viewport's `user-scalable` is `no`.
    NoZoom,
    /// The viewport's `maximum-scale` is below 2.
    SmallScale,
    /// The page refreshes itself after a delay.
    Delay,
    /// The accessible name is empty.
    NoName,
    /// A person has to judge whether the heading says what follows it.
    JudgeHeading,
    /// The tokens of `autocomplete` are no autofill detail tokens of HTML.
    BadTokens,
    /// No token of `role` is a known role, nor begins `doc-` or `graphics-`.
    NoKnownRole,
    /// No token of `role` is a known role, and one begins `doc-` or `graphics-`.
    OutsideRole,
    /// An attribute that begins `aria-` is none of WAI-ARIA.
    UnknownAttr,
    /// An attribute that begins `aria-` is of a later WAI-ARIA than 1.2.
    LaterAttr,
    /// The value of an ARIA attribute isn't of the attribute's kind.
    BadValue,
    /// No token of an ARIA attribute that refers to elements is the id of one.
    DeadReference,
    /// A state or property that the role requires is absent or blank.
    MissingState,
    /// The role of an owned element isn't one that the role allows.
    BadOwned,
    /// Nothing is owned, where the role wants owned elements.
    NothingOwned,
    /// A node is tabbable that is hidden from assistive technology, or whose ancestor's role hides all in it.
    FocusableInside,
    /// A token of `headers` is the id of no other cell of the same table.
    HeadersOutside,
    /// No cell is assigned to the header.
    NoCells,
    /// The table's grid has more slots than are searched.
    LargeGrid,
    /// No included heading has a name.
    NoHeading,
    /// A person has to judge whether a heading stands where the content that isn't repeated starts.
    JudgeHeadingStart,
    /// There is no included landmark.
    NoLandmark,
    /// A person has to judge whether a landmark holds the content that isn't repeated.
    JudgeLandmark,
    /// No included link that the Tab key reaches has a href that is `#` and the id of an element.
    NoSkipLink,
    /// A person has to judge whether a link leads to the content that isn't repeated.
    JudgeSkipLink,
    /// The Tab key reaches no included `summary`, and no included button that has aria-expanded.
    NoCollapse,
    /// A person has to judge whether the repeated blocks can be collapsed.
    JudgeCollapse,
    /// The primary subtags of `lang` and `xml:lang` differ.
    LangMismatch,
    /// A person has to judge whether the label of a form field says what to fill in.
    JudgeLabel,
    /// A person has to judge whether the name of an image says what it shows.
    JudgeImage,
    /// The role doesn't permit a state or property that has a value.
    NotPermitted,
    /// A state or property has a value that only some roles permit, and there is no role.
    NoRole,
    /// The role stands in none of the roles in which it has to stand.
    NoContext,
    /// The role stands in none of the roles in which it has to stand, but its element has an id, by which
    /// another one may own it.
    MaybeOwned,
    /// An element that is marked as decorative is in the accessibility tree all the same.
    MarkedExposed,
    /// No word of the shown text is a word of the name.
    LabelMissing,
    /// A person has to judge whether the name says what is shown.
    JudgeLabelInName,
}

/// The reasons, in the order of their declaration.
const REASONS: [Reason; 47] = [
    Reason::Met,
    Reason::Decorative,
    Reason::Merged,
    Reason::NoTitle,
    Reason::EmptyTitle,
    Reason::JudgeTitle,
    Reason::NoLang,
    Reason::EmptyLang,
    Reason::UnknownLang,
    Reason::ThreeLetter,
    Reason::NoZoom,
    Reason::SmallScale,
    Reason::Delay,
    Reason::NoName,
    Reason::JudgeHeading,
    Reason::BadTokens,
    Reason::NoKnownRole,
    Reason::OutsideRole,
    Reason::UnknownAttr,
    Reason::LaterAttr,
    Reason::BadValue,
    Reason::DeadReference,
    Reason::MissingState,
    Reason::BadOwned,
    Reason::NothingOwned,
    Reason::FocusableInside,
    Reason::HeadersOutside,
    Reason::NoCells,
    Reason::LargeGrid,
    Reason::NoHeading,
    Reason::JudgeHeadingStart,
    Reason::NoLandmark,
    Reason::JudgeLandmark,
    Reason::NoSkipLink,
    Reason::JudgeSkipLink,
    Reason::NoCollapse,
    Reason::JudgeCollapse,
    Reason::LangMismatch,
    Reason::JudgeLabel,
    Reason::JudgeImage,
    Reason::NotPermitted,
    Reason::NoRole,
    Reason::NoContext,
    Reason::MaybeOwned,
    Reason::MarkedExposed,
    Reason::LabelMissing,
    Reason::JudgeLabelInName,
];

impl Reason {
    /// The word that reports print for the reason.
    pub fn word(self) -> &'static str
        ensures { result.now ≡ word_of self }
    {
        match self {
            Reason::Met => "ok",
            Reason::Decorative => "decorative",
            Reason::Merged => "merged",
            Reason::NoTitle => "no-title",
            Reason::EmptyTitle => "empty-title",
            Reason::JudgeTitle => "judge-title",
            Reason::NoLang => "no-lang",
            Reason::EmptyLang => "empty-lang",
            Reason::UnknownLang => "unknown-lang",
            Reason::ThreeLetter => "three-letter",
            Reason::NoZoom => "no-zoom",
            Reason::SmallScale => "small-scale",
            Reason::Delay => "delay",
            Reason::NoName => "no-name",
            Reason::JudgeHeading => "judge-heading",
            Reason::BadTokens => "bad-tokens",
            Reason::NoKnownRole => "no-known-role",
            Reason::OutsideRole => "outside-role",
            Reason::UnknownAttr => "unknown-attr",
            Reason::LaterAttr => "later-attr",
            Reason::BadValue => "bad-value",
            Reason::DeadReference => "dead-reference",
            Reason::MissingState => "missing-state",
            Reason::BadOwned => "bad-owned",
            Reason::NothingOwned => "nothing-owned",
            Reason::FocusableInside => "focusable-inside",
            Reason::HeadersOutside => "headers-outside",
            Reason::NoCells => "no-cells",
            Reason::LargeGrid => "large-grid",
            Reason::NoHeading => "no-heading",
            Reason::JudgeHeadingStart => "judge-heading-start",
            Reason::NoLandmark => "no-landmark",
            Reason::JudgeLandmark => "judge-landmark",
            Reason::NoSkipLink => "no-skip-link",
            Reason::JudgeSkipLink => "judge-skip-link",
            Reason::NoCollapse => "no-collapse",
            Reason::JudgeCollapse => "judge-collapse",
            Reason::LangMismatch => "lang-mismatch",
            Reason::JudgeLabel => "judge-label",
            Reason::JudgeImage => "judge-image",
            Reason::NotPermitted => "not-permitted",
            Reason::NoRole => "no-role",
            Reason::NoContext => "no-context",
            Reason::MaybeOwned => "maybe-owned",
            Reason::MarkedExposed => "marked-exposed",
            Reason::LabelMissing => "label-missing",
            Reason::JudgeLabelInName => "judge-label-in-name",
        }
    }

    /// The reason of a word that `word` gives; `None` for any other text.
    pub fn from_word(word: &str) -> Option<Self>
        ensures { result ≡ reason_of word.now }
    {
        REASONS.iter().copied().find(|reason| reason.word() == word)
    }
}

/// Laws of the words of reasons. It does nothing: the clauses are what it is for.
///
/// The word of a reason is read as that reason, no other text is, and no two reasons have one word.
#[tactic(auto, using(crate::proofs::WordLaws::read_back, crate::proofs::WordLaws::known, crate::proofs::WordLaws::differ))]
pub fn laws_of_words()
    ensures read_back { (reason : Reason) → reason_of (word_of reason) ≡ Some reason }
    ensures known { (word : List ℕ) (reason : Reason) → reason_of word ≡ Some reason
        → word ≡ word_of reason }
    ensures differ { (one other : Reason) → word_of one ≡ word_of other → one ≡ other }
{}
