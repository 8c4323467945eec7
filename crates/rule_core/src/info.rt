/// A rule's number in its book, from 1.
#[derive(Clone, Copy, Debug, PartialEq, Eq, PartialOrd, Ord, Hash)]
pub struct RuleNo(pub u16);

/// What a rule looks at to decide on a node.
#[derive(Clone, Copy, Debug, PartialEq, Eq, Hash)]
pub enum Class {
    /// The node and its ancestors.
    SelfOnly,
    /// The node's subtree too, and what references in it find.
    Sub,
    /// The nearest table too.
    Table,
    /// Where the node is the root, the `title` elements too.
    Title,
    /// Where the node is a `meta` element, the `meta` elements too.
    Metas,
    /// Where the node is the root, every node.
    Whole,
    /// The node and its ancestors, and the language subtags that the page's site accepts.
    Lang,
    /// The node's subtree too, and what references in it find, and these language subtags.
    SubLang,
}

impl Class {
    ghost use Rattle.std.specs.Prelude.{◌≡◌};
    ghost use Rattle.rule_core.specs.Reach.{looks_at_langs};

    /// Whether the class looks at the list of language subtags that the page's site accepts.
    pub fn looks_at_langs(self) -> bool
        ensures { result ≡ looks_at_langs self }
    {
        match self {
            Class::SelfOnly | Class::Sub | Class::Table => false,
            Class::Title | Class::Metas | Class::Whole => false,
            Class::Lang | Class::SubLang => true,
        }
    }
}

/// What a rule says of itself.
#[derive(Clone, Copy, Debug, PartialEq, Eq)]
pub struct RuleInfo {
    /// Its number.
    pub no: RuleNo,
    /// Its published id, six characters out of `a` to `z` and `0` to `9`.
    pub id: [u8; 6],
    /// What its applicability looks at.
    pub applies: Class,
    /// What its expectations look at.
    pub expects: Class,
    /// The numbers of the rules that a composite rule merges, then 0; four times 0 for an atomic rule.
    pub inputs: [u16; 4],
}

impl RuleInfo {
    ghost use Rattle.std.specs.Prelude.{◌≡◌};
    ghost use Rattle.rule_core.specs.Infos.{atomic, is_atomic};

    /// The info of an atomic rule, which has no inputs.
    pub fn atomic(no: u16, id: &[u8; 6], applies: Class, expects: Class) -> Self
        ensures { result ≡ atomic no id.now applies expects }
    {
        RuleInfo {
            no: RuleNo(no),
            id: *id,
            applies,
            expects,
            inputs: [0; 4],
        }
    }

    /// Whether the rule is atomic: it has no inputs.
    pub fn is_atomic(&self) -> bool
        ensures { result ≡ is_atomic self.now }
    {
        self.inputs.iter().all(|number| *number == 0)
    }
}
