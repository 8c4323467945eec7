use snap_tree::Text;

/// Which clause gave a name.
#[derive(Clone, Copy, Debug, PartialEq, Eq, Hash)]
pub enum NameSource {
    /// There is no name.
    Nothing,
    /// The elements that aria-labelledby names.
    LabelledBy,
    /// The attribute aria-label.
    AriaLabel,
    /// The labels of a control.
    HostLabel,
    /// The value of a control within a name, or the text of the element's own kind, such as `alt`.
    HostText,
    /// The node's own text, or what its children say.
    Content,
    /// The attribute title.
    Title,
    /// The attribute placeholder.
    Placeholder,
}

/// The accessible name of a node. The text is tidy, and it is empty exactly where the source is Nothing.
#[derive(Debug, Drop)]
pub struct Name {
    pub text: Text,
    pub source: NameSource,
}

/// How a node is come to while a name is made.
#[derive(Clone, Copy, Debug, PartialEq, Eq)]
pub(crate) enum How {
    /// Its own name is asked.
    Own,
    /// A reference or a label leads to it.
    Referred,
    /// It is within a node that is come to.
    Inner,
}
