use snap_tree::Space;

/// The names and values of attributes.
pub type Attrs<'a> = &'a [(&'a str, &'a str)];

/// A node of a small page. The first field is the number of its parent, and 0 for none. Facts are written
/// by their letters: r for rendered, v for visible, f for focusable and t for tabbable.
#[derive(Clone, Copy)]
pub enum Node<'a> {
    /// An element of this space and tag, with attributes and facts.
    Element(u32, Space, &'a str, Attrs<'a>, &'a str),
    /// An HTML element of this tag with attributes, rendered and visible.
    Html(u32, &'a str, Attrs<'a>),
    /// An SVG element of this tag with attributes, rendered and visible.
    Svg(u32, &'a str, Attrs<'a>),
    /// An HTML element of this tag with attributes, which has all facts: the Tab key stops at it.
    Stop(u32, &'a str, Attrs<'a>),
    /// An HTML element of this tag, with attributes and facts.
    Facts(u32, &'a str, Attrs<'a>, &'a str),
    /// A text, rendered and visible.
    Words(u32, &'a str),
    /// A text, with facts.
    Text(u32, &'a str, &'a str),
}
