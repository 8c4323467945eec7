ghost use Rattle.std.specs.Prelude.{◌≡◌, filter};
ghost use Rattle.texts.specs.Words.{same_folded};
ghost use Rattle.acc_tree.specs.Tags.{tag_word, all_tags, begins, tag_among, known_tag, space_in, any_tag, in_html, html_tag};
ghost use Rattle.acc_tree.specs.Seen.{seen_row};

use snap_tree::{Body, Row, Space, same_folded};

/// The tags of HTML that roles, names and rules know. A variant is the tag with a capital; where that
/// would hide another word of contracts, `Tag` follows.
#[derive(Clone, Copy, Debug, PartialEq, Eq, Hash)]
pub enum Tag {
    A,
    Abbr,
    Address,
    Area,
    Article,
    Aside,
    B,
    Bdi,
    Bdo,
    Blockquote,
    BodyTag,
    Button,
    Caption,
    Cite,
    Code,
    Datalist,
    Dd,
    Del,
    Details,
    Dfn,
    Dialog,
    Div,
    Dt,
    Em,
    Fieldset,
    Figcaption,
    Figure,
    Footer,
    Form,
    H1,
    H2,
    H3,
    H4,
    H5,
    H6,
    Header,
    Hr,
    Html,
    I,
    Iframe,
    Img,
    Input,
    Ins,
    Kbd,
    Label,
    Legend,
    Li,
    Main,
    Mark,
    Menu,
    Meta,
    Meter,
    Nav,
    Ol,
    Optgroup,
    OptionTag,
    Output,
    P,
    Pre,
    Progress,
    Q,
    S,
    Samp,
    Search,
    Section,
    Select,
    Small,
    Span,
    Strong,
    Sub,
    Summary,
    Sup,
    Table,
    Tbody,
    Td,
    Textarea,
    Tfoot,
    Th,
    Thead,
    Time,
    Title,
    Tr,
    U,
    Ul,
    Var,
}

impl Tag {
    /// The tag in lower case.
    #[tactic(auto, unfolding(crate::specs::Tags::tag_word))]
    pub fn word(self) -> &'static str
        ensures { result.now ≡ tag_word self }
    {
        match self {
            Tag::A => "a",
            Tag::Abbr => "abbr",
            Tag::Address => "address",
            Tag::Area => "area",
            Tag::Article => "article",
            Tag::Aside => "aside",
            Tag::B => "b",
            Tag::Bdi => "bdi",
            Tag::Bdo => "bdo",
            Tag::Blockquote => "blockquote",
            Tag::BodyTag => "body",
            Tag::Button => "button",
            Tag::Caption => "caption",
            Tag::Cite => "cite",
            Tag::Code => "code",
            Tag::Datalist => "datalist",
            Tag::Dd => "dd",
            Tag::Del => "del",
            Tag::Details => "details",
            Tag::Dfn => "dfn",
            Tag::Dialog => "dialog",
            Tag::Div => "div",
            Tag::Dt => "dt",
            Tag::Em => "em",
            Tag::Fieldset => "fieldset",
            Tag::Figcaption => "figcaption",
            Tag::Figure => "figure",
            Tag::Footer => "footer",
            Tag::Form => "form",
            Tag::H1 => "h1",
            Tag::H2 => "h2",
            Tag::H3 => "h3",
            Tag::H4 => "h4",
            Tag::H5 => "h5",
            Tag::H6 => "h6",
            Tag::Header => "header",
            Tag::Hr => "hr",
            Tag::Html => "html",
            Tag::I => "i",
            Tag::Iframe => "iframe",
            Tag::Img => "img",
            Tag::Input => "input",
            Tag::Ins => "ins",
            Tag::Kbd => "kbd",
            Tag::Label => "label",
            Tag::Legend => "legend",
            Tag::Li => "li",
            Tag::Main => "main",
            Tag::Mark => "mark",
            Tag::Menu => "menu",
            Tag::Meta => "meta",
            Tag::Meter => "meter",
            Tag::Nav => "nav",
            Tag::Ol => "ol",
            Tag::Optgroup => "optgroup",
            Tag::OptionTag => "option",
            Tag::Output => "output",
            Tag::P => "p",
            Tag::Pre => "pre",
            Tag::Progress => "progress",
            Tag::Q => "q",
            Tag::S => "s",
            Tag::Samp => "samp",
            Tag::Search => "search",
            Tag::Section => "section",
            Tag::Select => "select",
            Tag::Small => "small",
            Tag::Span => "span",
            Tag::Strong => "strong",
            Tag::Sub => "sub",
            Tag::Summary => "summary",
            Tag::Sup => "sup",
            Tag::Table => "table",
            Tag::Tbody => "tbody",
            Tag::Td => "td",
            Tag::Textarea => "textarea",
            Tag::Tfoot => "tfoot",
            Tag::Th => "th",
            Tag::Thead => "thead",
            Tag::Time => "time",
            Tag::Title => "title",
            Tag::Tr => "tr",
            Tag::U => "u",
            Tag::Ul => "ul",
            Tag::Var => "var",
        }
    }
}

// The tags whose words begin with this letter.
fn tags_of_letter(letter: u8) -> &'static [Tag]
    ensures { result.now ≡ filter (λ t. begins letter (tag_word t)) all_tags }
{
    match letter {
        b'a' => &[
            Tag::A,
            Tag::Abbr,
            Tag::Address,
            Tag::Area,
            Tag::Article,
            Tag::Aside,
        ],
        b'b' => &[
            Tag::B,
            Tag::Bdi,
            Tag::Bdo,
            Tag::Blockquote,
            Tag::BodyTag,
            Tag::Button,
        ],
        b'c' => &[Tag::Caption, Tag::Cite, Tag::Code],
        b'd' => &[
            Tag::Datalist,
            Tag::Dd,
            Tag::Del,
            Tag::Details,
            Tag::Dfn,
            Tag::Dialog,
            Tag::Div,
            Tag::Dt,
        ],
        b'e' => &[Tag::Em],
        b'f' => &[
            Tag::Fieldset,
            Tag::Figcaption,
            Tag::Figure,
            Tag::Footer,
            Tag::Form,
        ],
        b'h' => &[
            Tag::H1,
            Tag::H2,
            Tag::H3,
            Tag::H4,
            Tag::H5,
            Tag::H6,
            Tag::Header,
            Tag::Hr,
            Tag::Html,
        ],
        b'i' => &[Tag::I, Tag::Iframe, Tag::Img, Tag::Input, Tag::Ins],
        b'k' => &[Tag::Kbd],
        b'l' => &[Tag::Label, Tag::Legend, Tag::Li],
        b'm' => &[Tag::Main, Tag::Mark, Tag::Menu, Tag::Meta, Tag::Meter],
        b'n' => &[Tag::Nav],
        b'o' => &[Tag::Ol, Tag::Optgroup, Tag::OptionTag, Tag::Output],
        b'p' => &[Tag::P, Tag::Pre, Tag::Progress],
        b'q' => &[Tag::Q],
        b's' => &[
            Tag::S,
            Tag::Samp,
            Tag::Search,
            Tag::Section,
            Tag::Select,
            Tag::Small,
            Tag::Span,
            Tag::Strong,
            Tag::Sub,
            Tag::Summary,
            Tag::Sup,
        ],
        b't' => &[
            Tag::Table,
            Tag::Tbody,
            Tag::Td,
            Tag::Textarea,
            Tag::Tfoot,
            Tag::Th,
            Tag::Thead,
            Tag::Time,
            Tag::Title,
            Tag::Tr,
        ],
        b'u' => &[Tag::U, Tag::Ul],
        b'v' => &[Tag::Var],
        _ => &[],
    }
}

// Most tags are told apart by their lengths.
fn is_tag(text: &str, tag: Tag) -> bool
    ensures { result ≡ same_folded text.now (tag_word tag) }
{
    let word = tag.word();
    text.len() == word.len() && same_folded(text, word)
}

fn tag_among(text: &str, tags: &[Tag]) -> Option<Tag>
    ensures { result ≡ tag_among text.now tags.now }
{
    tags.iter().copied().find(|tag| is_tag(text, *tag))
}

/// The tag of a word, which compares ASCII case-insensitively; None where it isn't known. A word is
/// compared with the tags of its first letter alone.
pub fn known_tag(text: &str) -> Option<Tag>
    ensures { result ≡ known_tag text.now }
{
    match text.as_bytes().first() {
        Some(first) => tag_among(text, tags_of_letter(first.to_ascii_lowercase())),
        None => None,
    }
}

/// The known tag of an element in any name space; None for every other node.
pub fn any_tag(row: &Row) -> Option<Tag>
    ensures { result ≡ any_tag (seen_row row.now) }
{
    match row.body.get() {
        Body::Element { tag, .. } => known_tag(tag.as_str()),
        Body::Words { .. } => None,
    }
}

/// The known tag of a row of any name space, where the row is an HTML element.
pub(crate) fn in_html(row: &Row, tag: Option<Tag>) -> Option<Tag>
    ensures { result ≡ in_html (space_in (seen_row row.now).body) tag }
{
    match row.body.get() {
        Body::Element {
            space: Space::Html,
            ..
        } => tag,
        _ => None,
    }
}

/// The known tag of an HTML element; None for every other node.
pub fn html_tag(row: &Row) -> Option<Tag>
    ensures { result ≡ html_tag (seen_row row.now) }
{
    match row.body.get() {
        Body::Element {
            space: Space::Html,
            tag,
            ..
        } => known_tag(tag.as_str()),
        _ => None,
    }
}
