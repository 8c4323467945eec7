ghost use Rattle.std.specs.Prelude.{◌≡◌, ◌==◌, filter, length};
ghost use Rattle.std.specs.List.{find};
ghost use Rattle.texts.specs.Words.{same_folded};
ghost use Rattle.aria_tables.specs.Roles.{word_of, roles, role_of, same_role, is_one_of, named_from_content, is_landmark};

use crate::word::is_word;

/// The roles that are known: the non-abstract roles of WAI-ARIA 1.2 ("Definition of Roles") that this
/// profile takes. A variant is the role's word with a capital; where that would hide another word of
/// contracts, `Role` follows.
#[derive(Clone, Copy, Debug, PartialEq, Eq, Hash)]
pub enum Role {
    Alert,
    Alertdialog,
    Application,
    Article,
    Banner,
    Blockquote,
    Button,
    Caption,
    Cell,
    Checkbox,
    Code,
    Columnheader,
    Combobox,
    Complementary,
    Contentinfo,
    Definition,
    Deletion,
    Dialog,
    Directory,
    DocumentRole,
    Emphasis,
    Feed,
    Figure,
    Form,
    Generic,
    Grid,
    Gridcell,
    Group,
    Heading,
    Img,
    Insertion,
    Link,
    ListRole,
    Listbox,
    Listitem,
    Log,
    Main,
    Marquee,
    Math,
    Menu,
    Menubar,
    Menuitem,
    Menuitemcheckbox,
    Menuitemradio,
    Meter,
    Navigation,
    NoneRole,
    Note,
    OptionRole,
    Paragraph,
    Presentation,
    Progressbar,
    Radio,
    Radiogroup,
    Region,
    RowRole,
    Rowgroup,
    Rowheader,
    Scrollbar,
    Search,
    Searchbox,
    Separator,
    Slider,
    Spinbutton,
    Status,
    Strong,
    Subscript,
    Superscript,
    Switch,
    Tab,
    TableRole,
    Tablist,
    Tabpanel,
    Term,
    Textbox,
    Time,
    Timer,
    Toolbar,
    Tooltip,
    TreeRole,
    Treegrid,
    Treeitem,
}

impl Role {
    /// The role's word in the standard.
    pub fn word(self) -> &'static str
        ensures { result.now ≡ word_of self }
    {
        match self {
            Role::Alert => "alert",
            Role::Alertdialog => "alertdialog",
            Role::Application => "application",
            Role::Article => "article",
            Role::Banner => "banner",
            Role::Blockquote => "blockquote",
            Role::Button => "button",
            Role::Caption => "caption",
            Role::Cell => "cell",
            Role::Checkbox => "checkbox",
            Role::Code => "code",
            Role::Columnheader => "columnheader",
            Role::Combobox => "combobox",
            Role::Complementary => "complementary",
            Role::Contentinfo => "contentinfo",
            Role::Definition => "definition",
            Role::Deletion => "deletion",
            Role::Dialog => "dialog",
            Role::Directory => "directory",
            Role::DocumentRole => "document",
            Role::Emphasis => "emphasis",
            Role::Feed => "feed",
            Role::Figure => "figure",
            Role::Form => "form",
            Role::Generic => "generic",
            Role::Grid => "grid",
            Role::Gridcell => "gridcell",
            Role::Group => "group",
            Role::Heading => "heading",
            Role::Img => "img",
            Role::Insertion => "insertion",
            Role::Link => "link",
            Role::ListRole => "list",
            Role::Listbox => "listbox",
            Role::Listitem => "listitem",
            Role::Log => "log",
            Role::Main => "main",
            Role::Marquee => "marquee",
            Role::Math => "math",
            Role::Menu => "menu",
            Role::Menubar => "menubar",
            Role::Menuitem => "menuitem",
            Role::Menuitemcheckbox => "menuitemcheckbox",
            Role::Menuitemradio => "menuitemradio",
            Role::Meter => "meter",
            Role::Navigation => "navigation",
            Role::NoneRole => "none",
            Role::Note => "note",
            Role::OptionRole => "option",
            Role::Paragraph => "paragraph",
            Role::Presentation => "presentation",
            Role::Progressbar => "progressbar",
            Role::Radio => "radio",
            Role::Radiogroup => "radiogroup",
            Role::Region => "region",
            Role::RowRole => "row",
            Role::Rowgroup => "rowgroup",
            Role::Rowheader => "rowheader",
            Role::Scrollbar => "scrollbar",
            Role::Search => "search",
            Role::Searchbox => "searchbox",
            Role::Separator => "separator",
            Role::Slider => "slider",
            Role::Spinbutton => "spinbutton",
            Role::Status => "status",
            Role::Strong => "strong",
            Role::Subscript => "subscript",
            Role::Superscript => "superscript",
            Role::Switch => "switch",
            Role::Tab => "tab",
            Role::TableRole => "table",
            Role::Tablist => "tablist",
            Role::Tabpanel => "tabpanel",
            Role::Term => "term",
            Role::Textbox => "textbox",
            Role::Time => "time",
            Role::Timer => "timer",
            Role::Toolbar => "toolbar",
            Role::Tooltip => "tooltip",
            Role::TreeRole => "tree",
            Role::Treegrid => "treegrid",
            Role::Treeitem => "treeitem",
        }
    }

    /// Whether the role is one of these.
    pub fn is_one_of(self, those: &[Role]) -> bool
        ensures { result ≡ is_one_of those.now self }
    {
        those.iter().any(|role| same_role(self, *role))
    }
}

// The roles whose words have this length.
fn roles_of_length(len: usize) -> &'static [Role]
    ensures { result.now ≡ filter (λ role. length (word_of role) == len) roles }
{
    match len {
        3 => &[Role::Img, Role::Log, Role::RowRole, Role::Tab],
        4 => &[
            Role::Cell,
            Role::Code,
            Role::Feed,
            Role::Form,
            Role::Grid,
            Role::Link,
            Role::ListRole,
            Role::Main,
            Role::Math,
            Role::Menu,
            Role::NoneRole,
            Role::Note,
            Role::Term,
            Role::Time,
            Role::TreeRole,
        ],
        5 => &[
            Role::Alert,
            Role::Group,
            Role::Meter,
            Role::Radio,
            Role::TableRole,
            Role::Timer,
        ],
        6 => &[
            Role::Banner,
            Role::Button,
            Role::Dialog,
            Role::Figure,
            Role::OptionRole,
            Role::Region,
            Role::Search,
            Role::Slider,
            Role::Status,
            Role::Strong,
            Role::Switch,
        ],
        7 => &[
            Role::Article,
            Role::Caption,
            Role::Generic,
            Role::Heading,
            Role::Listbox,
            Role::Marquee,
            Role::Menubar,
            Role::Tablist,
            Role::Textbox,
            Role::Toolbar,
            Role::Tooltip,
        ],
        8 => &[
            Role::Checkbox,
            Role::Combobox,
            Role::Deletion,
            Role::DocumentRole,
            Role::Emphasis,
            Role::Gridcell,
            Role::Listitem,
            Role::Menuitem,
            Role::Rowgroup,
            Role::Tabpanel,
            Role::Treegrid,
            Role::Treeitem,
        ],
        9 => &[
            Role::Directory,
            Role::Insertion,
            Role::Paragraph,
            Role::Rowheader,
            Role::Scrollbar,
            Role::Searchbox,
            Role::Separator,
            Role::Subscript,
        ],
        10 => &[
            Role::Blockquote,
            Role::Definition,
            Role::Navigation,
            Role::Radiogroup,
            Role::Spinbutton,
        ],
        11 => &[
            Role::Alertdialog,
            Role::Application,
            Role::Contentinfo,
            Role::Progressbar,
            Role::Superscript,
        ],
        12 => &[Role::Columnheader, Role::Presentation],
        13 => &[Role::Complementary, Role::Menuitemradio],
        16 => &[Role::Menuitemcheckbox],
        _ => &[],
    }
}

fn role_among(token: &[u8], roles: &[Role]) -> Option<Role>
    ensures { result ≡ find (λ role. same_folded token.now (word_of role)) roles.now }
{
    roles
        .iter()
        .copied()
        .find(|role| is_word(token, role.word()))
}

/// The known role whose word this is, which compares ASCII case-insensitively; `None` where there is
/// no such role. A token is compared with the words of its length alone.
pub fn role_of(token: &[u8]) -> Option<Role>
    ensures { result ≡ role_of token.now }
{
    role_among(token, roles_of_length(token.len()))
}

/// Whether the two are one role.
pub fn same_role(a: Role, b: Role) -> bool
    ensures { result ≡ same_role a b }
{
    a == b
}

/// Whether the name of an element of this role may come from what it holds (WAI-ARIA 1.2, "Roles
/// Supporting Name from Content").
pub fn named_from_content(role: Role) -> bool
    ensures { result ≡ named_from_content role }
{
    matches!(
        role,
        Role::Button
            | Role::Cell
            | Role::Checkbox
            | Role::Columnheader
            | Role::Gridcell
            | Role::Heading
            | Role::Link
            | Role::Menuitem
            | Role::Menuitemcheckbox
            | Role::Menuitemradio
            | Role::OptionRole
            | Role::Radio
            | Role::RowRole
            | Role::Rowheader
            | Role::Switch
            | Role::Tab
            | Role::Tooltip
            | Role::Treeitem
    )
}

/// Whether the role is a landmark (WAI-ARIA 1.2, "Landmark Roles").
pub fn is_landmark(role: Role) -> bool
    ensures { result ≡ is_landmark role }
{
    matches!(
        role,
        Role::Banner
            | Role::Complementary
            | Role::Contentinfo
            | Role::Form
            | Role::Main
            | Role::Navigation
            | Role::Region
            | Role::Search
    )
}
