ghost use Rattle.std.specs.Prelude.{◌≡◌, ◌==◌, filter, length};
ghost use Rattle.std.specs.List.{find};
ghost use Rattle.texts.specs.Words.{same_folded};
ghost use Rattle.aria_tables.specs.Attributes.{name_of, attributes, attr_of, is_later, is_global, is_reference};

use crate::word::is_word;

/// The states and properties of WAI-ARIA 1.2 ("Definitions of States and Properties") that are known.
/// A variant is the attribute's name after `aria-`, with a capital.
#[derive(Clone, Copy, Debug, PartialEq, Eq, Hash)]
pub enum AriaAttr {
    Activedescendant,
    Atomic,
    Autocomplete,
    Busy,
    Checked,
    Colcount,
    Colindex,
    Colspan,
    Controls,
    Current,
    Describedby,
    Details,
    Disabled,
    Dropeffect,
    Errormessage,
    Expanded,
    Flowto,
    Grabbed,
    Haspopup,
    Hidden,
    Invalid,
    Keyshortcuts,
    Label,
    Labelledby,
    Level,
    Live,
    Modal,
    Multiline,
    Multiselectable,
    Orientation,
    Owns,
    Placeholder,
    Posinset,
    Pressed,
    Readonly,
    Relevant,
    Required,
    Roledescription,
    Rowcount,
    Rowindex,
    Rowspan,
    Selected,
    Setsize,
    Sort,
    Valuemax,
    Valuemin,
    Valuenow,
    Valuetext,
}

impl AriaAttr {
    /// The attribute's name, as `aria-checked`.
    pub fn name(self) -> &'static str
        ensures { result.now ≡ name_of self }
    {
        match self {
            AriaAttr::Activedescendant => "aria-activedescendant",
            AriaAttr::Atomic => "aria-atomic",
            AriaAttr::Autocomplete => "aria-autocomplete",
            AriaAttr::Busy => "aria-busy",
            AriaAttr::Checked => "aria-checked",
            AriaAttr::Colcount => "aria-colcount",
            AriaAttr::Colindex => "aria-colindex",
            AriaAttr::Colspan => "aria-colspan",
            AriaAttr::Controls => "aria-controls",
            AriaAttr::Current => "aria-current",
            AriaAttr::Describedby => "aria-describedby",
            AriaAttr::Details => "aria-details",
            AriaAttr::Disabled => "aria-disabled",
            AriaAttr::Dropeffect => "aria-dropeffect",
            AriaAttr::Errormessage => "aria-errormessage",
            AriaAttr::Expanded => "aria-expanded",
            AriaAttr::Flowto => "aria-flowto",
            AriaAttr::Grabbed => "aria-grabbed",
            AriaAttr::Haspopup => "aria-haspopup",
            AriaAttr::Hidden => "aria-hidden",
            AriaAttr::Invalid => "aria-invalid",
            AriaAttr::Keyshortcuts => "aria-keyshortcuts",
            AriaAttr::Label => "aria-label",
            AriaAttr::Labelledby => "aria-labelledby",
            AriaAttr::Level => "aria-level",
            AriaAttr::Live => "aria-live",
            AriaAttr::Modal => "aria-modal",
            AriaAttr::Multiline => "aria-multiline",
            AriaAttr::Multiselectable => "aria-multiselectable",
            AriaAttr::Orientation => "aria-orientation",
            AriaAttr::Owns => "aria-owns",
            AriaAttr::Placeholder => "aria-placeholder",
            AriaAttr::Posinset => "aria-posinset",
            AriaAttr::Pressed => "aria-pressed",
            AriaAttr::Readonly => "aria-readonly",
            AriaAttr::Relevant => "aria-relevant",
            AriaAttr::Required => "aria-required",
            AriaAttr::Roledescription => "aria-roledescription",
            AriaAttr::Rowcount => "aria-rowcount",
            AriaAttr::Rowindex => "aria-rowindex",
            AriaAttr::Rowspan => "aria-rowspan",
            AriaAttr::Selected => "aria-selected",
            AriaAttr::Setsize => "aria-setsize",
            AriaAttr::Sort => "aria-sort",
            AriaAttr::Valuemax => "aria-valuemax",
            AriaAttr::Valuemin => "aria-valuemin",
            AriaAttr::Valuenow => "aria-valuenow",
            AriaAttr::Valuetext => "aria-valuetext",
        }
    }
}

// The attributes whose names have this length.
fn attributes_of_length(len: usize) -> &'static [AriaAttr]
    ensures { result.now ≡ filter (λ attr. length (name_of attr) == len) attributes }
{
    match len {
        9 => &[
            AriaAttr::Busy,
            AriaAttr::Live,
            AriaAttr::Owns,
            AriaAttr::Sort,
        ],
        10 => &[AriaAttr::Label, AriaAttr::Level, AriaAttr::Modal],
        11 => &[AriaAttr::Atomic, AriaAttr::Flowto, AriaAttr::Hidden],
        12 => &[
            AriaAttr::Checked,
            AriaAttr::Colspan,
            AriaAttr::Current,
            AriaAttr::Details,
            AriaAttr::Grabbed,
            AriaAttr::Invalid,
            AriaAttr::Pressed,
            AriaAttr::Rowspan,
            AriaAttr::Setsize,
        ],
        13 => &[
            AriaAttr::Colcount,
            AriaAttr::Colindex,
            AriaAttr::Controls,
            AriaAttr::Disabled,
            AriaAttr::Expanded,
            AriaAttr::Haspopup,
            AriaAttr::Posinset,
            AriaAttr::Readonly,
            AriaAttr::Relevant,
            AriaAttr::Required,
            AriaAttr::Rowcount,
            AriaAttr::Rowindex,
            AriaAttr::Selected,
            AriaAttr::Valuemax,
            AriaAttr::Valuemin,
            AriaAttr::Valuenow,
        ],
        14 => &[AriaAttr::Multiline, AriaAttr::Valuetext],
        15 => &[AriaAttr::Dropeffect, AriaAttr::Labelledby],
        16 => &[
            AriaAttr::Describedby,
            AriaAttr::Orientation,
            AriaAttr::Placeholder,
        ],
        17 => &[
            AriaAttr::Autocomplete,
            AriaAttr::Errormessage,
            AriaAttr::Keyshortcuts,
        ],
        20 => &[AriaAttr::Multiselectable, AriaAttr::Roledescription],
        21 => &[AriaAttr::Activedescendant],
        _ => &[],
    }
}

fn attr_among(name: &[u8], attrs: &[AriaAttr]) -> Option<AriaAttr>
    ensures { result ≡ find (λ attr. same_folded name.now (name_of attr)) attrs.now }
{
    attrs
        .iter()
        .copied()
        .find(|attr| is_word(name, attr.name()))
}

/// The known attribute of this whole name, as `aria-checked`, which compares ASCII
/// case-insensitively; `None` where there is no such attribute. A name is compared with those of its
/// length alone.
pub fn attr_of(name: &[u8]) -> Option<AriaAttr>
    ensures { result ≡ attr_of name.now }
{
    attr_among(name, attributes_of_length(name.len()))
}

/// Whether this is the whole name of an attribute of a later edition, about which nothing is told.
pub fn is_later(name: &[u8]) -> bool
    ensures { result ≡ is_later name.now }
{
    is_word(name, "aria-actions")
        | is_word(name, "aria-braillelabel")
        | is_word(name, "aria-brailleroledescription")
        | is_word(name, "aria-colindextext")
        | is_word(name, "aria-description")
        | is_word(name, "aria-rowindextext")
}

/// Whether the attribute is global (WAI-ARIA 1.2, "Global States and Properties"): those whose global use
/// is deprecated aren't.
pub fn is_global(attr: AriaAttr) -> bool
    ensures { result ≡ is_global attr }
{
    matches!(
        attr,
        AriaAttr::Atomic
            | AriaAttr::Busy
            | AriaAttr::Controls
            | AriaAttr::Current
            | AriaAttr::Describedby
            | AriaAttr::Details
            | AriaAttr::Dropeffect
            | AriaAttr::Flowto
            | AriaAttr::Grabbed
            | AriaAttr::Hidden
            | AriaAttr::Keyshortcuts
            | AriaAttr::Label
            | AriaAttr::Labelledby
            | AriaAttr::Live
            | AriaAttr::Owns
            | AriaAttr::Relevant
            | AriaAttr::Roledescription
    )
}

/// Whether the attribute's tokens are looked up as ids of the page.
pub fn is_reference(attr: AriaAttr) -> bool
    ensures { result ≡ is_reference attr }
{
    matches!(
        attr,
        AriaAttr::Describedby
            | AriaAttr::Details
            | AriaAttr::Flowto
            | AriaAttr::Labelledby
            | AriaAttr::Owns
    )
}
