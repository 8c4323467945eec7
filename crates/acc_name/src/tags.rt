ghost use Rattle.std.specs.Prelude.{◌≡◌};
ghost use Rattle.acc_name.specs.Names.{is_input, is_select, is_inline, is_option, has_placeholder};

use acc_tree::Tag;

/// Whether it is an `input`.
pub(crate) fn is_input(tag: Option<Tag>) -> bool
    ensures { result ≡ is_input tag }
{
    matches!(tag, Some(Tag::Input))
}

/// Whether it is a `select`.
pub(crate) fn is_select(tag: Option<Tag>) -> bool
    ensures { result ≡ is_select tag }
{
    matches!(tag, Some(Tag::Select))
}

/// Whether it is an `option`.
pub(crate) fn is_option(tag: Option<Tag>) -> bool
    ensures { result ≡ is_option tag }
{
    matches!(tag, Some(Tag::OptionTag))
}

/// Whether its attribute placeholder can name it.
pub(crate) fn has_placeholder(tag: Option<Tag>) -> bool
    ensures { result ≡ has_placeholder tag }
{
    matches!(tag, Some(Tag::Input | Tag::Textarea))
}

/// Whether an element of this tag stands within a line, so that no space parts its text from the texts
/// around it.
pub(crate) fn is_inline(tag: Option<Tag>) -> bool
    ensures { result ≡ is_inline tag }
{
    match tag {
        Some(Tag::A | Tag::Abbr | Tag::B | Tag::Bdi | Tag::Bdo | Tag::Cite | Tag::Code) => true,
        Some(Tag::Em | Tag::I | Tag::Kbd | Tag::Mark | Tag::Q | Tag::S | Tag::Samp) => true,
        Some(Tag::Small | Tag::Span | Tag::Strong | Tag::Sub | Tag::Sup | Tag::U | Tag::Var) =>
            true,
        _ => false,
    }
}
