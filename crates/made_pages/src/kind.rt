ghost use Rattle.std.specs.Prelude.{◌≡◌};
ghost use Rattle.made_pages.specs.Pages.{kind_of};

/// What stands in the section of a part, behind its heading.
#[derive(Clone, Copy, Debug, PartialEq, Eq)]
pub enum Kind {
    /// A link with a text.
    Link,
    /// An image with a text in its place.
    Image,
    /// A button that holds nothing.
    Button,
    /// A label that holds a text and a field.
    Field,
}

impl Kind {
    /// The kind by a remainder by 4.
    pub(crate) fn of(remainder: u64) -> Kind
        ensures { result ≡ kind_of remainder }
    {
        match remainder {
            0 => Kind::Link,
            1 => Kind::Image,
            2 => Kind::Button,
            _ => Kind::Field,
        }
    }
}
