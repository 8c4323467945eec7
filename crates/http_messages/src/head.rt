ghost use Rattle.std.specs.Prelude.{◌≡◌, count_by};
ghost use Rattle.std.specs.Option.{option_copied};
ghost use Rattle.http_messages.specs.Framing.{is_named, first_named, only_named, all_are, has_field, some_is, is_old, closes};
ghost use Rattle.texts.specs.Words.{same_folded};

use texts::List;

/// The versions of HTTP that a head may state.
#[derive(Clone, Copy, Debug, PartialEq, Eq)]
pub enum Version {
    Http10,
    Http11,
}

/// A field of a head: its name as sent, and its value without the white space around it.
#[derive(Debug, Drop)]
pub struct Field {
    pub name: List<u8>,
    pub value: List<u8>,
}

/// The head of a request (RFC 9112, sections 2 to 5).
#[derive(Debug, Drop)]
pub struct Head {
    pub version: Version,
    pub method: List<u8>,
    pub target: List<u8>,
    pub fields: List<Field>,
}

impl Head {
    /// The first field of this name; the case of its letters doesn't count.
    pub fn first_named(&self, name: &[u8]) -> Option<&Field>
        ensures { option_copied result ≡ first_named name.now self.now }
    {
        self.fields.as_slice().iter().find(|f| is_named(f, name))
    }

    /// The field of this name, where there is exactly one.
    pub fn only_named(&self, name: &[u8]) -> Option<&Field>
        ensures { option_copied result ≡ only_named name.now self.now }
    {
        if count_named(self, name) == 1 {
            self.first_named(name)
        } else {
            None
        }
    }

    /// Whether there is a field of this name.
    pub fn has_field(&self, name: &[u8]) -> bool
        ensures { result ≡ has_field name.now self.now }
    {
        self.fields.as_slice().iter().any(|f| is_named(f, name))
    }

    /// Whether the connection is closed after this message: the version is 1.0, or a connection field
    /// says `close`, whatever the case of its letters.
    #[tactic(auto, unfolding(crate::specs::Framing::closes))]
    pub fn closes(&self) -> bool
        ensures { result ≡ closes self.now }
    {
        is_old(self.version) || some_is(self, b"connection", b"close")
    }
}

fn count_named(head: &Head, name: &[u8]) -> usize
    ensures { result ≡ count_by (is_named name.now) head.now.fields }
{
    head.fields
        .as_slice()
        .iter()
        .filter(|f| is_named(f, name))
        .count()
}

// Whether each field of this name has this value.
pub(crate) fn all_are(head: &Head, name: &[u8], value: &[u8]) -> bool
    ensures { result ≡ all_are name.now value.now head.now }
{
    head.fields
        .as_slice()
        .iter()
        .all(|f| !is_named(f, name) || f.value.as_slice() == value)
}

// Whether some field of this name has this value, whatever the case of its letters.
fn some_is(head: &Head, name: &[u8], value: &[u8]) -> bool
    ensures { result ≡ some_is name.now value.now head.now }
{
    head.fields.as_slice().iter().any(|f| is_named(f, name)
        && same_folded(f.value.as_slice(), value))
}

fn is_old(version: Version) -> bool
    ensures { result ≡ is_old version }
{
    matches!(version, Version::Http10)
}

fn is_named(field: &Field, name: &[u8]) -> bool
    ensures { result ≡ is_named name.now field.now }
{
    same_folded(field.name.as_slice(), name)
}

// Whether two texts are equal but for the case of ASCII letters.
fn same_folded(a: &[u8], b: &[u8]) -> bool
    ensures { result ≡ same_folded a.now b.now }
{
    a.eq_ignore_ascii_case(b)
}
