ghost use Rattle.std.specs.Prelude.{◌≡◌};
ghost use Rattle.http_routes.specs.Faults.{word};

use snap_json::Field;

/// A part of a message that can be out of shape: the revision in its head, the body as a whole, a field of
/// the snapshot that is the body, or a member of the body.
#[derive(Clone, Copy, Debug, PartialEq, Eq)]
pub enum Part {
    /// The field `x-rev` of the head.
    Rev,
    Body,
    Snapshot(Field),
    Role,
    Languages,
    Pages,
    Graph,
    Edits,
    Rule,
    Node,
    Verdict,
    Digest,
    Note,
}

impl Part {
    /// The word by which the part is told.
    pub fn word(self) -> &'static str
        ensures { result.now ≡ word self }
    {
        match self {
            Part::Rev => "x-rev",
            Part::Body => "body",
            Part::Snapshot(field) => field.name(),
            Part::Role => "role",
            Part::Languages => "languages",
            Part::Pages => "pages",
            Part::Graph => "@graph",
            Part::Edits => "edits",
            Part::Rule => "rule",
            Part::Node => "node",
            Part::Verdict => "verdict",
            Part::Digest => "digest",
            Part::Note => "note",
        }
    }
}
