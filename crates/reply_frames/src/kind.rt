ghost use Rattle.std.specs.Prelude.{◌≡◌, ◌≤◌, length};
ghost use Rattle.reply_frames.specs.Frames.{kind_text};

/// What a body is: its media type.
#[derive(Clone, Copy, Debug, PartialEq, Eq)]
pub enum Kind {
    Json,
    Text,
    JsonLd,
    Csv,
}

impl Kind {
    /// The media type as `content-type` has it.
    pub fn text(self) -> &'static str
        ensures text { result.now ≡ kind_text self }
        ensures short { length result.now ≤ 25 }
    {
        match self {
            Kind::Json => "application/json",
            Kind::Text => "text/plain; charset=utf-8",
            Kind::JsonLd => "application/ld+json",
            Kind::Csv => "text/csv",
        }
    }
}
