ghost use Rattle.std.specs.Prelude.{◌≡◌, ◌+◌, ◌-◌, ◌<◌, ◌≤◌, ◌^◌, ◌++◌};
ghost use Rattle.made_audit.specs.Line.{Numbered, span_works};

/// Pages that a number makes, which follow one another: so many, after so many earlier ones.
#[derive(Clone, Copy, Debug, PartialEq, Eq)]
pub struct Span {
    pub number: u32,
    pub earlier: u32,
    pub pages: u32,
}

impl Span {
    /// The first of these pages, so many, and the others.
    #[tactic(auto, using(crate::proofs::Spans::parts_of_span))]
    pub fn split(&self, first: u32) -> (Span, Span)
        requires within { first ≤ self.now.pages }
        requires numbered { Numbered self.now }
        ensures pages { span_works self.now ≡ span_works result.0 ++ span_works result.1 }
        ensures first_numbered { Numbered result.0 }
        ensures later_numbered { Numbered result.1 }
    {
        let Span {
            number,
            earlier,
            pages,
        } = *self;
        let head = Span {
            number,
            earlier,
            pages: first,
        };
        let tail = Span {
            number,
            earlier: earlier + first,
            pages: pages - first,
        };
        (head, tail)
    }
}
