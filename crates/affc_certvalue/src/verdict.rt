//! What is wrong with a value.
ghost use Rattle.affc_certvalue.specs.Verdicts.{worse};
ghost use Rattle.std.specs.Prelude.{◌≡◌};

/// What is wrong with a value: its shape, or where that is right a number in it, or nothing.
#[derive(Clone, Copy)]
pub enum Verdict {
    Shape,
    Number,
    Fine,
}

impl Verdict {
    /// The worse of two verdicts.
    pub fn and(self, other: Verdict) -> Verdict
        ensures { result ≡ worse self other }
    {
        match self {
            Verdict::Shape => Verdict::Shape,
            Verdict::Number => match other {
                Verdict::Shape => Verdict::Shape,
                Verdict::Number => Verdict::Number,
                Verdict::Fine => Verdict::Number,
            },
            Verdict::Fine => other,
        }
    }
}
