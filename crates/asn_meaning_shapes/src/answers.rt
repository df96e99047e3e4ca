//! What is known: yes, no, or unknown.

ghost use Rattle.asn_meaning_shapes.specs.Answers.{known};
ghost use Rattle.asn_meaning.specs.Answers.{answer_of, both, denied, either};
ghost use Rattle.std.specs.Prelude.{◌≡◌};

/// An answer of the judge.
#[derive(Clone, Copy, Debug, PartialEq, Eq)]
pub enum Answer {
    Yes,
    No,
    /// A name leads nowhere, or to what is of another kind, however many steps there are.
    Unknown,
}

impl Answer {
    /// Yes where the condition holds, else no.
    pub fn of(condition: bool) -> Answer
        ensures { known result ≡ answer_of condition }
    {
        if condition { Answer::Yes } else { Answer::No }
    }

    /// The conjunction: a no stays no, whatever the other is.
    pub fn and(self, other: Answer) -> Answer
        ensures { known result ≡ both (known self) (known other) }
    {
        match (self, other) {
            (Answer::No, _) | (_, Answer::No) => Answer::No,
            (Answer::Yes, Answer::Yes) => Answer::Yes,
            _ => Answer::Unknown,
        }
    }

    /// The disjunction: a yes stays yes, whatever the other is.
    pub fn or(self, other: Answer) -> Answer
        ensures { known result ≡ either (known self) (known other) }
    {
        match (self, other) {
            (Answer::Yes, _) | (_, Answer::Yes) => Answer::Yes,
            (Answer::No, Answer::No) => Answer::No,
            _ => Answer::Unknown,
        }
    }

    /// Yes for no, and no for yes.
    pub fn denied(self) -> Answer
        ensures { known result ≡ denied (known self) }
    {
        match self {
            Answer::Yes => Answer::No,
            Answer::No => Answer::Yes,
            Answer::Unknown => Answer::Unknown,
        }
    }
}
