//! The combined verdict on several answers to questions.
ghost use Rattle.std.specs.Prelude.{◌≡◌, ◌≢◌, ◌↔◌, ◌⊎◌};
ghost use Rattle.dekarino_search.specs.declared.verdict.Verdict.TheVariants.{No, Undecided, Yes};

use crate::outcome::Outcome;

/// The verdict on an answer.
#[derive(Clone, Copy, Debug, PartialEq, Eq)]
pub(crate) enum Verdict {
    /// It is as asked.
    Yes,
    /// It isn't.
    No,
    /// A search ended at its bound.
    Undecided,
}

impl Verdict {
    /// The verdict on an answer: whether what is asked for occurs, and whether it should.
    pub(crate) fn of(occurs: bool, wanted: bool) -> Verdict
        ensures yes { (result ≡ Yes) ↔ (occurs ≡ wanted) }
        ensures decided { result ≢ Undecided }
    {
        if occurs == wanted {
            Verdict::Yes
        } else {
            Verdict::No
        }
    }

    /// The combined verdict on two answers.
    pub(crate) fn and(self, other: Verdict) -> Verdict
        ensures no { (result ≡ No) ↔ ((self ≡ No) ⊎ (other ≡ No)) }
        ensures yes { (result ≡ Yes) ↔ ((self ≡ Yes) × (other ≡ Yes)) }
    {
        match (self, other) {
            (Verdict::No, _) | (_, Verdict::No) => Verdict::No,
            (Verdict::Undecided, _) | (_, Verdict::Undecided) => Verdict::Undecided,
            (Verdict::Yes, Verdict::Yes) => Verdict::Yes,
        }
    }

    /// The outcome of a task with this verdict and this text.
    pub(crate) fn outcome(self, text: Vec<u8>) -> Outcome {
        match self {
            Verdict::Yes => Outcome::Done(text),
            Verdict::No => Outcome::Negative(text),
            Verdict::Undecided => Outcome::Undecided(text),
        }
    }
}
