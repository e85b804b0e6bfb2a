//! The bound at which a search gave up.
use dekarino_texts::Counted;
use std::fmt;
use std::fmt::{Display, Formatter};

/// The bound at which a search gave up without an answer.
#[derive(Clone, Copy, Debug, PartialEq, Eq)]
pub enum Bound {
    /// This number of seconds.
    Seconds(usize),
    /// This number of MiB.
    Memory(usize),
    /// This number of states.
    States(usize),
}

impl Bound {
    /// The option that allows more, and the number that it had.
    pub(crate) fn option(self) -> (&'static str, usize) {
        match self {
            Bound::Seconds(seconds) => ("--seconds", seconds),
            Bound::Memory(memory) => ("--memory", memory),
            Bound::States(states) => ("--states", states),
        }
    }
}

impl Display for Bound {
    fn fmt<W: fmt::Write>(&self, f: &mut Formatter<W>) -> fmt::Result {
        match self {
            Bound::Seconds(seconds) => {
                let counted = Counted {
                    count: *seconds,
                    noun: "second",
                };
                write!(f, "undecided after {counted}; --seconds allows more")
            }
            Bound::Memory(memory) => {
                write!(f, "undecided: more than {memory} MiB; --memory allows more")
            }
            Bound::States(states) => {
                let counted = Counted {
                    count: *states,
                    noun: "state",
                };
                write!(f, "undecided: more than {counted}; --states allows more")
            }
        }
    }
}
