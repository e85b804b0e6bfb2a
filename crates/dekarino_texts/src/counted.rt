//! Numbers with what they count.
use std::fmt;
use std::fmt::{Display, Formatter};

/// A number with the word for what it counts: `1 call`, `2 calls`.
#[derive(Clone, Copy, Debug)]
pub struct Counted {
    /// The number.
    pub count: usize,
    /// The word for one.
    pub noun: &'static str,
}

impl Display for Counted {
    fn fmt<W: fmt::Write>(&self, f: &mut Formatter<W>) -> fmt::Result {
        let Counted { count, noun } = *self;
        let ending = if count == 1 { "" } else { "s" };
        write!(f, "{count} {noun}{ending}")
    }
}
