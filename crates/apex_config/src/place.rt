//! Places in the text of a configuration.
ghost use Rattle.std.specs.Prelude.{◌≡◌};
ghost use Rattle.apex_config.specs.Places.{whole, at, unknown};

use crate::key::Key;

/// A part of a configuration's text: each by its index in its array, from 0.
#[derive(Clone, Copy, Debug, PartialEq, Eq)]
pub enum Part {
    /// The text as a whole.
    Document,
    Partition { partition: usize },
    Port { partition: usize, port: usize },
    Channel { channel: usize },
}

impl Part {
    /// The part as a whole.
    pub fn whole(self) -> Place
        ensures { result ≡ whole self }
    {
        Place {
            part: self,
            spot: Spot::Whole,
        }
    }

    /// A key of the part.
    pub fn at(self, key: Key) -> Place
        ensures { result ≡ at self key }
    {
        Place {
            part: self,
            spot: Spot::At { key },
        }
    }

    /// A key that the part doesn't take, by its number in the order of the part's keys.
    pub fn unknown(self, number: usize) -> Place
        ensures { result ≡ unknown self number }
    {
        Place {
            part: self,
            spot: Spot::Unknown { number },
        }
    }
}

/// What a place is within its part.
#[derive(Clone, Copy, Debug, PartialEq, Eq)]
pub enum Spot {
    /// All of it.
    Whole,
    /// The value that is, or must be, at a key.
    At { key: Key },
    /// A key that the part doesn't take, by its number in the order of the part's keys, from 0.
    Unknown { number: usize },
}

/// A place in the text of a configuration: a path like `partition[0].port[1].kind`.
#[derive(Clone, Copy, Debug, PartialEq, Eq)]
pub struct Place {
    pub part: Part,
    pub spot: Spot,
}
