//! The direction of a port, PORT_DIRECTION_TYPE.
ghost use Rattle.std.specs.Prelude.{◌≡◌};
ghost use Rattle.apex_types.specs.Direction.{number_of, word_of};

/// The direction of a port, PORT_DIRECTION_TYPE.
#[derive(Clone, Copy, Debug, PartialEq, Eq)]
pub enum Direction {
    /// SOURCE.
    Source,
    /// DESTINATION.
    Destination,
}

impl Direction {
    /// The number of the standard's enumeration.
    pub fn number(self) -> u32
        ensures { result ≡ number_of self }
    {
        match self {
            Direction::Source => 0,
            Direction::Destination => 1,
        }
    }

    /// The standard's word, in upper case.
    pub fn word(self) -> &'static str
        ensures { result.now ≡ word_of self }
    {
        match self {
            Direction::Source => "SOURCE",
            Direction::Destination => "DESTINATION",
        }
    }
}
