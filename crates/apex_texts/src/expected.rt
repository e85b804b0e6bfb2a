//! What a word of a line must be.
ghost use Rattle.std.specs.Prelude.{◌≡◌};
ghost use Rattle.apex_texts.specs.Expected.{is_argument};

use crate::arguments::{MOMENT_LIMIT, NUMBER_LIMIT, name_in, read_message};
use crate::text::number_up_to;
use apex_types::Message;

/// What was expected at the fault of a line.
#[derive(Clone, Copy, Debug, PartialEq, Eq)]
pub enum Expected {
    /// A byte up to 0x7F.
    Ascii,
    /// A moment in nanoseconds, at most `MOMENT_LIMIT`.
    Moment,
    /// The name of a partition of the configuration.
    Partition,
    /// The call word of a service: `SERVICES` has all of them.
    Service,
    /// A port's name.
    Name,
    /// The size of a port's messages, at most `NUMBER_LIMIT` like the other numbers.
    Size,
    /// The number of messages that a queue holds.
    Depth,
    /// The number of a direction.
    Direction,
    /// The number of a queuing discipline.
    Discipline,
    /// A refresh period in nanoseconds, at most `MOMENT_LIMIT`.
    Refresh,
    /// A port's identifier.
    Identifier,
    /// A message in hexadecimal digits, or `-`.
    Message,
    /// The number of an operating mode.
    Mode,
    /// No further word.
    EndOfLine,
}

impl Expected {
    /// Whether a word is valid as this argument.
    pub fn is_argument(self, word: &[u8]) -> bool
        ensures { result ≡ is_argument self word.now }
    {
        match self {
            Expected::Name => name_in(word).is_some(),
            Expected::Message => read_message(word, &mut Message::empty()).is_ok(),
            Expected::Refresh => number_up_to(MOMENT_LIMIT, word).is_some(),
            _ => number_up_to(NUMBER_LIMIT, word).is_some(),
        }
    }
}
