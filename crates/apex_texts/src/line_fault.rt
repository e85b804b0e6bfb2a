//! What is wrong with a line of a trace or a script.
ghost use Rattle.std.specs.Prelude.{◌≡◌, Some};
ghost use Rattle.apex_texts.specs.LineFault.{number_of, fault_numbered, fault_words};

use std::error::Error;
use std::fmt;

/// What is wrong with a line, in the order of the numbers.
#[derive(Clone, Copy, Debug, PartialEq, Eq)]
pub enum LineFault {
    /// A byte is above 0x7F.
    NotAscii,
    /// The line has no call word, or fewer arguments than its call.
    TooFewWords,
    /// The line has more arguments than its call.
    TooManyWords,
    /// The moment is not a number, or too great.
    Moment,
    /// No partition has this name.
    Partition,
    /// The call word is unknown.
    UnknownCall,
    /// An argument is not a number, or too great.
    Number,
    /// An argument is not a name.
    Name,
    /// An argument is not a message.
    Message,
}

impl LineFault {
    /// The number of the fault, from 1.
    pub fn number(self) -> u32
        ensures { result ≡ number_of self }
    {
        match self {
            LineFault::NotAscii => 1,
            LineFault::TooFewWords => 2,
            LineFault::TooManyWords => 3,
            LineFault::Moment => 4,
            LineFault::Partition => 5,
            LineFault::UnknownCall => 6,
            LineFault::Number => 7,
            LineFault::Name => 8,
            LineFault::Message => 9,
        }
    }

    /// The fault with this number.
    pub fn numbered(number: u32) -> Option<LineFault>
        ensures { result ≡ fault_numbered number }
    {
        Some(match number {
            1 => LineFault::NotAscii,
            2 => LineFault::TooFewWords,
            3 => LineFault::TooManyWords,
            4 => LineFault::Moment,
            5 => LineFault::Partition,
            6 => LineFault::UnknownCall,
            7 => LineFault::Number,
            8 => LineFault::Name,
            9 => LineFault::Message,
            _ => return None,
        })
    }

    /// The printed words for the fault.
    pub fn words(self) -> &'static str
        ensures { result.now ≡ fault_words self }
    {
        match self {
            LineFault::NotAscii => "not ASCII",
            LineFault::TooFewWords => "too few words",
            LineFault::TooManyWords => "too many words",
            LineFault::Moment => "moment",
            LineFault::Partition => "partition",
            LineFault::UnknownCall => "unknown call",
            LineFault::Number => "number",
            LineFault::Name => "name",
            LineFault::Message => "message",
        }
    }
}

impl fmt::Display for LineFault {
    ghost output = { λ fault. Some (fault_words fault) };

    fn fmt<W: fmt::Write>(&self, f: &mut fmt::Formatter<W>) -> fmt::Result {
        f.write_str(self.words())
    }
}

impl Error for LineFault {}
