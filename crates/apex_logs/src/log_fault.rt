//! What is wrong with a line of a log.
ghost use Rattle.std.specs.Prelude.{◌≡◌, Some};
ghost use Rattle.apex_logs.specs.LogFault.{number_of, log_fault_words};

use apex_texts::LineFault;
use std::error::Error;
use std::fmt;

/// What is wrong with a line of a log, in the order of the numbers.
#[derive(Clone, Copy, Debug, PartialEq, Eq)]
pub enum LogFault {
    /// A fault that a trace's line can have too. A reply has too few words, too many, a faulty
    /// number or a faulty message as a call has.
    Line(LineFault),
    /// The line has no arrow.
    NoReply,
    /// The bracket of a note isn't closed at the end of the line.
    OpenNote,
    /// No reply has such a word at this place after the arrow.
    UnknownReply,
}

impl LogFault {
    /// The number of the fault, from 1.
    pub fn number(self) -> u32
        ensures { result ≡ number_of self }
    {
        match self {
            LogFault::Line(fault) => fault.number(),
            LogFault::NoReply => 10,
            LogFault::OpenNote => 11,
            LogFault::UnknownReply => 12,
        }
    }

    /// The printed words of the fault.
    pub fn words(self) -> &'static str
        ensures { result.now ≡ log_fault_words self }
    {
        match self {
            LogFault::Line(fault) => fault.words(),
            LogFault::NoReply => "no reply",
            LogFault::OpenNote => "open note",
            LogFault::UnknownReply => "unknown reply",
        }
    }
}

impl fmt::Display for LogFault {
    ghost output = { λ fault. Some (log_fault_words fault) };

    fn fmt<W: fmt::Write>(&self, f: &mut fmt::Formatter<W>) -> fmt::Result {
        f.write_str(self.words())
    }
}

impl Error for LogFault {}
