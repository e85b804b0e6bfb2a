//! Why a task can't be finished.
ghost use Rattle.std.specs.Prelude.{◌≡◌};
ghost use Rattle.apex_files.specs.declared.refusal.Refusal.TheVariants.{Text};
ghost use Rattle.dekarino_search.specs.declared.unfinished.Unfinished.TheVariants.{FaultyLog, Refused};
ghost use Rattle.dekarino_search.specs.Unfinished.{log_refusal, out_of_memory};

use crate::bound::Bound;
use apex_files::Refusal;
use apex_logs::{FaultyLine, LogError};
use apex_texts::Fault;
use apex_types::OutOfMemory;
use std::alloc::AllocError;

/// Why a task can't be finished.
#[derive(Debug, Drop, PartialEq, Eq)]
pub enum Unfinished<'a> {
    /// A text, a file, an argument or the output is at fault, or memory ran out.
    Refused(Refusal<'a>),
    /// The same, with a text to print before: the places of a configuration's fault, the mistakes of a script, or the lines
    /// of a trace up to its fault.
    RefusedWithText {
        text: Vec<u8>,
        refusal: Refusal<'a>,
    },
    /// No service has the name.
    UnknownService(&'a str),
    /// The trace has more calls than are drawn.
    TooManyCalls {
        calls: usize,
    },
    /// The log has a faulty line.
    FaultyLog(FaultyLine),
    /// The same, with a text to print before: the mistakes of the log.
    FaultyLogWithText {
        text: Vec<u8>,
        faulty: FaultyLine,
    },
    /// The line of the log with this number is too long. The text is to be printed before: the mistake.
    TooLongLine {
        text: Vec<u8>,
        line: usize,
    },
    /// Whoever reads the output reads no more.
    OutputClosed,
    /// The log that a partition kept, in this file, has a faulty line. The text is to be printed before: the mistakes of
    /// this log and of those that were to be read after it.
    FaultyOwnLog {
        text: Vec<u8>,
        file: &'a str,
        faulty: FaultyLine,
    },
    /// The file at this path can't be written.
    UnwritableFile(&'a str),
    /// The file with this name in the folder can't be written.
    UnwritableFileIn {
        folder: &'a str,
        name: String,
    },
    /// Words of the command are at fault, for this reason: a question, or a script that `--clock` refuses.
    BadArgument {
        words: &'a str,
        reason: String,
    },
    /// A search gave up at this bound.
    Undecided(Bound),
}

impl<'a> From<FaultyLine> for Unfinished<'a> {
    ghost from_gives = { λ faulty given. given ≡ FaultyLog faulty };

    fn from(faulty: FaultyLine) -> Unfinished<'a> {
        Unfinished::FaultyLog(faulty)
    }
}

impl<'a> From<LogError> for Unfinished<'a> {
    ghost from_gives = { λ error given. given ≡ log_refusal error };

    fn from(error: LogError) -> Unfinished<'a> {
        match error {
            LogError::Line(faulty) => Unfinished::from(faulty),
            LogError::OutOfMemory => Unfinished::from(Fault::Memory),
        }
    }
}

impl<'a> From<Refusal<'a>> for Unfinished<'a> {
    ghost from_gives = { λ refusal given. given ≡ Refused refusal };

    fn from(refusal: Refusal<'a>) -> Unfinished<'a> {
        Unfinished::Refused(refusal)
    }
}

impl<'a> From<Fault> for Unfinished<'a> {
    ghost from_gives = { λ fault given. given ≡ Refused (Text fault) };

    fn from(fault: Fault) -> Unfinished<'a> {
        Unfinished::Refused(Refusal::Text(fault))
    }
}

impl<'a> From<AllocError> for Unfinished<'a> {
    ghost from_gives = { λ _ given. given ≡ out_of_memory };

    fn from(refused: AllocError) -> Unfinished<'a> {
        Unfinished::Refused(Refusal::from(refused))
    }
}

impl<'a> From<OutOfMemory> for Unfinished<'a> {
    ghost from_gives = { λ _ given. given ≡ out_of_memory };

    fn from(_: OutOfMemory) -> Unfinished<'a> {
        Unfinished::from(AllocError)
    }
}
