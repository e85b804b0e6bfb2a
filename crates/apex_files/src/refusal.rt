//! Why the program refuses, with the line that says so and the status with which it then ends.
ghost use Rattle.std.specs.Prelude.{◌≡◌, Some};
ghost use Rattle.apex_texts.specs.declared.fault.Fault.TheVariants as faults;
ghost use Rattle.apex_files.specs.declared.refusal.Refusal.TheVariants.{Text};
ghost use Rattle.apex_files.specs.Refusal.{status_of, words_refusal, refusal_line};

use crate::files::Obstacle;
use apex_command_line::WordsFault;
use apex_module::ConfigFault;
use apex_texts::{Fault, TraceFault};
use std::alloc::AllocError;
use std::error::Error;
use std::fmt;

/// Why the program refuses. Its text is a line for standard error.
#[derive(Debug, Drop, PartialEq, Eq)]
pub enum Refusal<'a> {
    /// The words aren't those of the usage line.
    Usage,
    /// An argument of `run` isn't `NAME=SCRIPT`, or no partition has the name, or an earlier argument named it.
    Argument(&'a str),
    /// A text is refused, or memory ran out.
    Text(Fault),
    /// The file at a path can't be read. The line doesn't say why.
    File { path: &'a str, obstacle: Obstacle },
    /// Standard output failed.
    Output,
}

impl Refusal<'_> {
    /// The status with which the program ends: 1 for a refused text, 2 for wrong usage, 3 for a file, memory, a worker, an
    /// observer or standard output.
    pub fn status(&self) -> u8
        ensures { result ≡ status_of self.now }
    {
        match self {
            Refusal::Text(
                Fault::Memory
                | Fault::Config(ConfigFault::OutOfMemory)
                | Fault::Trace(TraceFault::OutOfMemory)
                | Fault::Script {
                    fault: TraceFault::OutOfMemory,
                    ..
                }
                | Fault::Held { .. }
                | Fault::Run(_)
                | Fault::Gone,
            )
            | Refusal::File { .. }
            | Refusal::Output => 3,
            Refusal::Text(_) => 1,
            Refusal::Usage | Refusal::Argument(_) => 2,
        }
    }
}

impl fmt::Display for Refusal<'_> {
    ghost output = { λ refusal. Some (refusal_line refusal) };

    fn fmt<W: fmt::Write>(&self, f: &mut fmt::Formatter<W>) -> fmt::Result {
        match self {
            Refusal::Usage => write!(
                f,
                "usage: apexports check CONFIG | replay CONFIG TRACE | run CONFIG [NAME=SCRIPT]..."
            ),
            Refusal::Argument(word) => write!(f, "argument fault: {word}"),
            Refusal::Text(fault) => write!(f, "{fault}"),
            Refusal::File { path, .. } => write!(f, "cannot read {path}"),
            Refusal::Output => write!(f, "cannot write"),
        }
    }
}

impl Error for Refusal<'_> {}

impl<'a> From<WordsFault> for Refusal<'a> {
    ghost from_gives = { λ fault given. given ≡ words_refusal fault };

    fn from(fault: WordsFault) -> Refusal<'a> {
        match fault {
            WordsFault::Usage => Refusal::Usage,
            WordsFault::OutOfMemory => Refusal::Text(Fault::Memory),
        }
    }
}

impl<'a> From<Fault> for Refusal<'a> {
    ghost from_gives = { λ fault given. given ≡ Text fault };

    fn from(fault: Fault) -> Refusal<'a> {
        Refusal::Text(fault)
    }
}

impl<'a> From<AllocError> for Refusal<'a> {
    ghost from_gives = { λ _ given. given ≡ Text faults.Memory };

    fn from(_refused: AllocError) -> Refusal<'a> {
        Refusal::Text(Fault::Memory)
    }
}
