//! Why a text is refused, and the lines that say so.
ghost use Rattle.std.specs.Prelude.{◌≡◌, Some};
ghost use Rattle.apex_texts.specs.declared.fault.TraceFault.TheVariants as trace;
ghost use Rattle.apex_texts.specs.declared.fault.Fault.TheVariants as fault;
ghost use Rattle.apex_texts.specs.Replay.{config_fault, trace_fault};
ghost use Rattle.apex_texts.specs.LineFault.{number_of};
ghost use Rattle.apex_texts.specs.FaultLine.{config_words, trace_words, fault_line};

use crate::line_fault::LineFault;
use apex_module::ConfigFault;
use apex_ports::RunFault;
use apex_types::{Name, OutOfMemory};
use std::alloc::{AllocError, AllocFailed};
use std::error::Error;
use std::fmt;

/// Why a trace or a script was refused.
#[derive(Clone, Copy, Debug, PartialEq, Eq)]
pub enum TraceFault {
    /// The first faulty line, from 1, and the number of its fault.
    Line { line: usize, fault: u32 },
    /// An allocation failed.
    OutOfMemory,
}

impl TraceFault {
    /// The fault of a line, whose number counts from 1.
    pub(crate) fn at(line: usize, fault: LineFault) -> TraceFault
        ensures { result ≡ TraceFault.Line line (number_of fault) }
    {
        TraceFault::Line {
            line,
            fault: fault.number(),
        }
    }
}

impl fmt::Display for TraceFault {
    ghost output = { λ fault. Some (trace_words fault) };

    fn fmt<W: fmt::Write>(&self, f: &mut fmt::Formatter<W>) -> fmt::Result {
        match self {
            TraceFault::Line { line, fault } => match LineFault::numbered(*fault) {
                Some(words) => write!(f, "line {line} fault {fault}: {words}"),
                None => write!(f, "line {line} fault {fault}"),
            },
            TraceFault::OutOfMemory => write!(f, "out of memory"),
        }
    }
}

impl Error for TraceFault {}

impl<T: Drop> From<AllocFailed<T>> for TraceFault {
    ghost from_gives = { λ _ given. given ≡ trace.OutOfMemory };

    fn from(_refused: AllocFailed<T>) -> TraceFault {
        TraceFault::OutOfMemory
    }
}

impl From<AllocError> for TraceFault {
    ghost from_gives = { λ _ given. given ≡ trace.OutOfMemory };

    fn from(_refused: AllocError) -> TraceFault {
        TraceFault::OutOfMemory
    }
}

/// Why a replay or a run gave no report. If memory ran out, it is always `Memory`.
#[derive(Debug, Drop, PartialEq, Eq)]
pub enum Fault {
    /// The configuration is refused.
    Config(ConfigFault),
    /// The trace is refused.
    Trace(TraceFault),
    /// The script of a partition is refused.
    Script { partition: Name, fault: TraceFault },
    /// The gate refused the `n`-th call of a partition, counted from 1.
    Held { partition: Name, n: usize },
    /// The run has another fault.
    Run(RunFault),
    /// An observer of a finished run shows that its board has ended.
    Gone,
    /// An allocation failed.
    Memory,
}

impl fmt::Display for Fault {
    ghost output = { λ fault. Some (fault_line fault) };

    fn fmt<W: fmt::Write>(&self, f: &mut fmt::Formatter<W>) -> fmt::Result {
        match self {
            Fault::Config(fault) => {
                let words = config_words(*fault);
                match fault.number() {
                    Some(number) => write!(f, "config fault {number}: {words}"),
                    None => write!(f, "{words}"),
                }
            }
            Fault::Trace(TraceFault::OutOfMemory)
            | Fault::Script {
                fault: TraceFault::OutOfMemory,
                ..
            }
            | Fault::Run(RunFault::OutOfMemory)
            | Fault::Memory => write!(f, "out of memory"),
            Fault::Trace(fault) => write!(f, "trace {fault}"),
            Fault::Script { partition, fault } => write!(f, "script {} {fault}", partition.text()),
            Fault::Held { partition, n } => {
                write!(
                    f,
                    "run fault 2: partition {} held at call {n}",
                    partition.text()
                )
            }
            Fault::Run(RunFault::Held { partition, n }) => {
                write!(f, "run fault 2: partition {partition} held at call {n}")
            }
            Fault::Run(RunFault::WorkerNotStarted) => write!(f, "run fault 3: worker not started"),
            Fault::Run(RunFault::ResultsDiffer) => {
                write!(f, "run fault 4: collected results do not match")
            }
            Fault::Run(RunFault::NoObserver) => write!(f, "run fault 5: no observer"),
            Fault::Gone => write!(f, "observer gone"),
        }
    }
}

/// The words for a configuration's fault.
fn config_words(fault: ConfigFault) -> &'static str
    ensures { result.now ≡ config_words fault }
{
    match fault {
        ConfigFault::NotToml => "not TOML",
        ConfigFault::Shape => "shape",
        ConfigFault::BadName => "name",
        ConfigFault::NameTwice => "name twice",
        ConfigFault::OutOfRange => "number out of range",
        ConfigFault::UnknownChannel => "unknown channel",
        ConfigFault::KindDiffers => "kind of port and channel differ",
        ConfigFault::Sources => "not exactly one source",
        ConfigFault::Destinations => "destinations",
        ConfigFault::Counts => "count out of limits",
        ConfigFault::OutOfMemory => "out of memory",
    }
}

impl Error for Fault {}

impl From<ConfigFault> for Fault {
    ghost from_gives = { λ refused given. given ≡ config_fault refused };

    fn from(fault: ConfigFault) -> Fault {
        match fault {
            ConfigFault::OutOfMemory => Fault::Memory,
            _ => Fault::Config(fault),
        }
    }
}

impl From<TraceFault> for Fault {
    ghost from_gives = { λ refused given. given ≡ trace_fault refused };

    fn from(fault: TraceFault) -> Fault {
        match fault {
            TraceFault::OutOfMemory => Fault::Memory,
            TraceFault::Line { .. } => Fault::Trace(fault),
        }
    }
}

impl From<OutOfMemory> for Fault {
    ghost from_gives = { λ _ given. given ≡ fault.Memory };

    fn from(_refused: OutOfMemory) -> Fault {
        Fault::Memory
    }
}

impl From<AllocError> for Fault {
    ghost from_gives = { λ _ given. given ≡ fault.Memory };

    fn from(_refused: AllocError) -> Fault {
        Fault::Memory
    }
}
