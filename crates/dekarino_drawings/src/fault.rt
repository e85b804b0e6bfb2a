//! Why a trace is not drawn.
ghost use Rattle.std.specs.Prelude.{◌≡◌};
ghost use Rattle.apex_texts.specs.declared.fault.Fault.TheVariants as faults;
ghost use Rattle.apex_texts.specs.Replay.{trace_fault};
ghost use Rattle.dekarino_drawings.specs.declared.fault.DrawingFault.TheVariants as drawing;

use crate::chart::CALL_LIMIT;
use apex_texts::{Fault, TraceFault};
use apex_types::OutOfMemory;
use std::alloc::AllocError;
use std::error::Error;
use std::fmt;

/// Why a trace is not drawn.
#[derive(Debug, Drop, PartialEq, Eq)]
pub enum DrawingFault {
    /// The trace is refused, or memory ran out.
    Text(Fault),
    /// The trace has more calls than are drawn.
    TooManyCalls { calls: usize },
}

impl fmt::Display for DrawingFault {
    fn fmt<W: fmt::Write>(&self, f: &mut fmt::Formatter<W>) -> fmt::Result {
        match self {
            DrawingFault::Text(fault) => write!(f, "{fault}"),
            DrawingFault::TooManyCalls { calls } => write!(
                f,
                "drawing: the trace has {calls} calls, and at most {CALL_LIMIT} are drawn: draw a part of the trace"
            ),
        }
    }
}

impl Error for DrawingFault {}

impl From<TraceFault> for DrawingFault {
    ghost from_gives = { λ refused given. given ≡ drawing.Text (trace_fault refused) };

    fn from(fault: TraceFault) -> DrawingFault {
        DrawingFault::Text(fault.into())
    }
}

impl From<OutOfMemory> for DrawingFault {
    ghost from_gives = { λ _ given. given ≡ drawing.Text faults.Memory };

    fn from(_refused: OutOfMemory) -> DrawingFault {
        DrawingFault::Text(Fault::Memory)
    }
}

impl From<AllocError> for DrawingFault {
    ghost from_gives = { λ _ given. given ≡ drawing.Text faults.Memory };

    fn from(_refused: AllocError) -> DrawingFault {
        DrawingFault::Text(Fault::Memory)
    }
}
