//! Why a run of scripts gives no board.
ghost use Rattle.std.specs.Prelude.{◌≡◌};
ghost use Rattle.apex_ports.specs.RunFault.{number_of};
ghost use Rattle.apex_ports.specs.declared.run_fault.RunFault.TheVariants as fault;

use apex_types::OutOfMemory;
use std::alloc::AllocError;
use thiserror::Error;

/// Why a run gives no board.
#[derive(Clone, Copy, Debug, PartialEq, Eq, Error)]
pub enum RunFault {
    /// An allocation failed.
    #[error("out of memory")]
    OutOfMemory,
    /// The gate refused the `n`-th call of the partition, counted from 1.
    #[error("partition {partition} held at call {n}")]
    Held { partition: usize, n: usize },
    /// No thread could be started for a worker.
    #[error("worker not started")]
    WorkerNotStarted,
    /// The results that the workers left don't match the scripts that they were given.
    #[error("collected results do not match")]
    ResultsDiffer,
    /// The board's observers couldn't be made.
    #[error("no observer")]
    NoObserver,
}

impl RunFault {
    /// The number of the fault, 1 to 5.
    pub fn number(self) -> u32
        ensures { result ≡ number_of self }
    {
        match self {
            RunFault::OutOfMemory => 1,
            RunFault::Held { .. } => 2,
            RunFault::WorkerNotStarted => 3,
            RunFault::ResultsDiffer => 4,
            RunFault::NoObserver => 5,
        }
    }
}

impl From<OutOfMemory> for RunFault {
    ghost from_gives = { λ _ given. given ≡ fault.OutOfMemory };

    fn from(_refused: OutOfMemory) -> RunFault {
        RunFault::OutOfMemory
    }
}

impl From<AllocError> for RunFault {
    ghost from_gives = { λ _ given. given ≡ fault.OutOfMemory };

    fn from(_refused: AllocError) -> RunFault {
        RunFault::OutOfMemory
    }
}
