//! The fault of a run, if a worker was refused or the observers couldn't be made.
ghost use Rattle.std.specs.Prelude.{◌≡◌};
ghost use Rattle.apex_threads.specs.Fault.{fault_of, fault_without};

use crate::shared::AskFault;
use apex_observers::ObserverFault;
use apex_ports::RunFault;

/// A board that lacks the worker's partition isn't the one that was handed out.
impl From<AskFault> for RunFault {
    ghost from_gives = { λ refused given. given ≡ fault_of refused };

    fn from(refused: AskFault) -> RunFault {
        match refused {
            AskFault::OutOfMemory => RunFault::OutOfMemory,
            AskFault::NoPartition => RunFault::ResultsDiffer,
        }
    }
}

/// The fault of a run whose observers couldn't be made.
pub fn fault_without(refused: ObserverFault) -> RunFault
    ensures { result ≡ fault_without refused }
{
    match refused {
        ObserverFault::OutOfMemory => RunFault::OutOfMemory,
        ObserverFault::NoPlace => RunFault::NoObserver,
    }
}
