//! Why the words name no task.
ghost use Rattle.std.specs.Prelude.{◌≡◌};
ghost use Rattle.dekarino_command_line.specs.declared.fault.WordsFault.TheVariants.{OutOfMemory};

use std::alloc::AllocError;

/// Why the words name no task.
#[derive(Debug, Drop, PartialEq, Eq)]
pub enum WordsFault {
    /// The words aren't those of a command: the text that says so, with the usage.
    Usage(String),
    /// A growth of memory was refused.
    OutOfMemory,
}

impl From<AllocError> for WordsFault {
    ghost from_gives = { λ _ given. given ≡ OutOfMemory };

    fn from(_refused: AllocError) -> WordsFault {
        WordsFault::OutOfMemory
    }
}
