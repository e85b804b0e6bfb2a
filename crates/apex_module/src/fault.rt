//! Why a configuration is refused.
ghost use Rattle.std.specs.Prelude.{◌≡◌};
ghost use Rattle.apex_module.specs.Fault.{pass_of};
ghost use Rattle.apex_module.specs.declared.fault.ConfigFault.TheVariants as fault;

use apex_types::OutOfMemory;
use std::alloc::{AllocError, AllocFailed};
use thiserror::Error;

/// Why a configuration is refused: the first pass that finds a fault in the text.
#[derive(Clone, Copy, Debug, PartialEq, Eq, Error)]
pub enum ConfigFault {
    /// The bytes are not TOML.
    #[error("not TOML")]
    NotToml,
    /// The document has another form: a missing or extra key, a value of another type, or a word that its key doesn't
    /// take.
    #[error("shape")]
    Shape,
    /// The name of a partition, port or channel is a text that `Name::read` refuses.
    #[error("name")]
    BadName,
    /// Two partitions, two ports of one partition, or two channels have the same name.
    #[error("name twice")]
    NameTwice,
    /// A size, a depth or a refresh period is out of its limits.
    #[error("number out of range")]
    OutOfRange,
    /// A port names a channel that doesn't exist.
    #[error("unknown channel")]
    UnknownChannel,
    /// A queuing port names a sampling channel, or a sampling port a queuing channel.
    #[error("kind of port and channel differ")]
    KindDiffers,
    /// A channel has no source port, or more than one.
    #[error("not exactly one source")]
    Sources,
    /// A channel has no destination port, or a queuing channel has several.
    #[error("destinations")]
    Destinations,
    /// There are no partitions, or there are too many partitions, ports of a partition, or channels.
    #[error("count out of limits")]
    Counts,
    /// An allocation failed.
    #[error("out of memory")]
    OutOfMemory,
}

impl ConfigFault {
    /// The number of the pass that finds the fault, 1 to 10; none if memory ran out.
    pub fn number(self) -> Option<u32>
        ensures { result ≡ pass_of self }
    {
        match self {
            ConfigFault::NotToml => Some(1),
            ConfigFault::Shape => Some(2),
            ConfigFault::BadName => Some(3),
            ConfigFault::NameTwice => Some(4),
            ConfigFault::OutOfRange => Some(5),
            ConfigFault::UnknownChannel => Some(6),
            ConfigFault::KindDiffers => Some(7),
            ConfigFault::Sources => Some(8),
            ConfigFault::Destinations => Some(9),
            ConfigFault::Counts => Some(10),
            ConfigFault::OutOfMemory => None,
        }
    }
}

impl From<OutOfMemory> for ConfigFault {
    ghost from_gives = { λ _ given. given ≡ fault.OutOfMemory };

    fn from(_refused: OutOfMemory) -> ConfigFault {
        ConfigFault::OutOfMemory
    }
}

impl From<AllocError> for ConfigFault {
    ghost from_gives = { λ _ given. given ≡ fault.OutOfMemory };

    fn from(_refused: AllocError) -> ConfigFault {
        ConfigFault::OutOfMemory
    }
}

impl<T: Drop> From<AllocFailed<T>> for ConfigFault {
    ghost from_gives = { λ _ given. given ≡ fault.OutOfMemory };

    fn from(_refused: AllocFailed<T>) -> ConfigFault {
        ConfigFault::OutOfMemory
    }
}
