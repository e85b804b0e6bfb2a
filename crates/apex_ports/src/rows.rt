//! The rows of the reply table. The first check of its service that applies gives the row of a call.
ghost use Rattle.std.specs.Prelude.{◌≡◌, false};
ghost use Rattle.apex_ports.specs.Modes.{is_no_error};
ghost use Rattle.apex_ports.specs.Rows.{code_of};

use apex_types::{ReturnCode, Validity};

/// The row of the reply table that a call gets. The row and what the partition sees give the reply.
#[derive(Clone, Copy, Debug, PartialEq, Eq)]
pub enum Row {
    /// The partition is in IDLE: the call isn't made.
    Idle,
    /// A check of the service applies.
    Refused(Refusal),
    /// The port with the identifier is created.
    Created { id: u32 },
    /// The port with the name has the identifier.
    Identified { id: u32 },
    /// The message waits behind all others.
    Sent,
    /// The oldest message that waits at the port is received.
    OldestReceived { id: u32 },
    /// All waiting messages are discarded.
    Cleared,
    /// The status of the queuing port.
    QueuingStatus { id: u32 },
    /// The message replaces the channel's last one.
    Written,
    /// The last message of the port's channel is read, with this validity.
    LastRead { id: u32, validity: Validity },
    /// The status of the sampling port.
    SamplingStatus { id: u32 },
    /// The mode is set.
    ModeSet,
}

/// Why a call is refused.
#[derive(Clone, Copy, Debug, PartialEq, Eq)]
pub enum Refusal {
    /// The configuration has no port of the kind with the name for the partition.
    NotConfigured,
    /// The port is already created.
    AlreadyCreated,
    /// The maximum message size is not the channel's.
    SizeDiffers,
    /// The maximum number of messages is not the channel's depth.
    DepthDiffers,
    /// The direction is not the configured one.
    DirectionDiffers,
    /// The refresh period is not the configured one.
    RefreshDiffers,
    /// The queuing discipline is neither FIFO nor PRIORITY.
    UnknownDiscipline,
    /// The partition is in NORMAL, in which no port can be created.
    InNormal,
    /// The partition has created no port of the kind with the name.
    NotCreated,
    /// The partition has created no port of the kind with the identifier.
    NoSuchPort,
    /// The message has length 0.
    EmptyMessage,
    /// The message is longer than the channel's size.
    MessageTooLong,
    /// The port is not a source.
    NotSource,
    /// The port is not a destination.
    NotDestination,
    /// The queue already has its maximum number of messages.
    QueueFull,
    /// No message waits.
    QueueEmpty,
    /// Nothing was ever written into the channel.
    NeverWritten,
    /// No mode has the number.
    UnknownMode,
    /// The call sets NORMAL in NORMAL.
    AlreadyNormal,
    /// The call sets WARM_START in COLD_START.
    WarmStartInColdStart,
}

impl Refusal {
    /// The return code of the refusal.
    pub fn code(self) -> ReturnCode
        ensures code { result ≡ code_of self }
        ensures refused { is_no_error result ≡ false }
    {
        match self {
            Refusal::AlreadyCreated | Refusal::NeverWritten | Refusal::AlreadyNormal => {
                ReturnCode::NoAction
            }
            Refusal::QueueFull | Refusal::QueueEmpty => ReturnCode::NotAvailable,
            Refusal::NoSuchPort | Refusal::EmptyMessage | Refusal::UnknownMode => {
                ReturnCode::InvalidParam
            }
            Refusal::InNormal
            | Refusal::NotSource
            | Refusal::NotDestination
            | Refusal::WarmStartInColdStart => ReturnCode::InvalidMode,
            Refusal::NotConfigured
            | Refusal::SizeDiffers
            | Refusal::DepthDiffers
            | Refusal::DirectionDiffers
            | Refusal::RefreshDiffers
            | Refusal::UnknownDiscipline
            | Refusal::NotCreated
            | Refusal::MessageTooLong => ReturnCode::InvalidConfig,
        }
    }
}
