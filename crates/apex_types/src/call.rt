//! The calls that a partition can make.
ghost use Rattle.std.specs.Prelude.{◌≡◌};

use crate::message::Message;
use crate::name::Name;

/// A call of a service. A direction, discipline or mode is the number that the caller gave, even if the standard
/// doesn't define it.
#[derive(Debug, Drop, PartialEq, Eq)]
pub enum Call {
    /// CREATE_SAMPLING_PORT. The size is in bytes, the refresh period in nanoseconds.
    CreateSampling {
        name: Name,
        size: u32,
        direction: u32,
        refresh: u64,
    },
    /// WRITE_SAMPLING_MESSAGE.
    WriteSampling {
        id: u32,
        message: Message,
    },
    /// READ_SAMPLING_MESSAGE.
    ReadSampling {
        id: u32,
    },
    /// GET_SAMPLING_PORT_ID.
    SamplingId {
        name: Name,
    },
    /// GET_SAMPLING_PORT_STATUS.
    SamplingStatus {
        id: u32,
    },
    /// CREATE_QUEUING_PORT. The size is in bytes, the depth in messages.
    CreateQueuing {
        name: Name,
        size: u32,
        depth: u32,
        direction: u32,
        discipline: u32,
    },
    /// SEND_QUEUING_MESSAGE with a time-out of zero.
    SendQueuing {
        id: u32,
        message: Message,
    },
    /// RECEIVE_QUEUING_MESSAGE with a time-out of zero.
    ReceiveQueuing {
        id: u32,
    },
    /// GET_QUEUING_PORT_ID.
    QueuingId {
        name: Name,
    },
    /// GET_QUEUING_PORT_STATUS.
    QueuingStatus {
        id: u32,
    },
    /// CLEAR_QUEUING_PORT.
    ClearQueuing {
        id: u32,
    },
    /// SET_PARTITION_MODE.
    SetMode {
        mode: u32,
    },
}

/// A placeholder to read calls into.
pub const ANY_CALL: Call = Call::SetMode { mode: 0 };

impl Call {
    /// A copy of the call.
    pub fn copy(&self) -> Call
        ensures { result ≡ self.now }
    {
        match self {
            Call::CreateSampling {
                name,
                size,
                direction,
                refresh,
            } => Call::CreateSampling {
                name: name.copy(),
                size: *size,
                direction: *direction,
                refresh: *refresh,
            },
            Call::WriteSampling { id, message } => Call::WriteSampling {
                id: *id,
                message: message.copy(),
            },
            Call::ReadSampling { id } => Call::ReadSampling { id: *id },
            Call::SamplingId { name } => Call::SamplingId { name: name.copy() },
            Call::SamplingStatus { id } => Call::SamplingStatus { id: *id },
            Call::CreateQueuing {
                name,
                size,
                depth,
                direction,
                discipline,
            } => Call::CreateQueuing {
                name: name.copy(),
                size: *size,
                depth: *depth,
                direction: *direction,
                discipline: *discipline,
            },
            Call::SendQueuing { id, message } => Call::SendQueuing {
                id: *id,
                message: message.copy(),
            },
            Call::ReceiveQueuing { id } => Call::ReceiveQueuing { id: *id },
            Call::QueuingId { name } => Call::QueuingId { name: name.copy() },
            Call::QueuingStatus { id } => Call::QueuingStatus { id: *id },
            Call::ClearQueuing { id } => Call::ClearQueuing { id: *id },
            Call::SetMode { mode } => Call::SetMode { mode: *mode },
        }
    }
}
