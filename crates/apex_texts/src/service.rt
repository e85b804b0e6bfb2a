//! The services that a trace can ask for, by their call words.
ghost use Rattle.std.specs.Prelude.{◌≡◌};
ghost use Rattle.apex_ports.specs.Noted.{call_by};
ghost use Rattle.apex_texts.specs.Service.{word_of, service_named, service_of, parameters_of};

use crate::expected::Expected;
use apex_ports::CallRef;

/// A service of the standard, as a trace names it.
#[derive(Clone, Copy)]
pub enum Service {
    /// CREATE_SAMPLING_PORT.
    CreateSampling,
    /// WRITE_SAMPLING_MESSAGE.
    WriteSampling,
    /// READ_SAMPLING_MESSAGE.
    ReadSampling,
    /// GET_SAMPLING_PORT_ID.
    SamplingId,
    /// GET_SAMPLING_PORT_STATUS.
    SamplingStatus,
    /// CREATE_QUEUING_PORT.
    CreateQueuing,
    /// SEND_QUEUING_MESSAGE.
    SendQueuing,
    /// RECEIVE_QUEUING_MESSAGE.
    ReceiveQueuing,
    /// GET_QUEUING_PORT_ID.
    QueuingId,
    /// GET_QUEUING_PORT_STATUS.
    QueuingStatus,
    /// CLEAR_QUEUING_PORT.
    ClearQueuing,
    /// SET_PARTITION_MODE.
    SetMode,
}

/// All services.
pub const SERVICES: [Service; 12] = [
    Service::CreateSampling,
    Service::WriteSampling,
    Service::ReadSampling,
    Service::SamplingId,
    Service::SamplingStatus,
    Service::CreateQueuing,
    Service::SendQueuing,
    Service::ReceiveQueuing,
    Service::QueuingId,
    Service::QueuingStatus,
    Service::ClearQueuing,
    Service::SetMode,
];

impl Service {
    /// The service that a call word names.
    pub fn named(word: &[u8]) -> Option<Service>
        ensures { result ≡ service_named word.now }
    {
        SERVICES
            .iter()
            .copied()
            .find(|service| service.word().as_bytes() == word)
    }

    /// The service of a call.
    pub fn of(call: CallRef<'_>) -> Service
        ensures { result ≡ service_of (call_by call.entry) }
    {
        match call {
            CallRef::CreateSampling { .. } => Service::CreateSampling,
            CallRef::WriteSampling { .. } => Service::WriteSampling,
            CallRef::ReadSampling { .. } => Service::ReadSampling,
            CallRef::SamplingId { .. } => Service::SamplingId,
            CallRef::SamplingStatus { .. } => Service::SamplingStatus,
            CallRef::CreateQueuing { .. } => Service::CreateQueuing,
            CallRef::SendQueuing { .. } => Service::SendQueuing,
            CallRef::ReceiveQueuing { .. } => Service::ReceiveQueuing,
            CallRef::QueuingId { .. } => Service::QueuingId,
            CallRef::QueuingStatus { .. } => Service::QueuingStatus,
            CallRef::ClearQueuing { .. } => Service::ClearQueuing,
            CallRef::SetMode { .. } => Service::SetMode,
        }
    }

    /// The call word of the service.
    pub fn word(self) -> &'static str
        ensures { result.now ≡ word_of self }
    {
        match self {
            Service::CreateSampling => "create-sampling",
            Service::WriteSampling => "write",
            Service::ReadSampling => "read",
            Service::SamplingId => "sampling-id",
            Service::SamplingStatus => "sampling-status",
            Service::CreateQueuing => "create-queuing",
            Service::SendQueuing => "send",
            Service::ReceiveQueuing => "receive",
            Service::QueuingId => "queuing-id",
            Service::QueuingStatus => "queuing-status",
            Service::ClearQueuing => "clear",
            Service::SetMode => "mode",
        }
    }

    /// What each argument of the service must be.
    pub fn parameters(self) -> &'static [Expected]
        ensures { result.now ≡ parameters_of self }
    {
        match self {
            Service::CreateSampling => &[
                Expected::Name,
                Expected::Size,
                Expected::Direction,
                Expected::Refresh,
            ],
            Service::CreateQueuing => &[
                Expected::Name,
                Expected::Size,
                Expected::Depth,
                Expected::Direction,
                Expected::Discipline,
            ],
            Service::WriteSampling | Service::SendQueuing => {
                &[Expected::Identifier, Expected::Message]
            }
            Service::SamplingId | Service::QueuingId => &[Expected::Name],
            Service::SetMode => &[Expected::Mode],
            Service::ReadSampling
            | Service::SamplingStatus
            | Service::ReceiveQueuing
            | Service::QueuingStatus
            | Service::ClearQueuing => &[Expected::Identifier],
        }
    }
}
