//! The services of the standard: their names, their checks, and the reply to an accepted call.
ghost use Rattle.std.specs.Prelude.{◌≡◌};
ghost use Rattle.apex_words.specs.Services.{refusals_of};

use apex_ports::Refusal;
use apex_texts::Service;

/// The standard's name of a service, like "SEND_QUEUING_MESSAGE".
pub fn standard_name(service: Service) -> &'static str {
    match service {
        Service::CreateSampling => "CREATE_SAMPLING_PORT",
        Service::WriteSampling => "WRITE_SAMPLING_MESSAGE",
        Service::ReadSampling => "READ_SAMPLING_MESSAGE",
        Service::SamplingId => "GET_SAMPLING_PORT_ID",
        Service::SamplingStatus => "GET_SAMPLING_PORT_STATUS",
        Service::CreateQueuing => "CREATE_QUEUING_PORT",
        Service::SendQueuing => "SEND_QUEUING_MESSAGE",
        Service::ReceiveQueuing => "RECEIVE_QUEUING_MESSAGE",
        Service::QueuingId => "GET_QUEUING_PORT_ID",
        Service::QueuingStatus => "GET_QUEUING_PORT_STATUS",
        Service::ClearQueuing => "CLEAR_QUEUING_PORT",
        Service::SetMode => "SET_PARTITION_MODE",
    }
}

// The checks of the services that make more than two.

const CREATE_SAMPLING: &[Refusal] = &[
    Refusal::NotConfigured,
    Refusal::AlreadyCreated,
    Refusal::SizeDiffers,
    Refusal::DirectionDiffers,
    Refusal::RefreshDiffers,
    Refusal::InNormal,
];

const CREATE_QUEUING: &[Refusal] = &[
    Refusal::NotConfigured,
    Refusal::AlreadyCreated,
    Refusal::SizeDiffers,
    Refusal::DepthDiffers,
    Refusal::DirectionDiffers,
    Refusal::UnknownDiscipline,
    Refusal::InNormal,
];

const WRITE_SAMPLING: &[Refusal] = &[
    Refusal::NoSuchPort,
    Refusal::EmptyMessage,
    Refusal::MessageTooLong,
    Refusal::NotSource,
];

const SEND_QUEUING: &[Refusal] = &[
    Refusal::NoSuchPort,
    Refusal::EmptyMessage,
    Refusal::MessageTooLong,
    Refusal::NotSource,
    Refusal::QueueFull,
];

const READ_SAMPLING: &[Refusal] = &[
    Refusal::NoSuchPort,
    Refusal::NotDestination,
    Refusal::NeverWritten,
];

const RECEIVE_QUEUING: &[Refusal] = &[
    Refusal::NoSuchPort,
    Refusal::NotDestination,
    Refusal::QueueEmpty,
];

const SET_MODE: &[Refusal] = &[
    Refusal::UnknownMode,
    Refusal::AlreadyNormal,
    Refusal::WarmStartInColdStart,
];

/// The checks of a service in order, each by the refusal of a call that fails it.
pub fn refusals_of(service: Service) -> &'static [Refusal]
    ensures { result.now ≡ refusals_of service }
{
    match service {
        Service::CreateSampling => CREATE_SAMPLING,
        Service::CreateQueuing => CREATE_QUEUING,
        Service::WriteSampling => WRITE_SAMPLING,
        Service::SendQueuing => SEND_QUEUING,
        Service::ReadSampling => READ_SAMPLING,
        Service::ReceiveQueuing => RECEIVE_QUEUING,
        Service::ClearQueuing => &[Refusal::NoSuchPort, Refusal::NotDestination],
        Service::SamplingId | Service::QueuingId => &[Refusal::NotCreated],
        Service::SamplingStatus | Service::QueuingStatus => &[Refusal::NoSuchPort],
        Service::SetMode => SET_MODE,
    }
}

/// The reply to an accepted call of a service, and its effect.
pub fn accepted_words(service: Service) -> &'static str {
    match service {
        Service::CreateSampling | Service::CreateQueuing => {
            "NO_ERROR with the port's identifier; the port is created"
        }
        Service::WriteSampling => {
            "NO_ERROR; the message, with the moment of the call, takes the place of the channel's last one"
        }
        Service::ReadSampling => {
            "NO_ERROR with the channel's last message and its validity at the moment of the call, by the port's refresh period; the message stays"
        }
        Service::SamplingId | Service::QueuingId => "NO_ERROR with the port's identifier",
        Service::SamplingStatus => {
            "NO_ERROR with the port's refresh period, the channel's size, the port's direction, and the validity of the port's last read"
        }
        Service::SendQueuing => "NO_ERROR; the message waits behind all others",
        Service::ReceiveQueuing => {
            "NO_ERROR with the oldest waiting message, which waits no longer"
        }
        Service::QueuingStatus => {
            "NO_ERROR with the number of waiting messages (the same at both ends of the channel), the channel's depth and size, the port's direction, and 0 waiting processes"
        }
        Service::ClearQueuing => {
            "NO_ERROR; every waiting message is discarded. Where none waits, nothing changes"
        }
        Service::SetMode => {
            "NO_ERROR; the partition is in that mode. COLD_START and WARM_START are restarts: the partition has no created port any more"
        }
    }
}
