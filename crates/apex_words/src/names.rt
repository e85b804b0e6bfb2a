//! The names of the rows of the reply table.
use apex_ports::{Refusal, Row};

/// The name of a row in a few words, like "message too long" or "sent".
pub fn row_name(row: Row) -> &'static str {
    match row {
        Row::Idle => "in IDLE",
        Row::Refused(refusal) => refusal_name(refusal),
        Row::Created { .. } => "created",
        Row::Identified { .. } => "identified",
        Row::Sent => "sent",
        Row::OldestReceived { .. } => "received",
        Row::Cleared => "cleared",
        Row::QueuingStatus { .. } => "queuing status",
        Row::Written => "written",
        Row::LastRead { .. } => "read",
        Row::SamplingStatus { .. } => "sampling status",
        Row::ModeSet => "mode set",
    }
}

fn refusal_name(refusal: Refusal) -> &'static str {
    match refusal {
        Refusal::NotConfigured => "not configured",
        Refusal::AlreadyCreated => "already created",
        Refusal::SizeDiffers => "size differs",
        Refusal::DepthDiffers => "depth differs",
        Refusal::DirectionDiffers => "direction differs",
        Refusal::RefreshDiffers => "refresh period differs",
        Refusal::UnknownDiscipline => "unknown discipline",
        Refusal::InNormal => "in NORMAL",
        Refusal::NotCreated => "not created",
        Refusal::NoSuchPort => "no such port",
        Refusal::EmptyMessage => "empty message",
        Refusal::MessageTooLong => "message too long",
        Refusal::NotSource => "not a source",
        Refusal::NotDestination => "not a destination",
        Refusal::QueueFull => "queue full",
        Refusal::QueueEmpty => "queue empty",
        Refusal::NeverWritten => "never written",
        Refusal::UnknownMode => "unknown mode",
        Refusal::AlreadyNormal => "already in NORMAL",
        Refusal::WarmStartInColdStart => "WARM_START in COLD_START",
    }
}
