//! The numbers of the rows of the reply table, for C.
ghost use Rattle.std.specs.Prelude.{◌≡◌};
ghost use Rattle.apex_c.specs.Rows.{refusal_number, row_number};

use apex_ports::{Refusal, Row};

/// The number of a row.
pub(crate) fn row_number(row: Row) -> u32
    ensures { result ≡ row_number row }
{
    match row {
        Row::Idle => 0,
        Row::Refused(refusal) => refusal_number(refusal),
        Row::Created { .. } => 21,
        Row::Identified { .. } => 22,
        Row::Sent => 23,
        Row::OldestReceived { .. } => 24,
        Row::Cleared => 25,
        Row::QueuingStatus { .. } => 26,
        Row::Written => 27,
        Row::LastRead { .. } => 28,
        Row::SamplingStatus { .. } => 29,
        Row::ModeSet => 30,
    }
}

// The number of the row of a refusal.
fn refusal_number(refusal: Refusal) -> u32
    ensures { result ≡ refusal_number refusal }
{
    match refusal {
        Refusal::NotConfigured => 1,
        Refusal::AlreadyCreated => 2,
        Refusal::SizeDiffers => 3,
        Refusal::DepthDiffers => 4,
        Refusal::DirectionDiffers => 5,
        Refusal::RefreshDiffers => 6,
        Refusal::UnknownDiscipline => 7,
        Refusal::InNormal => 8,
        Refusal::NotCreated => 9,
        Refusal::NoSuchPort => 10,
        Refusal::EmptyMessage => 11,
        Refusal::MessageTooLong => 12,
        Refusal::NotSource => 13,
        Refusal::NotDestination => 14,
        Refusal::QueueFull => 15,
        Refusal::QueueEmpty => 16,
        Refusal::NeverWritten => 17,
        Refusal::UnknownMode => 18,
        Refusal::AlreadyNormal => 19,
        Refusal::WarmStartInColdStart => 20,
    }
}
