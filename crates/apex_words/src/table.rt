//! The reply table as text: a heading for each service, and below it a line for each of its rows.
use crate::services::{accepted_words, refusals_of, standard_name};
use crate::values::{Values, kind_of};
use crate::words::RowWords;
use apex_ports::{Refusal, Row};
use apex_texts::{SERVICES, Service};
use std::alloc::AllocError;
use std::fmt;

/// Writes the whole reply table: the rows of each service, in the order of `SERVICES`.
pub fn push_rows(text: &mut String) -> Result<(), AllocError> {
    for service in &SERVICES {
        push_service_rows(text, *service)?;
    }
    Ok(())
}

/// Writes the rows of a service: its heading, `NAME (CALLWORD)`, and a line `  CONDITION -> REPLY (WORDS)` for each
/// row, in the order of the table. Upper-case words replace the values.
pub fn push_service_rows(text: &mut String, service: Service) -> Result<(), AllocError> {
    writeln!(text, "{} ({})", standard_name(service), service.word())?;
    write!(text, "  the partition is in IDLE -> not made (")?;
    push_row_pattern(text, service, Row::Idle)?;
    writeln!(text, ")")?;
    for refusal in refusals_of(service) {
        push_refusal(text, service, *refusal)?;
    }
    writeln!(text, "  otherwise -> {}", accepted_words(service))
}

fn push_refusal(text: &mut String, service: Service, refusal: Refusal) -> Result<(), AllocError> {
    write!(text, "  ")?;
    push_condition(text, service, refusal)?;
    write!(text, " -> {} (", refusal.code().word())?;
    push_row_pattern(text, service, Row::Refused(refusal))?;
    writeln!(text, ")")
}

/// Writes the condition of a row of a service.
pub fn push_condition(
    text: &mut String,
    service: Service,
    refusal: Refusal,
) -> Result<(), AllocError> {
    let kind = kind_of(service);
    write!(text, "{}", Condition { refusal, kind })
}

/// Writes the words of a row of a service. An accepted call has none. Upper-case words replace the values.
pub fn push_row_pattern(text: &mut String, service: Service, row: Row) -> Result<(), AllocError> {
    let values = Values::placeholders(service);
    write!(text, "{}", RowWords { row, values })
}

/// The condition under which a call is refused.
#[derive(Clone, Copy)]
struct Condition {
    refusal: Refusal,
    /// The kind of ports that the service is for.
    kind: &'static str,
}

impl fmt::Display for Condition {
    fn fmt<W: fmt::Write>(&self, f: &mut fmt::Formatter<W>) -> fmt::Result {
        let kind = self.kind;
        match self.refusal {
            Refusal::NotConfigured => {
                write!(
                    f,
                    "the partition has no {kind} port of this name configured"
                )
            }
            Refusal::NotCreated => {
                write!(f, "the partition has created no {kind} port of this name")
            }
            Refusal::NoSuchPort => write!(f, "no such {kind} port"),
            refusal => f.write_str(condition_words(refusal)),
        }
    }
}

/// The condition under which a call is refused, if it is the same for both kinds of ports.
fn condition_words(refusal: Refusal) -> &'static str {
    match refusal {
        Refusal::NotConfigured | Refusal::NotCreated | Refusal::NoSuchPort => "",
        Refusal::AlreadyCreated => "the port is created already",
        Refusal::SizeDiffers => "the maximum message size is not the channel's",
        Refusal::DepthDiffers => "the maximum number of messages is not the channel's depth",
        Refusal::DirectionDiffers => "the direction is not the configured one",
        Refusal::RefreshDiffers => "the refresh period is not the configured one",
        Refusal::UnknownDiscipline => "the queuing discipline is neither FIFO nor PRIORITY",
        Refusal::InNormal => "the partition is in NORMAL",
        Refusal::EmptyMessage => "the message has length 0",
        Refusal::MessageTooLong => "the message is longer than the channel's size",
        Refusal::NotSource => "the port is no source",
        Refusal::NotDestination => "the port is no destination",
        Refusal::QueueFull => "as many messages wait as the depth",
        Refusal::QueueEmpty => "no message waits",
        Refusal::NeverWritten => "the channel was never written",
        Refusal::UnknownMode => "the number is no mode's",
        Refusal::AlreadyNormal => "NORMAL, while in NORMAL",
        Refusal::WarmStartInColdStart => "WARM_START, while in COLD_START",
    }
}
