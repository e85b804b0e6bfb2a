//! The rows of the reply table as JSON lines.
use apex_ports::{Refusal, Row};
use apex_texts::Service;
use apex_types::Validity;
use apex_words::{
    accepted_words, push_condition, push_row_pattern, refusals_of, row_name, standard_name,
};
use dekarino_search::push_object;
use serde::Serialize;
use std::alloc::{AllocError, Global};

/// A row of the reply table. Upper-case words replace the values.
#[derive(Drop, Serialize)]
struct RowLine<'a> {
    service: &'static str,
    standard: &'static str,
    row: &'static str,
    condition: &'a str,
    reply: &'static str,
    words: &'a str,
}

/// An object for each row of a service, in the order of the table.
pub(crate) fn push_row_lines(
    alloc: Global,
    text: &mut String,
    service: Service,
) -> Result<(), AllocError> {
    push_idle(alloc, text, service)?;
    for refusal in refusals_of(service) {
        push_refusal(alloc, text, service, *refusal)?;
    }
    let accepted = RowLine {
        service: service.word(),
        standard: standard_name(service),
        row: row_name(accepted_row(service)),
        condition: "otherwise",
        reply: "NO_ERROR",
        words: accepted_words(service),
    };
    push_object(alloc, text, &accepted)
}

fn push_idle(alloc: Global, text: &mut String, service: Service) -> Result<(), AllocError> {
    let mut words = String::new(alloc);
    push_row_pattern(&mut words, service, Row::Idle)?;
    let idle = RowLine {
        service: service.word(),
        standard: standard_name(service),
        row: row_name(Row::Idle),
        condition: "the partition is in IDLE",
        reply: "not made",
        words: words.as_str(),
    };
    push_object(alloc, text, &idle)
}

fn push_refusal(
    alloc: Global,
    text: &mut String,
    service: Service,
    refusal: Refusal,
) -> Result<(), AllocError> {
    let mut condition = String::new(alloc);
    push_condition(&mut condition, service, refusal)?;
    let mut words = String::new(alloc);
    push_row_pattern(&mut words, service, Row::Refused(refusal))?;
    let refused = RowLine {
        service: service.word(),
        standard: standard_name(service),
        row: row_name(Row::Refused(refusal)),
        condition: condition.as_str(),
        reply: refusal.code().word(),
        words: words.as_str(),
    };
    push_object(alloc, text, &refused)
}

/// The row of an accepted call of the service, with any values.
fn accepted_row(service: Service) -> Row {
    match service {
        Service::CreateSampling | Service::CreateQueuing => Row::Created { id: 0 },
        Service::SamplingId | Service::QueuingId => Row::Identified { id: 0 },
        Service::WriteSampling => Row::Written,
        Service::ReadSampling => Row::LastRead {
            id: 0,
            validity: Validity::Valid,
        },
        Service::SamplingStatus => Row::SamplingStatus { id: 0 },
        Service::SendQueuing => Row::Sent,
        Service::ReceiveQueuing => Row::OldestReceived { id: 0 },
        Service::QueuingStatus => Row::QueuingStatus { id: 0 },
        Service::ClearQueuing => Row::Cleared,
        Service::SetMode => Row::ModeSet,
    }
}
