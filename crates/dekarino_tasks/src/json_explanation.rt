//! The explanation of a trace as JSON lines.
ghost use Rattle.std.specs.Prelude.{◌<◌, length};

use crate::json_remarks::push_ending;
use apex_module::Config;
use apex_ports::{CallRef, Ports};
use apex_texts::{LineFault, Service};
use apex_types::{HEX_LIMIT, Message, Moment, Reply};
use apex_words::{push_words, row_name};
use dekarino_search::push_object;
use dekarino_texts::{AnsweredCall, ExplanationSink, Remark};
use serde::Serialize;
use std::alloc::{AllocError, Global};
use std::str;

/// A call: the number of its line in the trace, from 1, its text there, and its reply with the row that gave it.
#[derive(Drop, Serialize)]
struct CallLine<'a> {
    line: usize,
    at: u64,
    partition: &'a str,
    service: &'static str,
    text: Option<&'a str>,
    reply: &'static str,
    row: &'static str,
    words: Option<String>,
    id: Option<u32>,
    message: Option<String>,
    validity: Option<&'static str>,
    waiting: Option<u32>,
    depth: Option<u32>,
    size: Option<u32>,
    direction: Option<&'static str>,
    refresh: Option<u64>,
    last: Option<&'static str>,
}

/// The first faulty line, and its fault.
#[derive(Drop, Serialize)]
struct FaultLine {
    line: usize,
    fault: u32,
    words: &'static str,
}

/// An explanation as JSON lines: one for each call, and then the remarks and how many calls there were; or up to the first
/// faulty line, with its fault.
#[derive(Debug, Drop)]
pub(crate) struct ExplanationObjects {
    text: String,
}

impl ExplanationObjects {
    /// No lines.
    pub(crate) fn new(alloc: Global) -> ExplanationObjects {
        ExplanationObjects {
            text: String::new(alloc),
        }
    }

    /// The lines.
    pub(crate) fn into_bytes(self) -> Vec<u8> {
        self.text.into_bytes()
    }
}

impl ExplanationSink for ExplanationObjects {
    ghost takes = { λ _ _ _. Unit {0} };

    /// Writes the object of a call.
    fn call(&mut self, config: &Config, call: &AnsweredCall<'_>) -> Result<(), AllocError> {
        push_call(&mut self.text, config, call)
    }

    /// Writes nothing.
    fn line_without_call(&mut self, _number: usize, _line: &[u8]) -> Result<(), AllocError> {
        Ok(())
    }

    /// Writes the object of the fault.
    fn faulty_line(
        &mut self,
        number: usize,
        _line: &[u8],
        fault: LineFault,
    ) -> Result<(), AllocError> {
        let object = FaultLine {
            line: number,
            fault: fault.number(),
            words: fault.words(),
        };
        push_object(*self.text.allocator(), &mut self.text, &object)
    }

    /// Writes the objects of the remarks and of the counts.
    fn end(&mut self, calls: usize, remarks: &[Remark], ports: &Ports) -> Result<(), AllocError> {
        push_ending(&mut self.text, calls, remarks, ports)
    }
}

/// Writes the object of a call.
fn push_call(text: &mut String, config: &Config, call: &AnsweredCall<'_>) -> Result<(), AllocError>
    requires { call.now.request.now.partition < length config.now.partitions }
{
    let alloc = *text.allocator();
    let (request, reply) = (call.request, call.reply);
    let Moment(at) = request.at;
    let values = values_of(reply);
    let object = CallLine {
        line: call.number,
        at,
        partition: config.partition_name(request.partition).text(),
        service: Service::of(CallRef::of(&request.call)).word(),
        text: str::from_utf8(call.line).ok(),
        reply: reply_word(reply),
        row: row_name(call.row),
        words: row_words(alloc, config, call)?,
        id: values.id,
        message: message_in(alloc, reply)?,
        validity: values.validity,
        waiting: values.waiting,
        depth: values.depth,
        size: values.size,
        direction: values.direction,
        refresh: values.refresh,
        last: values.last,
    };
    push_object(alloc, text, &object)
}

/// The word of the return code, or that the call was not made.
fn reply_word(reply: &Reply) -> &'static str {
    match reply.code() {
        Some(code) => code.word(),
        None => "not made",
    }
}

/// The words of a call's row, if it has some.
fn row_words(
    alloc: Global,
    config: &Config,
    call: &AnsweredCall<'_>,
) -> Result<Option<String>, AllocError>
    requires { call.now.request.now.partition < length config.now.partitions }
{
    let mut words = String::new(alloc);
    let AnsweredCall { request, row, .. } = *call;
    let asked = CallRef::of(&request.call);
    push_words(&mut words, config, request.partition, asked, row)?;
    Ok(if words.is_empty() { None } else { Some(words) })
}

/// The message of a reply, in hexadecimal digits.
fn message_in(alloc: Global, reply: &Reply) -> Result<Option<String>, AllocError> {
    match reply {
        Reply::Received(message) => Ok(Some(hex_text(alloc, message)?)),
        Reply::Read { message, .. } => Ok(Some(hex_text(alloc, message)?)),
        _ => Ok(None),
    }
}

fn hex_text(alloc: Global, message: &Message) -> Result<String, AllocError> {
    let mut digits = [0; HEX_LIMIT];
    String::from_str(alloc, message.hex_in(&mut digits))
}

/// What a reply has beside its return code and a message.
#[derive(Clone, Copy)]
struct Values {
    id: Option<u32>,
    validity: Option<&'static str>,
    waiting: Option<u32>,
    depth: Option<u32>,
    size: Option<u32>,
    direction: Option<&'static str>,
    refresh: Option<u64>,
    last: Option<&'static str>,
}

const NO_VALUES: Values = Values {
    id: None,
    validity: None,
    waiting: None,
    depth: None,
    size: None,
    direction: None,
    refresh: None,
    last: None,
};

fn values_of(reply: &Reply) -> Values {
    match reply {
        Reply::NotMade | Reply::Code(_) | Reply::Received(_) => NO_VALUES,
        Reply::Id(id) => Values {
            id: Some(*id),
            ..NO_VALUES
        },
        Reply::Read { validity, .. } => Values {
            validity: Some(validity.word()),
            ..NO_VALUES
        },
        Reply::QueuingStatus {
            waiting,
            depth,
            size,
            direction,
        } => Values {
            waiting: Some(*waiting),
            depth: Some(*depth),
            size: Some(*size),
            direction: Some(direction.word()),
            ..NO_VALUES
        },
        Reply::SamplingStatus {
            refresh,
            size,
            direction,
            last,
        } => Values {
            refresh: Some(*refresh),
            size: Some(*size),
            direction: Some(direction.word()),
            last: Some(last.word()),
            ..NO_VALUES
        },
    }
}
