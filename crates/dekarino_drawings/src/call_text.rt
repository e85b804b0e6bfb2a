//! The text beside a call in a chart.
use apex_module::Config;
use apex_ports::{CallRef, Entry};
use apex_texts::Service;
use apex_types::{Call, Message, Reply};
use std::alloc::{AllocError, Global};

/// The maximum length of a message that is shown by its bytes.
const SHOWN_BYTES: usize = 8;

/// The text beside a call: its partition, its service with the port or the message, its reply, and the words of its
/// row.
pub(crate) fn call_text(
    alloc: Global,
    config: &Config,
    entry: &Entry,
    words: &str,
    waits: bool,
) -> Result<String, AllocError> {
    let word = Service::of(CallRef::of(&entry.call)).word();
    let mut text = format!(in alloc; "{} {word}", partition_name(config, entry.partition))?;
    push_argument(&mut text, &entry.call)?;
    text.push_str(" -> ")?;
    push_reply(&mut text, &entry.reply)?;
    if !words.is_empty() {
        write!(text, " ({words})")?;
    }
    if waits {
        text.push_str(", waits")?;
    }
    Ok(text)
}

/// The name of partition `p`; empty if there is none.
fn partition_name(config: &Config, p: usize) -> &str {
    if p < config.partitions() {
        config.partition_name(p).text()
    } else {
        ""
    }
}

/// The port that a call names, by its identifier or its name, and the message; or the mode.
fn push_argument(text: &mut String, call: &Call) -> Result<(), AllocError> {
    match call {
        Call::SendQueuing { id, message } | Call::WriteSampling { id, message } => {
            write!(text, " {id}")?;
            push_message(text, message)
        }
        Call::ReadSampling { id }
        | Call::SamplingStatus { id }
        | Call::ReceiveQueuing { id }
        | Call::QueuingStatus { id }
        | Call::ClearQueuing { id } => write!(text, " {id}"),
        Call::CreateSampling { name, .. }
        | Call::CreateQueuing { name, .. }
        | Call::SamplingId { name }
        | Call::QueuingId { name } => write!(text, " {}", name.text()),
        Call::SetMode { mode } => write!(text, " {mode}"),
    }
}

fn push_reply(text: &mut String, reply: &Reply) -> Result<(), AllocError> {
    match reply {
        Reply::NotMade => text.push_str("not made"),
        Reply::Code(code) => text.push_str(code.word()),
        Reply::Id(id) => write!(text, "id {id}"),
        Reply::Received(message) => {
            text.push_str("message")?;
            push_message(text, message)
        }
        Reply::Read { message, validity } => {
            text.push_str("message")?;
            push_message(text, message)?;
            write!(text, " {}", validity.word())
        }
        Reply::QueuingStatus { waiting, .. } => write!(text, "waiting {waiting}"),
        Reply::SamplingStatus { last, .. } => write!(text, "last {}", last.word()),
    }
}

/// A message by its bytes, or by their number if there are many.
fn push_message(text: &mut String, message: &Message) -> Result<(), AllocError> {
    let length = message.bytes().len();
    if length <= SHOWN_BYTES {
        write!(text, " {}", message.to_hex().as_str())
    } else {
        write!(text, " of {length} bytes")
    }
}
