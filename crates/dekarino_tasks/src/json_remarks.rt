//! The end of an explanation as JSON lines.
ghost use Rattle.std.specs.Prelude.{◌<◌, length};

use crate::json_table::port_at;
use apex_ports::Ports;
use apex_types::{Moment, Name};
use dekarino_search::push_object;
use dekarino_texts::{Hex, MESSAGES_SHOWN, Remark, RemarkWords, channel_called, destination_of};
use serde::Serialize;
use std::alloc::{AllocError, Global};

/// A remark on a trace, with its words as the text has them.
#[derive(Drop, Serialize)]
struct RemarkLine<'a> {
    remark: &'static str,
    words: &'a str,
    line: Option<usize>,
    at: Option<u64>,
    last: Option<u64>,
    partition: Option<&'a str>,
    port: Option<&'a str>,
    channel: Option<&'a str>,
    waiting: Option<usize>,
    messages: Option<Vec<String>>,
}

/// How many calls and remarks there were.
#[derive(Drop, Serialize)]
struct CountLine {
    calls: usize,
    remarks: usize,
}

/// An object for each remark, and the last one with the counts.
pub(crate) fn push_ending<'a>(
    text: &mut String,
    calls: usize,
    remarks: &'a [Remark],
    ports: &'a Ports,
) -> Result<(), AllocError> {
    let alloc = *text.allocator();
    for remark in remarks {
        let words = RemarkWords { remark, ports }.to_string(alloc)?;
        let mut line = remark_line(remark, words.as_str());
        if let Remark::MessagesWaiting { channel, .. } = remark {
            add_channel(alloc, &mut line, ports, channel)?;
        }
        push_object(alloc, text, &line)?;
    }
    let counts = CountLine {
        calls,
        remarks: remarks.len(),
    };
    push_object(alloc, text, &counts)
}

/// Adds the oldest messages that wait on a channel, the same number as in the words, and its destination port.
fn add_channel<'a>(
    alloc: Global,
    line: &mut RemarkLine<'a>,
    ports: &'a Ports,
    channel: &Name,
) -> Result<(), AllocError> {
    let config = ports.config();
    let Some(c) = channel_called(config, channel) else {
        return Ok(());
    };
    line.messages = Some(oldest_messages(alloc, ports, c)?);
    let Some(place) = destination_of(config, c) else {
        return Ok(());
    };
    if let Some((partition, port)) = port_at(config, place) {
        line.partition = Some(partition);
        line.port = Some(port.name.text());
    }
    Ok(())
}

fn oldest_messages(alloc: Global, ports: &Ports, c: usize) -> Result<Vec<String>, AllocError>
    requires { c < length ports.now.config.channels }
{
    let mut messages = Vec::new(alloc);
    for i in 0..MESSAGES_SHOWN {
        let Some(message) = ports.waiting(c, i) else {
            break;
        };
        messages.push(Hex(message).to_string(alloc)?)?;
    }
    Ok(messages)
}

fn remark_line<'a>(remark: &'a Remark, words: &'a str) -> RemarkLine<'a> {
    match remark {
        Remark::MomentBefore {
            line,
            at: Moment(at),
            last: Moment(last),
        } => RemarkLine {
            line: Some(*line),
            at: Some(*at),
            last: Some(*last),
            ..line_of("moment before", words)
        },
        Remark::CallNotMade { line, partition } => RemarkLine {
            line: Some(*line),
            partition: Some(partition.text()),
            ..line_of("not made", words)
        },
        Remark::PortNotCreated { partition, port } => RemarkLine {
            partition: Some(partition.text()),
            port: Some(port.text()),
            ..line_of("never created", words)
        },
        Remark::PortLost { partition, port } => RemarkLine {
            partition: Some(partition.text()),
            port: Some(port.text()),
            ..line_of("lost by a restart", words)
        },
        Remark::NoSampleRead { partition, port } => RemarkLine {
            partition: Some(partition.text()),
            port: Some(port.text()),
            ..line_of("no sample read", words)
        },
        Remark::MessagesWaiting { channel, count } => RemarkLine {
            channel: Some(channel.text()),
            waiting: Some(*count),
            ..line_of("messages waiting", words)
        },
    }
}

/// The line of a remark with nothing but its words.
fn line_of<'a>(remark: &'static str, words: &'a str) -> RemarkLine<'a> {
    RemarkLine {
        remark,
        words,
        line: None,
        at: None,
        last: None,
        partition: None,
        port: None,
        channel: None,
        waiting: None,
        messages: None,
    }
}
