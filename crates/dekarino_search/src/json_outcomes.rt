//! The outcomes of scripts, as JSON lines.
use crate::json::push_object;
use crate::json_departures::reply_text;
use apex_groups::PartCounts;
use apex_module::Config;
use apex_ports::CallRef;
use apex_texts::Service;
use apex_types::{Moment, Name, Reply};
use dekarino_texts::outcomes::ScriptCall;
use dekarino_texts::{OutcomeSink, Ranges};
use serde::Serialize;
use std::alloc::{AllocError, Global};

/// A call: the line of its script, from 1, the replies that it can get, and the files with orders for them, if any are
/// written.
#[derive(Drop, Serialize)]
struct CallLine<'a> {
    partition: &'a str,
    line: usize,
    at: u64,
    service: &'static str,
    replies: Vec<String>,
    #[serde(skip_serializing_if = "Option::is_none")]
    witnesses: Option<Vec<&'a str>>,
}

/// A queuing channel: the lowest and the highest of each count in the end.
#[derive(Drop, Serialize)]
struct ChannelLine<'a> {
    channel: &'a str,
    accepted: (u64, u64),
    received: (u64, u64),
    cleared: (u64, u64),
    waiting: (u64, u64),
}

/// How many states and ends a part of the scripts has.
#[derive(Drop, Serialize)]
struct CountLine<'a> {
    states: usize,
    ends: usize,
    partitions: Vec<&'a str>,
}

/// The outcomes of scripts, as JSON lines.
#[derive(Debug, Drop)]
pub(crate) struct OutcomeObjects {
    text: String,
}

impl OutcomeObjects {
    /// No lines.
    pub(crate) fn new(alloc: Global) -> OutcomeObjects {
        OutcomeObjects {
            text: String::new(alloc),
        }
    }

    /// The lines.
    pub(crate) fn into_text(self) -> String {
        self.text
    }
}

impl OutcomeSink for OutcomeObjects {
    /// Writes the object of a call.
    fn call(&mut self, call: &ScriptCall<'_>, replies: &[&Reply]) -> Result<(), AllocError> {
        let alloc = *self.text.allocator();
        let Moment(at) = call.at;
        let mut texts = Vec::with_capacity(alloc, replies.len())?;
        for reply in replies {
            texts.push(reply_text(alloc, reply)?)?;
        }
        let object = CallLine {
            partition: call.partition.text(),
            line: call.line,
            at,
            service: Service::of(CallRef::of(call.call)).word(),
            replies: texts,
            witnesses: names_of(alloc, call.files)?,
        };
        push_object(alloc, &mut self.text, &object)
    }

    /// Writes the object of a queuing channel.
    fn channel(&mut self, name: &Name, ranges: &Ranges) -> Result<(), AllocError> {
        let (low, high) = (ranges.lowest, ranges.highest);
        let object = ChannelLine {
            channel: name.text(),
            accepted: (low.accepted, high.accepted),
            received: (low.received, high.received),
            cleared: (low.cleared, high.cleared),
            waiting: (low.waiting, high.waiting),
        };
        push_object(*self.text.allocator(), &mut self.text, &object)
    }

    /// Writes an object for each part.
    fn parts(&mut self, config: &Config, parts: &[PartCounts]) -> Result<(), AllocError> {
        for part in parts {
            push_part(&mut self.text, config, part)?;
        }
        Ok(())
    }
}

/// The names of files; `None` if there are none.
fn names_of<'a>(alloc: Global, files: &'a [String]) -> Result<Option<Vec<&'a str>>, AllocError> {
    if files.is_empty() {
        return Ok(None);
    }
    let mut names = Vec::with_capacity(alloc, files.len())?;
    for file in files {
        names.push(file.as_str())?;
    }
    Ok(Some(names))
}

fn push_part(text: &mut String, config: &Config, part: &PartCounts) -> Result<(), AllocError> {
    let alloc = *text.allocator();
    let mut partitions = Vec::new(alloc);
    for p in part.partitions.iter() {
        if *p < config.partitions() {
            partitions.push(config.partition_name(*p).text())?;
        }
    }
    let object = CountLine {
        states: part.states,
        ends: part.ends,
        partitions,
    };
    push_object(alloc, text, &object)
}
