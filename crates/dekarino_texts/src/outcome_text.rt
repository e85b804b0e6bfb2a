//! The text of the outcomes of scripts.
use crate::counted::Counted;
use crate::counts::Ranges;
use crate::outcomes::{OutcomeSink, ScriptCall};
use crate::table_words::partition_name;
use apex_groups::PartCounts;
use apex_module::Config;
use apex_ports::ReplyRef;
use apex_texts::push_reply;
use apex_types::{Moment, Name, Reply};
use apex_words::push_call;
use std::alloc::{AllocError, Global};
use std::fmt;
use std::fmt::{Display, Formatter};

/// The outcomes of scripts as a text.
#[derive(Debug, Drop)]
pub struct OutcomeText {
    text: String,
    /// The number of calls so far that have several replies.
    depending: usize,
    /// The number of their replies whose order is in a file.
    written: usize,
    /// The number of the others.
    unwritten: usize,
}

impl OutcomeText {
    /// An empty text.
    pub fn new(alloc: Global) -> OutcomeText {
        OutcomeText {
            text: String::new(alloc),
            depending: 0,
            written: 0,
            unwritten: 0,
        }
    }

    /// The text.
    pub fn into_text(self) -> String {
        self.text
    }
}

impl OutcomeSink for OutcomeText {
    /// Writes `NAME:LINE MOMENT CALL ARGUMENTS -> REPLY | REPLY`, after `* ` if there are several replies. If an order for a
    /// reply is in a file, its name follows the reply as ` (FILE)`.
    fn call(&mut self, call: &ScriptCall<'_>, replies: &[&Reply]) -> Result<(), AllocError> {
        let (text, files) = (&mut self.text, call.files);
        if replies.len() > 1 {
            self.depending = self.depending.saturating_add(1);
            self.written = self.written.saturating_add(files.len());
            let unwritten = replies.len().saturating_sub(files.len());
            self.unwritten = self.unwritten.saturating_add(unwritten);
            text.push_str("* ")?;
        }
        let Moment(at) = call.at;
        write!(text, "{}:{} {at} ", call.partition.text(), call.line)?;
        push_call(text, call.call)?;
        let mut separator = " -> ";
        for (index, reply) in replies.iter().enumerate() {
            text.push_str(separator)?;
            push_reply(text, ReplyRef::of(reply))?;
            if let Some(file) = files.get(index) {
                write!(text, " ({file})")?;
            }
            separator = " | ";
        }
        text.push('\n')
    }

    /// Writes `queuing NAME accepted A received B cleared C waiting W`, with a count or a range for each.
    fn channel(&mut self, name: &Name, ranges: &Ranges) -> Result<(), AllocError> {
        let Ranges { lowest, highest } = *ranges;
        let accepted = Range(lowest.accepted, highest.accepted);
        let received = Range(lowest.received, highest.received);
        let waiting = Range(lowest.waiting, highest.waiting);
        let text = &mut self.text;
        write!(
            text,
            "queuing {} accepted {accepted} received {received}",
            name.text()
        )?;
        if highest.cleared != 0 {
            write!(text, " cleared {}", Range(lowest.cleared, highest.cleared))?;
        }
        writeln!(text, " waiting {waiting}")
    }

    /// Writes the counts of the only part, or a line for each of several, how many orders are in no file if others are, and
    /// the number of calls that depend on the order.
    fn parts(&mut self, config: &Config, parts: &[PartCounts]) -> Result<(), AllocError> {
        if let [part] = parts {
            push_counts(&mut self.text, part)?;
        } else {
            push_each_counts(&mut self.text, config, parts)?;
        }
        if self.written > 0 && self.unwritten > 0 {
            let (written, unwritten) = (self.written, self.unwritten);
            writeln!(
                self.text,
                "{written} orders are written, and {unwritten} more are not"
            )?;
        }
        match self.depending {
            0 => self.text.push_str("no call depends on the order\n"),
            1 => self.text.push_str("1 call depends on the order\n"),
            count => writeln!(self.text, "{count} calls depend on the order"),
        }
    }
}

/// Writes a line of counts for each part, after the names of its partitions.
fn push_each_counts(
    text: &mut String,
    config: &Config,
    parts: &[PartCounts],
) -> Result<(), AllocError> {
    for part in parts {
        push_names(text, config, part.partitions.as_slice())?;
        text.push_str(": ")?;
        push_counts(text, part)?;
    }
    Ok(())
}

/// Writes the names of partitions, separated by commas.
fn push_names(text: &mut String, config: &Config, partitions: &[usize]) -> Result<(), AllocError> {
    let mut separator = "";
    for p in partitions {
        text.push_str(separator)?;
        text.push_str(partition_name(config, *p))?;
        separator = ", ";
    }
    Ok(())
}

/// Writes `N states, M ends`.
fn push_counts(text: &mut String, part: &PartCounts) -> Result<(), AllocError> {
    let states = Counted {
        count: part.states,
        noun: "state",
    };
    let ends = Counted {
        count: part.ends,
        noun: "end",
    };
    writeln!(text, "{states}, {ends}")
}

/// From the lowest count to the highest, as one number if they are equal.
#[derive(Clone, Copy)]
struct Range(u64, u64);

impl Display for Range {
    fn fmt<W: fmt::Write>(&self, f: &mut Formatter<W>) -> fmt::Result {
        let Range(low, high) = *self;
        if low == high {
            write!(f, "{low}")
        } else {
            write!(f, "{low}..{high}")
        }
    }
}
