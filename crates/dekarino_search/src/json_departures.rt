//! The departures of a log as JSON lines.
use crate::json::push_object;
use apex_judge::Expected;
use apex_module::Config;
use apex_ports::{CallRef, Entry, ReplyRef};
use apex_texts::{Service, push_reply};
use apex_types::{Call, Moment, Reply};
use apex_words::{push_words, row_name};
use dekarino_texts::{
    DepartureCounts, DepartureWords, LogPlace, StandardReply, conflict_of, named_by, push_conflict,
};
use serde::Serialize;
use std::alloc::{AllocError, Global};

/// A departure: its line in the log, from 1, the call, the two replies, and the row that gives the standard's.
#[derive(Drop, Serialize)]
struct DepartureLine<'a> {
    line: usize,
    at: u64,
    partition: &'a str,
    service: &'static str,
    logged: String,
    standard: String,
    row: &'static str,
    words: String,
}

/// How many calls and departures there are.
#[derive(Drop, Serialize)]
struct CountLine {
    calls: usize,
    departures: usize,
}

/// The departures of logs as JSON lines.
#[derive(Debug, Drop)]
pub(crate) struct DepartureObjects {
    text: String,
}

impl DepartureObjects {
    /// No lines.
    pub(crate) fn new(alloc: Global) -> DepartureObjects {
        DepartureObjects {
            text: String::new(alloc),
        }
    }
}

impl DepartureWords for DepartureObjects {
    /// Writes the object of a departure.
    fn push_departure(
        &mut self,
        config: &Config,
        _file: &str,
        place: LogPlace,
        entry: &Entry,
        asked: &Call,
        expected: &Expected,
    ) -> Result<(), AllocError> {
        let alloc = *self.text.allocator();
        let (p, Moment(at)) = (entry.partition, entry.at);
        let mut words = String::new(alloc);
        match conflict_of(place, &entry.reply, expected.row) {
            Some(conflict) => push_conflict(&mut words, config, p, conflict)?,
            None => push_words(
                &mut words,
                config,
                p,
                CallRef::of(named_by(place, entry, asked, expected)),
                expected.row,
            )?,
        }
        let object = DepartureLine {
            line: place.line,
            at,
            partition: config.partition_name(p).text(),
            service: Service::of(CallRef::of(&entry.call)).word(),
            logged: reply_text(alloc, &entry.reply)?,
            standard: standard_text(alloc, place, expected)?,
            row: row_name(expected.row),
            words,
        };
        push_object(alloc, &mut self.text, &object)
    }

    /// Writes the object with the counts.
    fn push_counts(&mut self, counts: DepartureCounts) -> Result<(), AllocError> {
        let object = CountLine {
            calls: counts.calls,
            departures: counts.departures,
        };
        push_object(*self.text.allocator(), &mut self.text, &object)
    }

    fn text(&mut self) -> &mut String {
        &mut self.text
    }

    fn into_text(self) -> String {
        self.text
    }
}

/// What the standard has, in the words of a report.
fn standard_text(
    alloc: Global,
    place: LogPlace,
    expected: &Expected,
) -> Result<String, AllocError> {
    let mut text = String::new(alloc);
    match StandardReply::of(place, expected) {
        StandardReply::Waits => text.push_str("the call would still wait")?,
        StandardReply::AnyId => text.push_str("NO_ERROR and an identifier")?,
        StandardReply::Id(id) => push_reply(&mut text, ReplyRef::Id(id))?,
        StandardReply::Reply => push_reply(&mut text, ReplyRef::of(&expected.reply))?,
    }
    Ok(text)
}

/// A reply in the words of a report.
pub(crate) fn reply_text(alloc: Global, reply: &Reply) -> Result<String, AllocError> {
    let mut text = String::new(alloc);
    push_reply(&mut text, ReplyRef::of(reply))?;
    Ok(text)
}
