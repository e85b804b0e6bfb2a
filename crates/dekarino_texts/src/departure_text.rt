//! The lines of a judged log.
ghost use Rattle.std.specs.Prelude.{◌<◌, length};

use crate::counted::Counted;
use crate::departures::{DepartureCounts, LogPlace};
use crate::standard_reply::{Conflict, StandardReply, conflict_of};
use crate::written_departures::DepartureWords;
use apex_judge::Expected;
use apex_logs::{MaxWait, TimeOut};
use apex_module::Config;
use apex_ports::{CallRef, Entry, Refusal, ReplyRef, Row};
use apex_texts::push_reply;
use apex_types::Call;
use apex_words::{push_note, push_request};
use std::alloc::{AllocError, Global};

/// The departures of logs as a text, a line each.
#[derive(Debug, Drop)]
pub struct DepartureText {
    text: String,
}

impl DepartureText {
    /// An empty text.
    pub fn new(alloc: Global) -> DepartureText {
        DepartureText {
            text: String::new(alloc),
        }
    }
}

impl DepartureWords for DepartureText {
    /// Writes `FILE:LINE: CALL: logged REPLY, the standard has REPLY (WORDS)`.
    fn push_departure(
        &mut self,
        config: &Config,
        file: &str,
        place: LogPlace,
        entry: &Entry,
        asked: &Call,
        expected: &Expected,
    ) -> Result<(), AllocError> {
        let (text, p) = (&mut self.text, entry.partition);
        write!(text, "{file}:{}: ", place.line)?;
        push_request(text, config, p, entry.at, &entry.call)?;
        push_time_out(text, place.time_out)?;
        text.push_str(": logged ")?;
        push_reply(text, ReplyRef::of(&entry.reply))?;
        push_introduction(text, place, expected.row)?;
        match StandardReply::of(place, expected) {
            StandardReply::Waits => {}
            StandardReply::AnyId => text.push_str("NO_ERROR and an identifier")?,
            StandardReply::Id(id) => write!(text, "NO_ERROR id {id}")?,
            StandardReply::Reply => push_reply(text, ReplyRef::of(&expected.reply))?,
        }
        match conflict_of(place, &entry.reply, expected.row) {
            Some(conflict) => {
                text.push_str(" (")?;
                push_conflict(text, config, p, conflict)?;
                text.push_str(")")?;
            }
            None => push_note(
                text,
                config,
                p,
                CallRef::of(named_by(place, entry, asked, expected)),
                expected.row,
            )?,
        }
        text.push('\n')
    }

    /// Writes `N calls, M departures`.
    fn push_counts(&mut self, counts: DepartureCounts) -> Result<(), AllocError> {
        let calls = Counted {
            count: counts.calls,
            noun: "call",
        };
        if counts.departures == 0 {
            return writeln!(self.text, "{calls}, as the standard says");
        }
        let departures = Counted {
            count: counts.departures,
            noun: "departure",
        };
        writeln!(self.text, "{calls}, {departures}")
    }

    fn text(&mut self) -> &mut String {
        &mut self.text
    }

    fn into_text(self) -> String {
        self.text
    }
}

/// Writes ` timeout NANOSECONDS` or ` timeout infinite`, if a line says it.
pub fn push_time_out(text: &mut String, time_out: TimeOut) -> Result<(), AllocError> {
    match time_out {
        TimeOut::Unsaid => Ok(()),
        TimeOut::Nanoseconds(time) => write!(text, " timeout {time}"),
        TimeOut::Infinite => text.push_str(" timeout infinite"),
    }
}

/// Writes the words before the standard's reply. Two choices of this project decide replies that the standard leaves open:
/// how ports are numbered, and that a call whose line says no time-out has time-out zero.
fn push_introduction(text: &mut String, place: LogPlace, row: Row) -> Result<(), AllocError> {
    text.push_str(match (row, place.wait) {
        (Row::Refused(Refusal::QueueFull | Refusal::QueueEmpty), MaxWait::Zero) => {
            ", with time-out zero it is "
        }
        (Row::Refused(Refusal::QueueFull | Refusal::QueueEmpty), MaxWait::Finite) => {
            ", with a time-out the standard has "
        }
        (Row::Refused(Refusal::QueueFull | Refusal::QueueEmpty), MaxWait::Infinite) => {
            ", with an infinite time-out the call would still wait"
        }
        _ if is_of_identifiers(row) && place.known.is_none() => {
            ", with the identifiers of this project the standard has "
        }
        _ => ", the standard has ",
    })
}

/// Whether the reply of a row rests on how ports are numbered.
fn is_of_identifiers(row: Row) -> bool {
    matches!(
        row,
        Row::Created { .. }
            | Row::Identified { .. }
            | Row::Refused(Refusal::NotCreated | Refusal::NoSuchPort)
    )
}

/// The call whose identifier the words of a row say: the logged one if no port has it.
pub fn named_by<'a>(
    place: LogPlace,
    entry: &'a Entry,
    asked: &'a Call,
    expected: &Expected,
) -> &'a Call {
    match expected.row {
        Row::Refused(Refusal::NoSuchPort) if place.known.is_some() => &entry.call,
        _ => asked,
    }
}

/// Writes which port has the identifier that a reply gives to another one, or which identifier the port has.
pub fn push_conflict(
    text: &mut String,
    config: &Config,
    partition: usize,
    conflict: Conflict,
) -> Result<(), AllocError>
    requires { partition < length config.now.partitions }
{
    match conflict {
        Conflict::HasAnother { id } => write!(text, "the port has identifier {id}"),
        Conflict::IsOf { id, port } => match config.port(partition, port) {
            Some(port) => write!(text, "identifier {id} is that of {}", port.name.text()),
            None => Ok(()),
        },
    }
}
