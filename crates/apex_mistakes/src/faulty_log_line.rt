//! What is known about a faulty line of a log.
ghost use Rattle.std.specs.Prelude.{◌≤◌, length};

use crate::faulty_lines::{SCRIPT_FRONT, TRACE_FRONT};
use crate::known::{Caller, FaultyLine, word_at};
use crate::line_place::{LinePlace, place_in};
use crate::log_place::{LogPart, LogPlace, call_side, reply_text};
use crate::reply_word::{ReplyWord, reply_word_at};
use apex_logs::LogFault;
use apex_module::Config;
use apex_texts::text::next_word;
use apex_texts::{Expected, LineFault, Service};

/// A faulty line of a log and the place of its fault.
#[derive(Clone, Copy)]
pub(crate) struct FaultyLogLine<'a> {
    /// The file of the log.
    pub(crate) file: &'a str,
    pub(crate) config: &'a Config,
    pub(crate) caller: Caller,
    /// Whether a line of the log has an arrow.
    pub(crate) log_has_arrow: bool,
    pub(crate) line: &'a [u8],
    pub(crate) place: LogPlace,
}

impl<'a> FaultyLogLine<'a> {
    /// The faulty word; none if it is missing.
    pub(crate) fn faulty_word(&self) -> Option<&'a [u8]> {
        match self.place.part {
            LogPart::Line => word_at(self.line, self.place.word),
            LogPart::Call => word_at(call_side(self.line), self.place.word),
            LogPart::Reply => word_at(reply_text(self.line), self.place.word),
            LogPart::Note => {
                let note = self.line.get(self.place.column.saturating_sub(1)..)?;
                let (word, _) = next_word(note)?;
                Some(word)
            }
        }
    }

    /// Whether the line has no arrow.
    pub(crate) fn lacks_arrow(&self) -> bool {
        matches!(self.place.fault, LogFault::NoReply)
    }

    /// What the faulty word of a reply should be, by the service of the call.
    pub(crate) fn reply_word(&self) -> ReplyWord {
        let word = reply_word_at(reply_text(self.line), self.place.word);
        word.of_service(self.service())
    }

    /// The service that the line calls.
    pub(crate) fn service(&self) -> Option<Service> {
        self.as_line().service()
    }

    /// Whether the fault is after the arguments of a call that may have a time-out there.
    pub(crate) fn is_behind_arguments(&self) -> bool {
        matches!(self.place.part, LogPart::Call)
            && matches!(
                self.service(),
                Some(Service::SendQueuing | Service::ReceiveQueuing)
            )
            && matches!(self.as_line().place.expected, Expected::EndOfLine)
    }

    /// The call of the line, as a faulty line of a trace or a script; the whole line if no part of it is faulty.
    pub(crate) fn as_line(&self) -> FaultyLine<'a> {
        let line = match self.place.part {
            LogPart::Line => self.line,
            _ => call_side(self.line),
        };
        FaultyLine {
            config: self.config,
            caller: self.caller,
            line,
            place: self.line_place(line),
        }
    }

    fn line_place(&self, line: &[u8]) -> LinePlace {
        let place = self.place;
        match place.fault {
            LogFault::Line(fault) => place_in(front_of(self.caller), place.line, fault, line),
            _ => LinePlace {
                line: place.line,
                fault: LineFault::TooManyWords,
                word: place.word,
                column: place.column,
                expected: Expected::EndOfLine,
            },
        }
    }
}

/// What the words before the call word must be.
fn front_of(caller: Caller) -> &'static [Expected]
    ensures { length result.now ≤ 2 }
{
    match caller {
        Caller::Script(_) => &SCRIPT_FRONT,
        Caller::Trace => &TRACE_FRONT,
    }
}
