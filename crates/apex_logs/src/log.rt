//! Reading a log line by line: the entries of its lines, each with the number of its line, or its first faulty line.
ghost use Rattle.std.specs.Prelude.{◌≡◌, ◌+◌, ◌<◌, ◌≤◌, ◌^◌, length, option_map, Some, Ok, Err, IfOk, IfErr, IfSome};
ghost use Rattle.apex_logs.specs.Prelude.{lines};
ghost use Rattle.apex_logs.specs.ReplyWords.{Gives};
ghost use Rattle.apex_logs.specs.LogLine.{entry_of_line};
ghost use Rattle.apex_logs.specs.TimedCall.{logged_request_at, own_request_at};
ghost use Rattle.apex_logs.specs.Log.{faulty_line_words, error_words, entries_from, IsNext, IsLogRead};
ghost use Rattle.apex_logs.specs.declared.log.LogError.TheVariants as errors;

use crate::log_fault::LogFault;
use crate::log_line::{ANY_ENTRY, ends_calls, read_log_line, read_partition_log_line};
use crate::time_out::TimeOut;
use apex_module::Config;
use apex_ports::Entry;
use apex_texts::text::next_line;
use std::alloc::{AllocFailed, Global};
use std::error::Error;
use std::fmt;

/// An entry with the number of its line, from 1, and the time-out that the line says.
#[derive(Debug, Drop, PartialEq, Eq)]
pub struct LoggedEntry {
    pub line: usize,
    pub entry: Entry,
    pub time_out: TimeOut,
}

/// A faulty line, from 1, and its first fault.
#[derive(Clone, Copy, Debug, PartialEq, Eq)]
pub struct FaultyLine {
    pub line: usize,
    pub fault: LogFault,
}

impl fmt::Display for FaultyLine {
    ghost output = { λ faulty. Some (faulty_line_words faulty) };

    fn fmt<W: fmt::Write>(&self, f: &mut fmt::Formatter<W>) -> fmt::Result {
        let number = self.fault.number();
        write!(f, "line {} fault {number}: {}", self.line, self.fault)
    }
}

impl Error for FaultyLine {}

/// Why a log was not read.
#[derive(Clone, Copy, Debug, PartialEq, Eq)]
pub enum LogError {
    /// The first faulty line.
    Line(FaultyLine),
    /// A growth of memory was refused.
    OutOfMemory,
}

impl fmt::Display for LogError {
    ghost output = { λ error. Some (error_words error) };

    fn fmt<W: fmt::Write>(&self, f: &mut fmt::Formatter<W>) -> fmt::Result {
        match self {
            LogError::Line(faulty) => write!(f, "{faulty}"),
            LogError::OutOfMemory => write!(f, "out of memory"),
        }
    }
}

impl Error for LogError {}

impl From<FaultyLine> for LogError {
    ghost from_gives = { λ faulty given. given ≡ errors.Line faulty };

    fn from(faulty: FaultyLine) -> LogError {
        LogError::Line(faulty)
    }
}

impl<T: Drop> From<AllocFailed<T>> for LogError {
    ghost from_gives = { λ _ given. given ≡ errors.OutOfMemory };

    fn from(_refused: AllocFailed<T>) -> LogError {
        LogError::OutOfMemory
    }
}

/// Whose log it is, which says how what its lines ask is read.
pub trait LogForm {
    ghost use Rattle.apex_logs.specs.Prelude.{ℕ, List, Result, Request, LineFault};
    ghost use Rattle.apex_logs.specs.declared.time_out.TimeOut.{TimeOut};

    // What a first word and the words after it ask, and the time-out that they say.
    ghost asked_by: { Self → List ℕ → List (List ℕ) → Result (Request × TimeOut) LineFault };

    // That a partition can make calls in the log.
    ghost Knows: { Self → ℕ → Type 0 };

    /// Reads the entry of a line into `entry`, as `read_log_line` does.
    fn read_line(&self, line: &[u8], entry: &mut Entry) -> Result<Option<TimeOut>, LogFault>
        ensures exact { Gives (option_map (λ time_out. (entry.new, time_out))) result
            (entry_of_line (asked_by self.now) line.now) }
        ensures known { IfOk result
            (λ found. IfSome found (λ _. Knows self.now entry.new.partition)) };
}

/// The log of a module, whose lines name their partitions.
#[derive(Drop)]
pub struct ModuleLog<'a> {
    pub config: &'a Config,
}

impl LogForm for ModuleLog<'_> {
    ghost asked_by = { λ log. logged_request_at log.config.now };

    ghost Knows = { λ log partition. partition < length log.config.now.partitions };

    fn read_line(&self, line: &[u8], entry: &mut Entry) -> Result<Option<TimeOut>, LogFault> {
        read_log_line(self.config, line, entry)
    }
}

/// The log of one partition, whose lines don't name it.
#[derive(Drop)]
pub struct PartitionLog {
    pub partition: usize,
}

impl LogForm for PartitionLog {
    ghost asked_by = { λ log. own_request_at log.partition };

    ghost Knows = { λ log partition. partition ≡ log.partition };

    fn read_line(&self, line: &[u8], entry: &mut Entry) -> Result<Option<TimeOut>, LogFault> {
        read_partition_log_line(self.partition, line, entry)
    }
}

/// Reads the first entry of a text into `entry`; the text follows this number of lines. Returns the number of the entry's
/// line, its time-out and the text after that line; none if the calls have ended. Lines without a call are skipped. After
/// a fault, and if there is no entry, `entry` is unspecified.
pub fn next_entry<'a, F: LogForm>(
    form: &F,
    before: usize,
    text: &'a [u8],
    entry: &mut Entry,
) -> Result<Option<(usize, TimeOut, &'a [u8])>, FaultyLine>
    requires { before + length text.now < 2 ^ 64 }
    ensures next { IfOk result (λ found.
        IsNext (F.asked_by form.now) (before + 1) (lines text.now) entry.new
        (option_map (λ x. (x.0, x.1, lines x.2.now)) found)) }
    ensures faulty { IfErr result (λ faulty.
        entries_from (F.asked_by form.now) (before + 1) (lines text.now) ≡ Err faulty) }

    // For a loop over a text.
    ensures known { IfOk result (λ found. IfSome found
        (λ _. F.Knows form.now entry.new.partition)) }
    ensures later { IfOk result (λ found. IfSome found (λ x. before < x.0)) }
    ensures room { IfOk result (λ found. IfSome found
        (λ x. x.0 + length x.2.now ≤ before + length text.now)) }
{
    let mut rest = text;
    let mut number = before;
    while let Some((line, after)) = next_line(rest) {
        number += 1;
        if ends_calls(line) {
            return Ok(None);
        }
        match form.read_line(line, entry) {
            Ok(Some(time_out)) => return Ok(Some((number, time_out, after))),
            Ok(None) => rest = after,
            Err(fault) => {
                return Err(FaultyLine {
                    line: number,
                    fault,
                });
            }
        }
    }
    Ok(None)
}

/// The entries of a log's lines, in order, or its first faulty line.
pub fn read_log<F: LogForm>(
    alloc: Global,
    form: &F,
    text: &[u8],
) -> Result<Vec<LoggedEntry>, LogError>
    ensures { IsLogRead result (entries_from (F.asked_by form.now) 1 (lines text.now)) }
{
    let mut entries = Vec::new(alloc);
    let mut rest = text;
    let mut number = 0;
    loop {
        let mut entry = ANY_ENTRY;
        match next_entry(form, number, rest, &mut entry)? {
            None => return Ok(entries),
            Some((line, time_out, after)) => {
                entries.push(LoggedEntry {
                    line,
                    entry,
                    time_out,
                })?;
                number = line;
                rest = after;
            }
        }
    }
}
