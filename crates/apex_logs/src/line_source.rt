//! Lines of a log that come one after another, and the entry of the next of them.
ghost use Rattle.std.specs.Prelude.{◌≡◌, false, IfOk, IfErr, Some, Err};
ghost use Rattle.apex_logs.specs.Prelude.{lines};
ghost use Rattle.apex_logs.specs.LogLine.{entry_of_line, ends_calls};
ghost use Rattle.apex_logs.specs.LineSource.{IsNextLine, IsStep, IsFaultyStep, IsMeaning, IfEntry};

use crate::log::LogForm;
use crate::log_fault::LogFault;
use crate::log_line::ends_calls;
use crate::time_out::TimeOut;
use apex_ports::Entry;
use apex_texts::text::next_line;
use std::alloc::AllocError;
use std::io;

/// Why the next line can't be read.
#[derive(Debug, Drop)]
pub enum ReadError {
    /// It has more than `LINE_LIMIT` bytes.
    TooLong,
    /// The system refused.
    Io(io::Error),
    /// A growth of memory was refused.
    OutOfMemory,
}

impl From<AllocError> for ReadError {
    fn from(_refused: AllocError) -> ReadError {
        ReadError::OutOfMemory
    }
}

/// Gives the lines of a log one after another.
pub trait LineSource {
    ghost use Rattle.std.specs.Prelude.{ℕ, List, Option};

    // The lines that are left, if they are known.
    ghost left: { Self → Option (List (List ℕ)) };

    /// Makes `line` the next line, and answers whether there is one.
    fn next(&mut self, line: &mut Vec<u8>) -> Result<bool, ReadError>
        ensures { IfOk result
            (λ found. IsNextLine found line.new.items (left self.old) (left self.new)) };
}

/// The lines of a text.
#[derive(Drop)]
pub struct TextLines<'a> {
    pub text: &'a [u8],
}

impl LineSource for TextLines<'_> {
    ghost left = { λ source. Some (lines source.text.now) };

    fn next(&mut self, line: &mut Vec<u8>) -> Result<bool, ReadError> {
        line.clear();
        match next_line(self.text) {
            None => Ok(false),
            Some((next, after)) => {
                line.extend_from_slice(next)?;
                self.text = after;
                Ok(true)
            }
        }
    }
}

/// What the next line of a log is.
#[derive(Clone, Copy, Debug, PartialEq, Eq)]
pub enum LogStep {
    /// It has an entry, with this time-out.
    Entry(TimeOut),
    /// It is empty or a comment.
    NoEntry,
    /// It ends the calls.
    CallsEnd,
    /// There are no more lines.
    NoLine,
}

/// Why the next line of a log has no meaning.
#[derive(Debug, Drop)]
pub enum StepError {
    /// It is faulty.
    Fault(LogFault),
    /// It can't be read.
    Unread(ReadError),
}

/// Reads the next line of a log into `line` and its entry, if it has one, into `entry`. After a fault, and if the line has
/// no entry, `entry` is unspecified.
pub fn next_step<L: LineSource, F: LogForm>(
    lines: &mut L,
    form: &F,
    line: &mut Vec<u8>,
    entry: &mut Entry,
) -> Result<LogStep, StepError>
    ensures exact { IfOk result (λ step.
        IsStep (F.asked_by form.now) line.new.items entry.new step
        (L.left lines.old) (L.left lines.new)) }
    ensures faulty { IfErr result (λ error.
        IsFaultyStep (F.asked_by form.now) line.new.items error
        (L.left lines.old) (L.left lines.new)) }
    ensures known { IfOk result (λ step. IfEntry step (F.Knows form.now entry.new.partition)) }
{
    match lines.next(line) {
        Ok(true) => step_of(form, line.as_slice(), entry).map_err(StepError::Fault),
        Ok(false) => Ok(LogStep::NoLine),
        Err(error) => Err(StepError::Unread(error)),
    }
}

/// What a line of a log is.
fn step_of<F: LogForm>(form: &F, line: &[u8], entry: &mut Entry) -> Result<LogStep, LogFault>
    ensures exact { IfOk result (λ step.
        IsMeaning (F.asked_by form.now) line.now entry.new step) }
    ensures faulty { IfErr result (λ fault. (ends_calls line.now ≡ false)
        × (entry_of_line (F.asked_by form.now) line.now ≡ Err fault)) }
    ensures known { IfOk result (λ step. IfEntry step (F.Knows form.now entry.new.partition)) }
{
    if ends_calls(line) {
        return Ok(LogStep::CallsEnd);
    }
    Ok(match form.read_line(line, entry)? {
        Some(time_out) => LogStep::Entry(time_out),
        None => LogStep::NoEntry,
    })
}
