//! The departures of a log, found line by line as it comes.
ghost use Rattle.std.specs.Prelude.{◌≡◌, [], OnOk, IfErr, IfSome};
ghost use Rattle.dekarino_texts.specs.Prelude.{none_known};
ghost use Rattle.dekarino_texts.specs.declared.judged_lines.JudgeError.TheVariants as stops;
ghost use Rattle.dekarino_texts.specs.Departures.{IsJudgedThrough, IsStoppedAt, refused_by_sink, stopped_at};

use crate::departures::{
    DepartureCounts, DepartureSink, LogPlace, Reading, SinkError, judge_entry,
};
use apex_judge::{Judge, OwnIds};
use apex_logs::{
    ANY_ENTRY, FaultyLine, LineSource, LogStep, MaxWait, ModuleLog, ReadError, StepError, next_step,
};
use apex_module::Config;
use apex_types::OutOfMemory;
use std::alloc::{AllocError, Global};
use std::io;

/// Why a log isn't judged to its end. The sink has the departures before that.
#[derive(Debug, Drop)]
pub enum JudgeError {
    /// A line is faulty.
    Line(FaultyLine),
    /// The line with this number is too long.
    TooLong { line: usize },
    /// A line can't be read.
    Read(io::Error),
    /// There are more lines than can be counted.
    TooManyLines,
    /// A growth of memory was refused.
    OutOfMemory,
    /// A departure can't be written.
    Write(io::Error),
}

impl From<OutOfMemory> for JudgeError {
    ghost from_gives = { λ _ given. given ≡ stops.OutOfMemory };

    fn from(_refused: OutOfMemory) -> JudgeError {
        JudgeError::OutOfMemory
    }
}

impl From<AllocError> for JudgeError {
    ghost from_gives = { λ _ given. given ≡ stops.OutOfMemory };

    fn from(_refused: AllocError) -> JudgeError {
        JudgeError::OutOfMemory
    }
}

impl From<SinkError> for JudgeError {
    ghost from_gives = { λ error given. given ≡ refused_by_sink error };

    fn from(error: SinkError) -> JudgeError {
        match error {
            SinkError::OutOfMemory => JudgeError::OutOfMemory,
            SinkError::Io(error) => JudgeError::Write(error),
        }
    }
}

/// Judges the lines of a module's log as they come: each reply after what the log shows to have happened before it. The
/// sink takes each departure before the next line is read, and the reading ends after `most` of them. `line` has the line
/// that was read last, and `file` is the name of the log.
pub fn judge_lines<L: LineSource, S: DepartureSink>(
    alloc: Global,
    config: Config,
    file: &str,
    reading: Reading,
    most: usize,
    lines: &mut L,
    line: &mut Vec<u8>,
    counts: &mut DepartureCounts,
    sink: &mut S,
) -> Result<(), JudgeError>
    ensures judged { OnOk result (IfSome (L.left lines.old)
        (IsJudgedThrough S.takes config reading most sink.old sink.new counts.new)) }
    ensures stopped { IfErr result (λ why. IfSome (L.left lines.old)
        (IsStoppedAt S.takes config reading most sink.old sink.new counts.new why)) }
{
    let mut judge = Judge::new(alloc, config)?;
    let mut ids = OwnIds::new(alloc, judge.config(), reading.own_ids)?;
    judge_each(
        &mut judge, &mut ids, file, reading, most, lines, line, counts, sink,
    )
}

/// Judges lines one after another.
fn judge_each<L: LineSource, S: DepartureSink>(
    judge: &mut Judge,
    ids: &mut OwnIds,
    file: &str,
    reading: Reading,
    most: usize,
    lines: &mut L,
    line: &mut Vec<u8>,
    counts: &mut DepartureCounts,
    sink: &mut S,
) -> Result<(), JudgeError>
    requires fresh { judge.old.log ≡ [] }
    requires none_known { ids.old ≡ none_known reading.own_ids judge.old.config }
    ensures judged { let config = judge.old.config in OnOk result (IfSome (L.left lines.old)
        (IsJudgedThrough S.takes config reading most sink.old sink.new counts.new)) }
    ensures stopped { let config = judge.old.config in IfErr result (λ why.
        IfSome (L.left lines.old)
        (IsStoppedAt S.takes config reading most sink.old sink.new counts.new why)) }
{
    *counts = DepartureCounts {
        calls: 0,
        departures: 0,
    };
    let mut entry = ANY_ENTRY;
    for number in 1..usize::MAX {
        let form = ModuleLog {
            config: judge.config(),
        };
        match next_step(lines, &form, line, &mut entry) {
            Ok(LogStep::NoLine) => return Ok(()),
            Ok(LogStep::CallsEnd) => return Ok(()),
            Ok(LogStep::NoEntry) => continue,
            Ok(LogStep::Entry(time_out)) => {
                let wait = MaxWait::of(reading.time_outs, &entry.call, time_out);
                let place = LogPlace {
                    line: number,
                    time_out,
                    wait,
                    known: None,
                };
                *counts = judge_entry(judge, ids, file, place, &mut entry, most, *counts, sink)?;
                if counts.departures >= most {
                    return Ok(());
                }
            }
            Err(error) => return Err(stopped_at(number, error)),
        }
    }
    Err(JudgeError::TooManyLines)
}

/// Why a log isn't judged beyond the line with this number.
fn stopped_at(line: usize, error: StepError) -> JudgeError
    ensures { result ≡ stopped_at line error }
{
    match error {
        StepError::Fault(fault) => JudgeError::Line(FaultyLine { line, fault }),
        StepError::Unread(ReadError::TooLong) => JudgeError::TooLong { line },
        StepError::Unread(ReadError::Io(error)) => JudgeError::Read(error),
        StepError::Unread(ReadError::OutOfMemory) => JudgeError::OutOfMemory,
    }
}
