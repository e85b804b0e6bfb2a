//! From the words of the command line to a status.
use crate::drawings::{arrows_of_trace, draw};
use crate::explanations::{explain_scripts, explain_trace_file};
use crate::rows::reply_table;
use crate::tables::table;
use apex_files::{Opener, Refusal, refuse};
use apex_logs::FaultyLine;
use apex_texts::Fault;
use dekarino_command_line::{Files, Origin, Start, Task, WordsFault, task_of, version_text};
use dekarino_drawings::CALL_LIMIT;
use dekarino_search::{
    Bound, FileWriter, Outcome, Progress, TOO_LONG, Unfinished, UnreadableFile, departures_of_log,
    order_of_logs, outcomes_of_scripts,
};
use dekarino_texts::Reading;
use std::alloc::Global;
use std::io;
use std::io::{ErrorKind, Write};
use std::sync::Wait;
use std::thread::Threads;

/// The status of words that aren't those of a command.
const MISUSED: u8 = 2;

/// The status of a text that is refused.
const REFUSED: u8 = 1;

/// The status of a negative answer.
const NEGATIVE: u8 = 4;

/// The status of an answer that a search left open.
const UNDECIDED: u8 = 5;

/// The status if a file can't be read.
const UNREADABLE: u8 = 3;

/// The status if a file can't be written.
const UNWRITABLE: u8 = 3;

/// The status if whoever reads the output reads no more, as of a program that the signal SIGPIPE ends.
const CLOSED: u8 = 141;

/// Does what the words ask for, and answers the status. A refusal writes a line to `errors`, and words that aren't those
/// of a command what is wrong, with the usage. A run waits for its workers, and a search shows its progress.
pub fn program<R: Threads + Wait + Sync, O: Opener + FileWriter, P: Progress, W: Write, E: Write>(
    rt: &R,
    alloc: Global,
    start: Result<Start, WordsFault>,
    opener: &O,
    progress: &mut P,
    output: &mut W,
    errors: &mut E,
) -> u8 {
    let Start {
        words,
        origin,
        columns,
    } = match start {
        Ok(start) => start,
        Err(fault) => return report_misuse(&fault, errors),
    };
    match task_of(alloc, words.as_slice(), columns) {
        Ok(task) => {
            let outcome = perform(rt, alloc, task, &origin, opener, progress, output);
            progress.wipe();
            finish(outcome, output, errors)
        }
        Err(fault) => report_misuse(&fault, errors),
    }
}

/// Writes what is wrong with words that aren't those of a command, and answers the status.
fn report_misuse<E: Write>(fault: &WordsFault, errors: &mut E) -> u8 {
    match fault {
        WordsFault::Usage(text) => {
            let _ = errors.write_all(text.as_bytes());
            MISUSED
        }
        WordsFault::OutOfMemory => refuse(Refusal::Text(Fault::Memory), errors),
    }
}

/// Prints the outcome of a task, and answers the status.
fn finish<W: Write, E: Write>(
    outcome: Result<Outcome, Unfinished<'_>>,
    output: &mut W,
    errors: &mut E,
) -> u8 {
    let (text, end) = match outcome {
        Ok(Outcome::Done(text)) => (text, End::Status(0)),
        Ok(Outcome::Negative(text)) => (text, End::Status(NEGATIVE)),
        Ok(Outcome::Undecided(text)) => (text, End::Status(UNDECIDED)),
        Err(Unfinished::RefusedWithText { text, refusal }) => (text, End::Refusal(refusal)),
        Err(Unfinished::FaultyLogWithText { text, faulty }) => (text, End::FaultyLog(faulty)),
        Err(Unfinished::TooLongLine { text, line }) => (text, End::TooLongLine(line)),
        Err(Unfinished::OutputClosed) => return CLOSED,
        Err(Unfinished::FaultyOwnLog { text, file, faulty }) => {
            (text, End::FaultyOwnLog { file, faulty })
        }
        Err(Unfinished::Refused(Refusal::File { path, obstacle })) => {
            return unreadable_file(UnreadableFile { path, obstacle }, errors);
        }
        Err(Unfinished::Refused(refusal)) => return refuse(refusal, errors),
        Err(Unfinished::UnknownService(name)) => return unknown_service(name, errors),
        Err(Unfinished::TooManyCalls { .. }) => return too_many_calls(errors),
        Err(Unfinished::FaultyLog(faulty)) => return faulty_log(faulty, errors),
        Err(Unfinished::UnwritableFile(file)) => return unwritable_file(file, errors),
        Err(Unfinished::UnwritableFileIn { folder, name }) => {
            return unwritable_file_in(folder, &name, errors);
        }
        Err(Unfinished::BadArgument { words, reason }) => {
            return bad_argument(words, &reason, errors);
        }
        Err(Unfinished::Undecided(bound)) => return undecided(bound, errors),
    };
    if let Err(error) = write_whole(output, text.as_slice()) {
        return match error.kind() {
            ErrorKind::BrokenPipe => CLOSED,
            _ => refuse(Refusal::Output, errors),
        };
    }
    report_end(end, errors)
}

/// What comes after the text of a task.
#[derive(Debug, Drop)]
enum End<'a> {
    Status(u8),
    Refusal(Refusal<'a>),
    FaultyLog(FaultyLine),
    TooLongLine(usize),
    FaultyOwnLog { file: &'a str, faulty: FaultyLine },
}

/// Writes what comes after the text of a task, and answers the status.
fn report_end<E: Write>(end: End<'_>, errors: &mut E) -> u8 {
    match end {
        End::Status(status) => status,
        End::Refusal(refusal) => refuse(refusal, errors),
        End::FaultyLog(faulty) => faulty_log(faulty, errors),
        End::TooLongLine(line) => too_long_line(line, errors),
        End::FaultyOwnLog { file, faulty } => faulty_own_log(file, faulty, errors),
    }
}

/// Writes bytes whole.
fn write_whole<W: Write>(output: &mut W, bytes: &[u8]) -> io::Result<()> {
    output.write_all(bytes)?;
    output.flush()
}

/// Writes which file can't be read and why, and answers the status.
fn unreadable_file<E: Write>(file: UnreadableFile<'_>, errors: &mut E) -> u8 {
    let _ = writeln!(errors, "{file}");
    UNREADABLE
}

/// Writes that no service has the name, and answers the status.
fn unknown_service<E: Write>(name: &str, errors: &mut E) -> u8 {
    let _ = writeln!(
        errors,
        "error: {name} is no service: `dekarino rows` lists all of them"
    );
    MISUSED
}

/// Writes that a trace has too many calls to be drawn, and answers the status.
fn too_many_calls<E: Write>(errors: &mut E) -> u8 {
    let _ = writeln!(
        errors,
        "drawing: the trace has more than {CALL_LIMIT} calls, which is the most: draw a part of the trace"
    );
    REFUSED
}

/// Writes which line of a log is faulty, and answers the status.
fn faulty_log<E: Write>(faulty: FaultyLine, errors: &mut E) -> u8 {
    let _ = writeln!(errors, "log {faulty}");
    REFUSED
}

/// Writes which line of a log is too long, and answers the status.
fn too_long_line<E: Write>(line: usize, errors: &mut E) -> u8 {
    let _ = writeln!(errors, "log line {line} fault {TOO_LONG}: line too long");
    REFUSED
}

/// Writes which line of a partition's own log is faulty, and answers the status.
fn faulty_own_log<E: Write>(file: &str, faulty: FaultyLine, errors: &mut E) -> u8 {
    let _ = writeln!(errors, "log {file} {faulty}");
    REFUSED
}

/// Writes which file can't be written, and answers the status.
fn unwritable_file<E: Write>(file: &str, errors: &mut E) -> u8 {
    let _ = writeln!(errors, "cannot write {file}");
    UNWRITABLE
}

/// Writes which file in a folder can't be written, and answers the status.
fn unwritable_file_in<E: Write>(folder: &str, name: &str, errors: &mut E) -> u8 {
    let _ = writeln!(errors, "cannot write {folder}/{name}");
    UNWRITABLE
}

/// Writes why words of the command are at fault, and answers the status.
fn bad_argument<E: Write>(words: &str, reason: &str, errors: &mut E) -> u8 {
    let _ = writeln!(errors, "argument fault: {words}: {reason}");
    MISUSED
}

/// Writes at which bound a search gave up, and answers the status.
fn undecided<E: Write>(bound: Bound, errors: &mut E) -> u8 {
    let _ = writeln!(errors, "{bound}");
    UNDECIDED
}

/// Does the task. The departures of a log are written as they are found, and all else is in the outcome.
fn perform<'a, R: Threads + Wait + Sync, O: Opener + FileWriter, P: Progress, W: Write>(
    rt: &R,
    alloc: Global,
    task: Task<'a>,
    origin: &Origin,
    opener: &O,
    progress: &mut P,
    output: &mut W,
) -> Result<Outcome, Unfinished<'a>> {
    match task {
        Task::Table { config, form } => table(alloc, opener, config, form),
        Task::Explain {
            config,
            calls,
            form,
        } => match calls {
            Files::One(trace) => explain_trace_file(alloc, opener, config, trace, form),
            Files::OfPartitions(scripts) => {
                explain_scripts(rt, alloc, opener, config, scripts.as_slice(), form)
            }
        },
        Task::Draw { config, trace } => draw(alloc, opener, config, trace),
        Task::ReadArrows { config, trace } => arrows_of_trace(alloc, opener, config, trace),
        Task::Judge {
            config,
            log,
            first,
            whole,
            time_outs,
            own_ids,
            form,
        } => {
            let reading = Reading { time_outs, own_ids };
            departures_of_log(
                alloc, opener, config, log, first, whole, reading, form, output,
            )
        }
        Task::JudgeApart {
            config,
            logs,
            order,
            limits,
            time_outs,
            form,
        } => order_of_logs(
            alloc,
            opener,
            config,
            logs.as_slice(),
            order,
            limits,
            time_outs,
            form,
            progress,
        ),
        Task::Orders {
            config,
            scripts,
            limits,
            questions,
            witness,
            form,
        } => outcomes_of_scripts(
            rt,
            alloc,
            opener,
            config,
            scripts.as_slice(),
            limits,
            questions.as_slice(),
            witness,
            form,
            progress,
        ),
        Task::Rows { service, form } => reply_table(alloc, service, form),
        Task::Version => Ok(Outcome::Done(version_text(alloc, origin)?.into_bytes())),
        Task::Help(text) => Ok(Outcome::Done(text.into_bytes())),
    }
}
