//! The mistakes of a log in words, a line for each.
use crate::expected::push_expected;
use crate::faulty_lines::TRACE_FRONT;
use crate::faulty_log::{LogFaults, log_faults, own_log_faults};
use crate::faulty_log_line::FaultyLogLine;
use crate::known::Caller;
use crate::log_hint::log_hint_of;
use crate::log_place::{LogPart, log_place_in};
use crate::mistakes::{line_ahead, push_found};
use crate::quoted::push_quoted;
use crate::reply_word::push_reply_word;
use apex_logs::{FaultyLine, ModuleLog, sides_of};
use apex_module::Config;
use apex_refusals::{MISTAKE_LIMIT, push_more};
use std::alloc::{AllocError, Global};

/// A line for each faulty line of a module's log in the file, at most `MISTAKE_LIMIT`, and then one with the number of
/// the others. A log without faults has none. The only error is a failed allocation.
pub fn log_mistakes(
    alloc: Global,
    file: &str,
    config: &Config,
    log: &[u8],
) -> Result<String, AllocError> {
    let faults = log_faults(alloc, config, log, MISTAKE_LIMIT)?;
    mistakes_at(alloc, file, config, Caller::Trace, log, &faults)
}

/// The same for the log of a partition, whose number counts from 0.
pub fn own_log_mistakes(
    alloc: Global,
    file: &str,
    config: &Config,
    partition: usize,
    log: &[u8],
) -> Result<String, AllocError> {
    let faults = own_log_faults(alloc, partition, log, MISTAKE_LIMIT)?;
    mistakes_at(alloc, file, config, Caller::Script(partition), log, &faults)
}

/// The line of the mistake of one line of a module's log in the file, which is faulty in this way. `has_calls` says whether
/// another line has a call.
pub fn log_line_mistake(
    alloc: Global,
    file: &str,
    config: &Config,
    faulty: FaultyLine,
    line: &[u8],
    has_calls: bool,
) -> Result<String, AllocError> {
    let mut mistake = String::new(alloc);
    let form = ModuleLog { config };
    let place = log_place_in(alloc, &form, &TRACE_FRONT, faulty.line, faulty.fault, line)?;
    let faulty = FaultyLogLine {
        file,
        config,
        caller: Caller::Trace,
        log_has_arrow: has_calls || sides_of(line).is_ok(),
        line,
        place,
    };
    push_log_mistake(alloc, &mut mistake, &faulty)?;
    Ok(mistake)
}

/// The lines of the first faults, and the number of the others.
fn mistakes_at(
    alloc: Global,
    file: &str,
    config: &Config,
    caller: Caller,
    log: &[u8],
    faults: &LogFaults,
) -> Result<String, AllocError> {
    let mut mistakes = String::new(alloc);
    let log_has_arrow = sides_of(log).is_ok();
    let mut rest = log;
    let mut passed = 0;
    for place in &faults.first {
        let (line, after) = line_ahead(rest, place.line.saturating_sub(passed));
        let faulty = FaultyLogLine {
            file,
            config,
            caller,
            log_has_arrow,
            line,
            place: *place,
        };
        push_log_mistake(alloc, &mut mistakes, &faulty)?;
        rest = after;
        passed = place.line;
    }
    push_more(&mut mistakes, faults.count.saturating_sub(MISTAKE_LIMIT))?;
    Ok(mistakes)
}

/// Writes the line of a mistake, like that for a trace.
fn push_log_mistake(
    alloc: Global,
    text: &mut String,
    faulty: &FaultyLogLine<'_>,
) -> Result<(), AllocError> {
    let place = faulty.place;
    let (file, words) = (faulty.file, place.fault.words());
    write!(text, "{file}:{}:{}: {words}: ", place.line, place.column)?;
    push_log_found(text, faulty)?;
    text.push_str("; expected ")?;
    push_log_expected(alloc, text, faulty)?;
    if let Some(hint) = log_hint_of(alloc, faulty)? {
        write!(text, "; {hint}")?;
    }
    text.push_str("\n")
}

/// Writes what was found at the fault.
fn push_log_found(text: &mut String, faulty: &FaultyLogLine<'_>) -> Result<(), AllocError> {
    match (faulty.faulty_word(), faulty.place.part) {
        (Some(word), LogPart::Call | LogPart::Reply | LogPart::Note) => push_quoted(text, word),
        (None, LogPart::Call) => text.push_str("the call ends"),
        (None, LogPart::Reply | LogPart::Note) => text.push_str("the reply ends"),
        (_, LogPart::Line) => push_found(text, &faulty.as_line()),
    }
}

/// Writes what was expected at the fault.
fn push_log_expected(
    alloc: Global,
    text: &mut String,
    faulty: &FaultyLogLine<'_>,
) -> Result<(), AllocError> {
    match faulty.place.part {
        LogPart::Call => push_line_expected(alloc, text, faulty),
        LogPart::Reply => push_reply_word(text, faulty.reply_word(), faulty.service()),
        LogPart::Note => text.push_str("`)` at the end of the line"),
        LogPart::Line if faulty.lacks_arrow() => text.push_str("`->` and the reply"),
        LogPart::Line => push_line_expected(alloc, text, faulty),
    }
}

/// The same for a fault that a trace's line can have too. After the arguments of a send or a receive there may be a
/// time-out.
fn push_line_expected(
    alloc: Global,
    text: &mut String,
    faulty: &FaultyLogLine<'_>,
) -> Result<(), AllocError> {
    if faulty.is_behind_arguments() {
        return text.push_str("`timeout` and nanoseconds or `infinite`, or the end of the call");
    }
    push_expected(alloc, text, faulty.config, faulty.as_line().place.expected)
}
