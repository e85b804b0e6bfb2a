//! The mistakes of traces, scripts and logs, beside their refusal.
use crate::places::push_place;
use apex_logs::FaultyLine;
use apex_mistakes::{
    LinePlace, LogPlace, log_faults, log_line_mistake, log_mistakes, own_log_faults,
    own_log_mistakes, script_faults, script_mistakes, trace_faults, trace_mistakes,
};
use apex_module::Config;
use apex_refusals::MISTAKE_LIMIT;
use dekarino_command_line::Form;
use std::alloc::{AllocError, Global};

/// The mistakes of a trace in a file; empty if the trace can be read.
pub fn mistakes_of_trace(
    alloc: Global,
    path: &str,
    config: &Config,
    trace: &[u8],
    form: Form,
) -> Result<String, AllocError> {
    let lines = trace_mistakes(alloc, path, config, trace)?;
    match form {
        Form::Json if !lines.is_empty() => {
            let faults = trace_faults(alloc, config, trace, MISTAKE_LIMIT)?;
            mistake_objects(alloc, lines.as_str(), faults.first.as_slice())
        }
        _ => Ok(lines),
    }
}

/// The mistakes of a partition's script in a file; empty if the script can be read.
pub(crate) fn mistakes_of_script(
    alloc: Global,
    path: &str,
    config: &Config,
    partition: usize,
    script: &[u8],
    form: Form,
) -> Result<String, AllocError> {
    let lines = script_mistakes(alloc, path, config, partition, script)?;
    match form {
        Form::Json if !lines.is_empty() => {
            let faults = script_faults(alloc, script, MISTAKE_LIMIT)?;
            mistake_objects(alloc, lines.as_str(), faults.first.as_slice())
        }
        _ => Ok(lines),
    }
}

/// The mistakes of a module's log in a file; empty if the log can be read.
pub(crate) fn mistakes_of_log(
    alloc: Global,
    path: &str,
    config: &Config,
    log: &[u8],
    form: Form,
) -> Result<String, AllocError> {
    let lines = log_mistakes(alloc, path, config, log)?;
    match form {
        Form::Json if !lines.is_empty() => {
            let faults = log_faults(alloc, config, log, MISTAKE_LIMIT)?;
            log_mistake_objects(alloc, lines.as_str(), faults.first.as_slice())
        }
        _ => Ok(lines),
    }
}

/// The mistake of a faulty line of a module's log in a file. `has_calls` says whether a line before it has a call.
pub(crate) fn mistake_of_line(
    alloc: Global,
    path: &str,
    config: &Config,
    faulty: FaultyLine,
    line: &[u8],
    has_calls: bool,
    form: Form,
) -> Result<String, AllocError> {
    let mistake = log_line_mistake(alloc, path, config, faulty, line, has_calls)?;
    match form {
        Form::Text => Ok(mistake),
        Form::Json => {
            let mut text = String::new(alloc);
            let place = mistake.as_str().trim_end();
            push_place(alloc, &mut text, Some(faulty.fault.number()), place)?;
            Ok(text)
        }
    }
}

/// The mistakes of a partition's own log in a file; empty if the log can be read.
pub(crate) fn mistakes_of_own_log(
    alloc: Global,
    path: &str,
    config: &Config,
    partition: usize,
    log: &[u8],
    form: Form,
) -> Result<String, AllocError> {
    let lines = own_log_mistakes(alloc, path, config, partition, log)?;
    match form {
        Form::Json if !lines.is_empty() => {
            let faults = own_log_faults(alloc, partition, log, MISTAKE_LIMIT)?;
            log_mistake_objects(alloc, lines.as_str(), faults.first.as_slice())
        }
        _ => Ok(lines),
    }
}

/// An object for each line, with the fault of its place; the line that says how many more there are has none.
fn mistake_objects(alloc: Global, lines: &str, places: &[LinePlace]) -> Result<String, AllocError> {
    let mut text = String::new(alloc);
    for (index, line) in lines.lines().enumerate() {
        let fault = places.get(index).map(|place| place.fault.number());
        push_place(alloc, &mut text, fault, line)?;
    }
    Ok(text)
}

/// The same for the lines of a log's mistakes.
fn log_mistake_objects(
    alloc: Global,
    lines: &str,
    places: &[LogPlace],
) -> Result<String, AllocError> {
    let mut text = String::new(alloc);
    for (index, line) in lines.lines().enumerate() {
        let fault = places.get(index).map(|place| place.fault.number());
        push_place(alloc, &mut text, fault, line)?;
    }
    Ok(text)
}
