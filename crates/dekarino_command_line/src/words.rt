//! From the words to a task.
use crate::commands;
use crate::fault::WordsFault;
use crate::files::files_in;
use crate::input::{TWICE, is_read_twice};
use crate::judge_words::judge_in;
use crate::orders_words::orders_in;
use crate::task::{Form, Task};
use crate::usage::fault_of;
use crate::wrapping::wrapped;
use clap::ArgMatches;
use clap::error::ErrorKind;
use std::alloc::Global;
use std::convert::AsStr;

/// The task that the words name; the first word is the program's own name. Help is wrapped to this many columns.
pub fn task_of<'a, S: AsStr>(
    alloc: Global,
    words: &'a [S],
    columns: Option<usize>,
) -> Result<Task<'a>, WordsFault> {
    match commands::program(alloc)?.try_get_matches_from(words) {
        Ok(matches) => task_in(alloc, &matches),
        Err(error) => task_without(alloc, words, columns, &error),
    }
}

/// The task where there are no matches: help or the version, if the words ask for that.
fn task_without<'a, S: AsStr>(
    alloc: Global,
    words: &[S],
    columns: Option<usize>,
    error: &clap::Error,
) -> Result<Task<'a>, WordsFault> {
    match error.kind() {
        ErrorKind::DisplayHelp => {
            let help = error.to_string(alloc)?;
            match columns {
                Some(columns) => Ok(Task::Help(wrapped(alloc, help.as_str(), columns)?)),
                None => Ok(Task::Help(help)),
            }
        }
        ErrorKind::DisplayVersion => Ok(Task::Version),
        ErrorKind::OutOfMemory => Err(WordsFault::OutOfMemory),
        ErrorKind::InvalidSubcommand => Err(unknown_command(alloc, words, error)),
        _ => Err(WordsFault::Usage(error.to_string(alloc)?)),
    }
}

/// The fault of a command that there isn't. Of the commands of `apexports` it says what does the same.
fn unknown_command<S: AsStr>(alloc: Global, words: &[S], error: &clap::Error) -> WordsFault {
    let word = words.get(1).map_or("", |word| word.as_str());
    let message = match word {
        "check" => CHECK,
        "replay" => REPLAY,
        "run" => RUN,
        _ => {
            return match error.to_string(alloc) {
                Ok(text) => WordsFault::Usage(text),
                Err(refused) => WordsFault::from(refused),
            };
        }
    };
    fault_of(alloc, "dekarino", message)
}

const CHECK: &str = "\
unrecognized subcommand 'check'

  tip: `apexports check CONFIG` checks a configuration, and `dekarino table CONFIG` tells its mistakes or its ports";

const REPLAY: &str = "\
unrecognized subcommand 'replay'

  tip: `apexports replay CONFIG TRACE` writes the report of a trace, and `dekarino explain CONFIG TRACE` says why";

const RUN: &str = "\
unrecognized subcommand 'run'

  tip: `apexports run CONFIG NAME=SCRIPT...` writes the report of a run, and `dekarino explain CONFIG NAME=SCRIPT...` says why";

fn task_in<'a>(alloc: Global, matches: &ArgMatches<'a>) -> Result<Task<'a>, WordsFault> {
    match matches.subcommand() {
        Some((_, given)) if is_read_twice(given) => { Err(fault_of(alloc, "dekarino", TWICE)) }
        Some(("table", given)) => Ok(Task::Table {
            config: config_in(alloc, given)?,
            form: form_in(given),
        }),
        Some(("explain", given)) => explain_in(alloc, given),
        Some(("draw", given)) => draw_in(alloc, given),
        Some(("judge", given)) => judge_in(alloc, given),
        Some(("orders", given)) => orders_in(alloc, given),
        Some(("rows", given)) => Ok(Task::Rows {
            service: given.get_str(commands::SERVICE),
            form: form_in(given),
        }),
        _ => Err(fault_of(alloc, "dekarino", "a command is missing")),
    }
}

/// The file of the configuration.
pub(crate) fn config_in<'a>(alloc: Global, given: &ArgMatches<'a>) -> Result<&'a str, WordsFault> {
    match given.get_str(commands::CONFIG) {
        Some(config) => Ok(config),
        None => Err(fault_of(alloc, "dekarino", "CONFIG is missing")),
    }
}

fn explain_in<'a>(alloc: Global, given: &ArgMatches<'a>) -> Result<Task<'a>, WordsFault> {
    let Some(calls) = files_in(alloc, given, commands::CALLS)? else {
        return Err(fault_of(
            alloc,
            "explain",
            "give one trace, or only arguments NAME=SCRIPT",
        ));
    };
    Ok(Task::Explain {
        config: config_in(alloc, given)?,
        calls,
        form: form_in(given),
    })
}

fn draw_in<'a>(alloc: Global, given: &ArgMatches<'a>) -> Result<Task<'a>, WordsFault> {
    let config = config_in(alloc, given)?;
    match (form_in(given), given.get_str(commands::TRACE)) {
        (Form::Text, trace) => Ok(Task::Draw { config, trace }),
        (Form::Json, Some(trace)) => Ok(Task::ReadArrows { config, trace }),
        (Form::Json, None) => Err(fault_of(alloc, "draw", "--json goes with a trace")),
    }
}

/// How the answer is to be printed.
pub(crate) fn form_in(given: &ArgMatches<'_>) -> Form {
    if given.get_flag(commands::JSON) {
        Form::Json
    } else {
        Form::Text
    }
}
