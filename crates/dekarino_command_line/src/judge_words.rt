//! The words of `judge`.
use crate::commands;
use crate::fault::WordsFault;
use crate::files::files_in;
use crate::limits::{are_given, limits_in};
use crate::task::{Files, Task};
use crate::usage::fault_of;
use crate::words::{config_in, form_in};
use clap::ArgMatches;
use std::alloc::Global;

/// The task of the words: one log is judged, or logs that partitions kept apart.
pub(crate) fn judge_in<'a>(alloc: Global, given: &ArgMatches<'a>) -> Result<Task<'a>, WordsFault> {
    match files_in(alloc, given, commands::LOGS)? {
        Some(Files::One(log)) => judge_one(alloc, given, log),
        Some(Files::OfPartitions(logs)) => judge_apart(alloc, given, logs),
        None => Err(judge_fault(alloc, "give one log, or only arguments NAME=LOG")),
    }
}

fn judge_one<'a>(
    alloc: Global,
    given: &ArgMatches<'a>,
    log: &'a str,
) -> Result<Task<'a>, WordsFault> {
    if given.get_str(commands::ORDER).is_some() || are_given(given) {
        return Err(judge_fault(
            alloc,
            "--order, --seconds and --memory go with words NAME=LOG",
        ));
    }
    Ok(Task::Judge {
        config: config_in(alloc, given)?,
        log,
        first: given.get_flag(commands::FIRST),
        whole: given.get_flag(commands::WHOLE),
        time_outs: given.get_flag(commands::TIME_OUTS),
        own_ids: given.get_flag(commands::OWN_IDS),
        form: form_in(given),
    })
}

fn judge_apart<'a>(
    alloc: Global,
    given: &ArgMatches<'a>,
    logs: Vec<&'a str>,
) -> Result<Task<'a>, WordsFault> {
    if let Some(message) = flag_of_one_log(given) {
        return Err(judge_fault(alloc, message));
    }
    let limits = limits_in(given).map_err(|message| judge_fault(alloc, message))?;
    Ok(Task::JudgeApart {
        config: config_in(alloc, given)?,
        logs,
        order: given.get_str(commands::ORDER),
        limits,
        time_outs: given.get_flag(commands::TIME_OUTS),
        form: form_in(given),
    })
}

/// What is wrong with a flag that only goes with one log, if one is given.
fn flag_of_one_log(given: &ArgMatches<'_>) -> Option<&'static str> {
    if given.get_flag(commands::FIRST) {
        Some("--first goes with one log")
    } else if given.get_flag(commands::WHOLE) {
        Some("--whole goes with one log")
    } else if given.get_flag(commands::OWN_IDS) {
        Some("--own-ids goes with one log")
    } else {
        None
    }
}

fn judge_fault(alloc: Global, message: &str) -> WordsFault {
    fault_of(alloc, "judge", message)
}
