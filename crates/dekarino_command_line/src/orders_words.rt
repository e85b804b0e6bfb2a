//! The words of `orders`.
use crate::commands;
use crate::fault::WordsFault;
use crate::files::names_partition;
use crate::limits::limits_in;
use crate::task::{Question, Task};
use crate::usage::fault_of;
use crate::words::{config_in, form_in};
use clap::ArgMatches;
use std::alloc::{AllocError, Global};

/// The task of the words.
pub(crate) fn orders_in<'a>(alloc: Global, given: &ArgMatches<'a>) -> Result<Task<'a>, WordsFault> {
    let mut limits = limits_in(given).map_err(|message| orders_fault(alloc, message))?;
    limits.clock = given.get_flag(commands::CLOCK);
    let words = given.get_strs(commands::SCRIPTS).unwrap_or(&[]);
    if !words.iter().all(|word| names_partition(word)) {
        return Err(orders_fault(
            alloc,
            "each of the words after CONFIG has to be NAME=SCRIPT",
        ));
    }
    let questions = questions_in(alloc, given)?;
    let witness = given.get_str(commands::WITNESS);
    if witness == Some("") {
        return Err(orders_fault(alloc, "--witness takes a folder"));
    }
    if witness.is_some() && !questions.is_empty() {
        let message = "--witness goes without --when, --never and --why";
        return Err(orders_fault(alloc, message));
    }
    let mut scripts = Vec::new(alloc);
    scripts.extend_from_slice(words)?;
    Ok(Task::Orders {
        config: config_in(alloc, given)?,
        scripts,
        limits,
        questions,
        witness,
        form: form_in(given),
    })
}

/// The questions of `--when`, `--never` and `--why`, in the order given.
fn questions_in<'a>(
    alloc: Global,
    given: &ArgMatches<'a>,
) -> Result<Vec<Question<'a>>, AllocError> {
    let mut placed = Vec::new(alloc);
    let places = given.indices_of(commands::WHEN).unwrap_or(&[]);
    let when = given.get_strs(commands::WHEN).unwrap_or(&[]);
    for (place, words) in places.iter().zip(when.iter()) {
        placed.push((*place, Question::When(words)))?;
    }
    let places = given.indices_of(commands::NEVER).unwrap_or(&[]);
    let never = given.get_strs(commands::NEVER).unwrap_or(&[]);
    for (place, words) in places.iter().zip(never.iter()) {
        placed.push((*place, Question::Never(words)))?;
    }
    let places = given.indices_of(commands::WHY).unwrap_or(&[]);
    let why = given.get_strs(commands::WHY).unwrap_or(&[]);
    for (place, words) in places.iter().zip(why.iter()) {
        placed.push((*place, Question::Why(words)))?;
    }
    placed.sort_by_key(|one| one.0)?;
    let mut questions = Vec::with_capacity(alloc, placed.len())?;
    for (_, question) in placed.as_slice() {
        questions.push(*question)?;
    }
    Ok(questions)
}

fn orders_fault(alloc: Global, message: &str) -> WordsFault {
    fault_of(alloc, "orders", message)
}
