//! The answer to whether logs that partitions kept apart have an order.
use crate::bound::Bound;
use crate::json::push_object;
use crate::json_departures::DepartureObjects;
use crate::next_calls::push_next_calls;
use crate::own_logs::OwnLogs;
use apex_log_orders::CallPlace;
use apex_module::Config;
use apex_types::OutOfMemory;
use dekarino_command_line::Form;
use dekarino_texts::{Counted, DepartureText, DepartureWords};
use serde::Serialize;
use std::alloc::{AllocError, Global};

/// Whether there is an order in which each reply is the standard's.
#[derive(Clone, Copy, Debug)]
pub(crate) enum OrderAnswer {
    /// There is one.
    Exists,
    /// There is no order.
    Impossible,
    /// Neither was found within this bound.
    Undecided(Bound),
}

/// The answer, the number of all calls, how many are in the longest order, and the option with the bound that ended the
/// search.
#[derive(Drop, Serialize)]
struct AnswerLine {
    order: &'static str,
    calls: usize,
    longest: usize,
    bound: Option<String>,
}

/// The text of an answer; if there is no order of all calls, with the calls that are next after the longest.
pub(crate) fn answer_text(
    alloc: Global,
    config: &Config,
    all: &OwnLogs<'_>,
    answer: OrderAnswer,
    longest: &[CallPlace],
    form: Form,
) -> Result<String, OutOfMemory> {
    let calls = count_calls(all);
    match form {
        Form::Text => {
            let mut words = DepartureText::new(alloc);
            push_next_calls(alloc, config, all, longest, &mut words)?;
            let mut text = String::new(alloc);
            if let OrderAnswer::Impossible | OrderAnswer::Undecided(_) = answer {
                push_longest(&mut text, longest.len(), calls)?;
            }
            text.push_str(words.into_text().as_str())?;
            push_answer(&mut text, calls, answer)?;
            Ok(text)
        }
        Form::Json => {
            let mut words = DepartureObjects::new(alloc);
            push_next_calls(alloc, config, all, longest, &mut words)?;
            let mut text = words.into_text();
            let object = AnswerLine {
                order: word_of(answer),
                calls,
                longest: longest.len(),
                bound: bound_of(alloc, answer)?,
            };
            push_object(alloc, &mut text, &object)?;
            Ok(text)
        }
    }
}

fn count_calls(all: &OwnLogs<'_>) -> usize {
    let mut calls: usize = 0;
    for log in all.logs.iter() {
        calls = calls.saturating_add(log.entries.len());
    }
    calls
}

fn word_of(answer: OrderAnswer) -> &'static str {
    match answer {
        OrderAnswer::Exists => "found",
        OrderAnswer::Impossible => "none",
        OrderAnswer::Undecided(_) => "undecided",
    }
}

/// The option with the bound that ended the search without an answer.
fn bound_of(alloc: Global, answer: OrderAnswer) -> Result<Option<String>, AllocError> {
    let OrderAnswer::Undecided(bound) = answer else {
        return Ok(None);
    };
    let (option, number) = bound.option();
    Ok(Some(format!(in alloc; "{option} {number}")?))
}

/// Writes the line in front of the calls that are next.
fn push_longest(text: &mut String, longest: usize, calls: usize) -> Result<(), AllocError> {
    let calls = counted(calls);
    writeln!(
        text,
        "the longest order found has {longest} of {calls}; next calls, any of which may be the wrong one:"
    )
}

/// Writes the last line.
fn push_answer(text: &mut String, calls: usize, answer: OrderAnswer) -> Result<(), AllocError> {
    let calls = counted(calls);
    match answer {
        OrderAnswer::Exists => writeln!(text, "{calls}, as the standard says in some order"),
        OrderAnswer::Impossible => writeln!(text, "{calls}, as the standard says in no order"),
        OrderAnswer::Undecided(bound) => writeln!(text, "{calls}, {bound}"),
    }
}

fn counted(count: usize) -> Counted {
    Counted {
        count,
        noun: "call",
    }
}
