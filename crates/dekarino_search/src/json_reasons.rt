//! Which two calls decide a reply, as a JSON line.
ghost use Rattle.std.specs.Prelude.{◌≡◌, length};

use crate::json::push_object;
use crate::json_departures::reply_text;
use crate::occurrences::order_text;
use crate::reason_text::{CallIndex, two_calls};
use apex_groups::{Decision, Reason};
use apex_module::Config;
use apex_orders::Order;
use apex_ports::Script;
use apex_types::OutOfMemory;
use dekarino_texts::{LineNumbers, line_at, numbers_of, partition_name};
use serde::Serialize;
use std::alloc::{AllocError, Global};

/// A call: the line of its script, from 1.
#[derive(Drop, Serialize)]
struct CallKey {
    partition: String,
    line: usize,
}

/// The answer to a question: the two calls, the reply if the first comes before the second and the other reply, and both
/// orders, a line of a log for each call.
#[derive(Drop, Serialize)]
struct ReasonLine {
    why: String,
    answer: &'static str,
    first: Option<CallKey>,
    second: Option<CallKey>,
    reply: Option<String>,
    other: Option<String>,
    order: Option<Vec<String>>,
    other_order: Option<Vec<String>>,
}

/// The object of a reason, on a line.
pub(crate) fn reason_object(
    alloc: Global,
    config: &Config,
    scripts: &[Script],
    lines: &[LineNumbers],
    words: &str,
    reason: &Reason,
) -> Result<String, OutOfMemory>
    requires { length scripts.now ≡ length config.now.partitions }
{
    let mut text = String::new(alloc);
    match reason {
        Reason::Never => push_word(alloc, &mut text, words, "never")?,
        Reason::Always => push_word(alloc, &mut text, words, "always")?,
        Reason::Decided(decision) => {
            push_decision(alloc, config, scripts, lines, words, decision, &mut text)?
        }
        Reason::Open { given, other } => {
            push_open(alloc, config, scripts, words, given, other, &mut text)?
        }
    }
    Ok(text)
}

/// Writes the object of a question whose search met a bound.
pub(crate) fn push_undecided(
    alloc: Global,
    text: &mut String,
    words: &str,
) -> Result<(), AllocError> {
    push_word(alloc, text, words, "undecided")
}

/// Writes an object with an answer alone.
fn push_word(
    alloc: Global,
    text: &mut String,
    words: &str,
    answer: &'static str,
) -> Result<(), AllocError> {
    let object = ReasonLine {
        why: String::from_str(alloc, words)?,
        answer,
        first: None,
        second: None,
        reply: None,
        other: None,
        order: None,
        other_order: None,
    };
    push_object(alloc, text, &object)
}

fn push_decision(
    alloc: Global,
    config: &Config,
    scripts: &[Script],
    lines: &[LineNumbers],
    words: &str,
    decision: &Decision,
    text: &mut String,
) -> Result<(), OutOfMemory>
    requires { length scripts.now ≡ length config.now.partitions }
{
    let (first, second) = two_calls(decision);
    let order = order_text(alloc, config, scripts, &decision.orders.given_order(alloc)?)?;
    let other_order = order_text(alloc, config, scripts, &decision.orders.other_order(alloc)?)?;
    let object = ReasonLine {
        why: String::from_str(alloc, words)?,
        answer: "decided",
        first: Some(key_of(alloc, config, lines, first)?),
        second: Some(key_of(alloc, config, lines, second)?),
        reply: Some(reply_text(alloc, &decision.given)?),
        other: Some(reply_text(alloc, &decision.other)?),
        order: Some(lines_of(alloc, order.as_str())?),
        other_order: Some(lines_of(alloc, other_order.as_str())?),
    };
    push_object(alloc, text, &object)?;
    Ok(())
}

fn push_open(
    alloc: Global,
    config: &Config,
    scripts: &[Script],
    words: &str,
    given: &Order,
    other: &Order,
    text: &mut String,
) -> Result<(), OutOfMemory>
    requires { length scripts.now ≡ length config.now.partitions }
{
    let order = order_text(alloc, config, scripts, given)?;
    let other_order = order_text(alloc, config, scripts, other)?;
    let object = ReasonLine {
        why: String::from_str(alloc, words)?,
        answer: "undecided",
        first: None,
        second: None,
        reply: None,
        other: None,
        order: Some(lines_of(alloc, order.as_str())?),
        other_order: Some(lines_of(alloc, other_order.as_str())?),
    };
    push_object(alloc, text, &object)?;
    Ok(())
}

fn key_of(
    alloc: Global,
    config: &Config,
    lines: &[LineNumbers],
    call: CallIndex,
) -> Result<CallKey, AllocError> {
    Ok(CallKey {
        partition: String::from_str(alloc, partition_name(config, call.partition))?,
        line: line_at(numbers_of(lines, call.partition), call.index),
    })
}

/// The lines of a text.
fn lines_of(alloc: Global, text: &str) -> Result<Vec<String>, AllocError> {
    let mut lines = Vec::new(alloc);
    for line in text.lines() {
        let line = String::from_str(alloc, line)?;
        if let Err(refused) = lines.push(line) {
            return Err(AllocError::from(refused));
        }
    }
    Ok(lines)
}
