//! The text of which two calls decide a reply.
ghost use Rattle.std.specs.Prelude.{◌≡◌, length};

use crate::occurrences::order_text;
use apex_groups::{Decision, Reason};
use apex_module::Config;
use apex_orders::{Asked, Order};
use apex_ports::{ReplyRef, Script};
use apex_texts::push_reply;
use apex_types::{Moment, OutOfMemory};
use apex_words::push_call;
use dekarino_texts::{LineNumbers, line_at, numbers_of, partition_name};
use std::alloc::{AllocError, Global};

/// A call: its partition, and its index in the partition's script.
#[derive(Clone, Copy, Debug, PartialEq, Eq)]
pub(crate) struct CallIndex {
    pub(crate) partition: usize,
    pub(crate) index: usize,
}

/// Two calls, and whether the first comes before the second if the asked call gets an admitted reply.
#[derive(Clone, Copy)]
struct Race {
    one: CallIndex,
    is_before: bool,
    other: CallIndex,
}

/// The text of a reason: the two calls and both orders as logs; or a line that says why there are no such calls.
pub(crate) fn reason_text(
    alloc: Global,
    config: &Config,
    scripts: &[Script],
    lines: &[LineNumbers],
    asked: &Asked,
    reason: &Reason,
) -> Result<String, OutOfMemory>
    requires { length scripts.now ≡ length config.now.partitions }
{
    match reason {
        Reason::Never => Ok(String::from_str(alloc, "never: no order gives such a reply\n")?),
        Reason::Always => Ok(String::from_str(alloc, "always: every order gives such a reply\n")?),
        Reason::Decided(decision) => {
            decision_text(alloc, config, scripts, lines, asked, decision)
        }
        Reason::Open { given, other } => open_text(alloc, config, scripts, given, other),
    }
}

/// The indexes of the two calls of a decision.
pub(crate) fn two_calls(decision: &Decision) -> (CallIndex, CallIndex) {
    let orders = &decision.orders;
    let (mut first, mut second): (usize, usize) = (0, 0);
    for p in orders.before.iter() {
        if *p == orders.first {
            first = first.saturating_add(1);
        }
        if *p == orders.second {
            second = second.saturating_add(1);
        }
    }
    (
        CallIndex {
            partition: orders.first,
            index: first,
        },
        CallIndex {
            partition: orders.second,
            index: second,
        },
    )
}

fn decision_text(
    alloc: Global,
    config: &Config,
    scripts: &[Script],
    lines: &[LineNumbers],
    asked: &Asked,
    decision: &Decision,
) -> Result<String, OutOfMemory>
    requires { length scripts.now ≡ length config.now.partitions }
{
    let race = race_of(asked, decision);
    let mut text = String::new(alloc);
    push_decision(&mut text, config, scripts, lines, asked, decision, race)?;
    let (word, opposite) = words_of(race);
    let given = decision.orders.given_order(alloc)?;
    push_heading(&mut text, config, lines, race, word)?;
    text.push_str(order_text(alloc, config, scripts, &given)?.as_str())?;
    let other = decision.orders.other_order(alloc)?;
    push_heading(&mut text, config, lines, race, opposite)?;
    text.push_str(order_text(alloc, config, scripts, &other)?.as_str())?;
    Ok(text)
}

/// The two calls, the asked one first if it is one of them.
fn race_of(asked: &Asked, decision: &Decision) -> Race {
    let (first, second) = two_calls(decision);
    if is_asked(asked, second) {
        Race {
            one: second,
            is_before: false,
            other: first,
        }
    } else {
        Race {
            one: first,
            is_before: true,
            other: second,
        }
    }
}

fn is_asked(asked: &Asked, call: CallIndex) -> bool {
    call.partition == asked.partition && call.index == asked.index
}

/// The word for where the one call is in the first order, and that for the second.
fn words_of(race: Race) -> (&'static str, &'static str) {
    if race.is_before {
        ("before", "after")
    } else {
        ("after", "before")
    }
}

/// Writes `CALL -> REPLY if it comes before CALL, REPLY if after`, with the one call in place of `it` if that is another.
fn push_decision(
    text: &mut String,
    config: &Config,
    scripts: &[Script],
    lines: &[LineNumbers],
    asked: &Asked,
    decision: &Decision,
    race: Race,
) -> Result<(), AllocError> {
    let asked_call = CallIndex {
        partition: asked.partition,
        index: asked.index,
    };
    let (word, opposite) = words_of(race);
    push_whole(text, config, scripts, lines, asked_call)?;
    text.push_str(" -> ")?;
    push_reply(text, ReplyRef::of(&decision.given))?;
    text.push_str(" if ")?;
    if is_asked(asked, race.one) {
        text.push_str("it")?;
    } else {
        push_whole(text, config, scripts, lines, race.one)?;
    }
    write!(text, " comes {word} ")?;
    push_whole(text, config, scripts, lines, race.other)?;
    text.push_str(", ")?;
    push_reply(text, ReplyRef::of(&decision.other))?;
    writeln!(text, " if {opposite}")
}

/// Writes `# NAME:LINE before NAME:LINE`, or with `after`.
fn push_heading(
    text: &mut String,
    config: &Config,
    lines: &[LineNumbers],
    race: Race,
    word: &str,
) -> Result<(), AllocError> {
    text.push_str("# ")?;
    push_place(text, config, lines, race.one)?;
    write!(text, " {word} ")?;
    push_place(text, config, lines, race.other)?;
    text.push('\n')
}

/// Writes `NAME:LINE`.
fn push_place(
    text: &mut String,
    config: &Config,
    lines: &[LineNumbers],
    call: CallIndex,
) -> Result<(), AllocError> {
    let line = line_at(numbers_of(lines, call.partition), call.index);
    write!(text, "{}:{line}", partition_name(config, call.partition))
}

/// Writes `NAME:LINE MOMENT CALL ARGUMENTS`.
fn push_whole(
    text: &mut String,
    config: &Config,
    scripts: &[Script],
    lines: &[LineNumbers],
    call: CallIndex,
) -> Result<(), AllocError> {
    push_place(text, config, lines, call)?;
    let Some(script) = scripts.get(call.partition) else {
        return Ok(());
    };
    let Some((Moment(at), made)) = script.calls.get(call.index) else {
        return Ok(());
    };
    write!(text, " {at} ")?;
    push_call(text, made)
}

fn open_text(
    alloc: Global,
    config: &Config,
    scripts: &[Script],
    given: &Order,
    other: &Order,
) -> Result<String, OutOfMemory>
    requires { length scripts.now ≡ length config.now.partitions }
{
    let mut text = String::new(alloc);
    text.push_str("undecided: between these orders no two calls were found that decide\n")?;
    text.push_str("# with such a reply\n")?;
    text.push_str(order_text(alloc, config, scripts, given)?.as_str())?;
    text.push_str("# with another reply\n")?;
    text.push_str(order_text(alloc, config, scripts, other)?.as_str())?;
    Ok(text)
}
