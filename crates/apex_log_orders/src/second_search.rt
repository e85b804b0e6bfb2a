//! The search after a first one that decided nothing: what each channel shows by itself is looked at first.
ghost use Rattle.std.specs.Prelude.{◌≡◌, length, IfOk, IsTrue};
ghost use Rattle.apex_log_orders.specs.LogOrders.{HasNoOrder, IsAnswer, IsBeginning, entries_at};
ghost use Rattle.apex_log_orders.specs.Walking.{IsOneOf};

use crate::advice::Advice;
use crate::answer::{Answer, CallPlace, OwnLog};
use crate::by_channel::logs_about;
use crate::progress::Progress;
use crate::search::search;
use apex_module::Config;
use apex_types::OutOfMemory;
use std::alloc::Global;

/// The steps of a search about one channel whose calls seem to have an order: their own partition may refuse them.
const CHANNEL_STEPS: u64 = 10_000_000;

/// Answers like `find_order`. `longest` is the longest beginning that was found before.
pub(crate) fn search_again<P: Progress>(
    alloc: Global,
    config: &Config,
    logs: &[OwnLog],
    advice: &mut Advice,
    steps: u64,
    memory: usize,
    longest: Vec<CallPlace>,
    progress: &mut P,
) -> Result<Answer, OutOfMemory>
    requires logs { length logs.now ≡ length config.now.partitions }
    requires longest { IsBeginning config.now logs.now (entries_at logs.now longest.items) }
    ensures { IfOk result (λ answer. IsAnswer config.now logs.now answer) }
{
    advice.learn_ways(alloc, config, logs);
    for channel in 0..config.channels() {
        let bound = match advice.has_way(channel) {
            Some(true) => steps.min(CHANNEL_STEPS),
            Some(false) => steps,
            None => 0,
        };
        if bound > 0 && has_no_order_on(alloc, config, logs, channel, bound, memory, progress)? {
            return Ok(Answer::NoOrder(longest));
        }
    }
    match search(alloc, config, logs, advice, steps, memory, progress)? {
        Answer::Order(places) => Ok(Answer::Order(places)),
        Answer::NoOrder(other) => Ok(Answer::NoOrder(longer(longest, other))),
        Answer::Undecided(other) => Ok(Answer::Undecided(longer(longest, other))),
    }
}

/// Whether the entries about a channel show that there is no order.
fn has_no_order_on<P: Progress>(
    alloc: Global,
    config: &Config,
    logs: &[OwnLog],
    channel: usize,
    steps: u64,
    memory: usize,
    progress: &mut P,
) -> Result<bool, OutOfMemory>
    requires { length logs.now ≡ length config.now.partitions }
    ensures { IfOk result (λ none. IsTrue none → HasNoOrder config.now logs.now) }
{
    let about = logs_about(alloc, config, channel, logs)?;
    let part = about.as_slice();
    let mut advice = Advice::new(alloc, config, part)?;
    advice.learn_ways(alloc, config, part);
    match search(alloc, config, part, &advice, steps, memory, progress)? {
        Answer::NoOrder(_) => Ok(true),
        _ => Ok(false),
    }
}

/// The longer of two lists of calls.
fn longer(one: Vec<CallPlace>, other: Vec<CallPlace>) -> Vec<CallPlace>
    ensures { IsOneOf one.items other.items result.items }
{
    if other.len() > one.len() { other } else { one }
}
