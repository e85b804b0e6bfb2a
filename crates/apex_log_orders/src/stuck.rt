//! Whether no order continues the calls made so far, nor leads past them. This needs no trying: it follows from what a
//! call gets while others made fewer calls, and from what a call to come shows of the other end of its channel.
ghost use Rattle.std.specs.Prelude.{◌≡◌, ◌<◌, length, Some, IsTrue};
ghost use Rattle.apex_log_orders.specs.Prelude.{HasNoClear, asks_clear, is_code_not_available};
ghost use Rattle.apex_log_orders.specs.LogOrders.{HasNoOrder};
ghost use Rattle.apex_log_orders.specs.Stuck.{HaveNoClear, NeverNext, is_own, is_transfer};
ghost use Rattle.apex_log_orders.specs.Walking.{IsWalk, next_of};

use crate::advice::Advice;
use crate::answer::OwnLog;
use crate::reads::is_read_held;
use crate::too_soon::comes_too_soon;
use crate::walk::Walk;
use apex_module::Config;
use apex_ports::Entry;
use apex_types::{Call, Reply, ReturnCode};

/// Whether this shows that there is no order.
pub(crate) fn is_stuck(config: &Config, logs: &[OwnLog], advice: &Advice, walk: &Walk) -> bool
    requires walk { IsWalk config.now logs.now walk.now }
    requires clears { HaveNoClear logs.now }
    ensures { IsTrue result → HasNoOrder config.now logs.now }
{
    if walk.has_made_all(config, logs) {
        return false;
    }
    for p in 0..config.partitions() {
        if !is_never_next(config, logs, advice, walk, p) {
            return false;
        }
    }
    true
}

/// Whether this shows that no order continues with the partition's next call before another partition's.
fn is_never_next(config: &Config, logs: &[OwnLog], advice: &Advice, walk: &Walk, p: usize) -> bool
    requires walk { IsWalk config.now logs.now walk.now }
    requires clears { HaveNoClear logs.now }
    requires partition { p < length config.now.partitions }
    ensures { IsTrue result → NeverNext config.now logs.now walk.now.judge.log p }
{
    let Some(entry) = walk.next(config, logs, p) else {
        return true;
    };
    if entry.partition != p {
        return true;
    }
    if is_held(config, logs, walk, p, entry) || is_read_held(config, logs, walk, p, entry) {
        return true;
    }
    match advice.hindered(walk.made.as_slice(), p) {
        Some(place) => comes_too_soon(config, logs, walk, p, entry, place),
        None => false,
    }
}

/// Whether the partition can't make its next call before another partition's. It logged another reply than it gets now,
/// and the others don't affect the reply; or it sends or receives, and got before what it gets now, or found no message
/// or no room, which is not what it logged.
fn is_held(config: &Config, logs: &[OwnLog], walk: &Walk, p: usize, entry: &Entry) -> bool
    requires walk { IsWalk config.now logs.now walk.now }
    requires clears { HaveNoClear logs.now }
    requires partition { p < length config.now.partitions }
    requires next { next_of logs.now walk.now.judge.log p ≡ Some entry.now }
    ensures { IsTrue result → NeverNext config.now logs.now walk.now.judge.log p }
{
    if walk.judge.agrees(p, entry.at, &entry.call, &entry.reply) {
        return false;
    }
    if is_own(&entry.call) {
        return true;
    }
    if !is_transfer(&entry.call) {
        return false;
    }
    if is_not_available(&entry.reply) {
        return false;
    }
    true
}

/// Whether the reply is independent of the other partitions.
fn is_own(call: &Call) -> bool
    ensures { result ≡ is_own call.now }
{
    !matches!(
        call,
        Call::SendQueuing { .. }
            | Call::ReceiveQueuing { .. }
            | Call::QueuingStatus { .. }
            | Call::ReadSampling { .. }
    )
}

/// Whether a message is sent or received.
fn is_transfer(call: &Call) -> bool
    ensures { result ≡ is_transfer call.now }
{
    matches!(call, Call::SendQueuing { .. } | Call::ReceiveQueuing { .. })
}

/// Whether it is the bare code NOT_AVAILABLE.
pub(crate) fn is_not_available(reply: &Reply) -> bool
    ensures { result ≡ is_code_not_available reply.now }
{
    matches!(reply, Reply::Code(ReturnCode::NotAvailable))
}

/// Whether no log has a call of CLEAR_QUEUING_PORT.
pub(crate) fn have_no_clear(logs: &[OwnLog]) -> bool
    ensures { IsTrue result → HaveNoClear logs.now }
{
    for log in logs {
        if !has_no_clear(log) {
            return false;
        }
    }
    true
}

fn has_no_clear(log: &OwnLog) -> bool
    ensures { IsTrue result → HasNoClear log.now }
{
    for entry in log.entries.iter() {
        if asks_clear(&entry.call) {
            return false;
        }
    }
    true
}

fn asks_clear(call: &Call) -> bool
    ensures { result ≡ asks_clear call.now }
{
    matches!(call, Call::ClearQueuing { .. })
}
