//! Reads of messages that no call made so far has written.
ghost use Rattle.std.specs.Prelude.{◌≡◌, ◌<◌, ◌≤◌, length, Some, IsTrue};
ghost use Rattle.apex_log_orders.specs.Stuck.{HaveNoClear, NeverNext, NoneWrites, Writes};
ghost use Rattle.apex_log_orders.specs.Walking.{IsWalk, next_of};

use crate::answer::OwnLog;
use crate::ends::is_source_of;
use crate::walk::Walk;
use apex_module::Config;
use apex_ports::Entry;
use apex_types::{Call, Message, Reply};

/// Whether the partition's next call is a read that showed a message that no call made so far has written.
#[tactic(auto, using(crate::proofs::ReadLemmas::read_held))]
pub(crate) fn is_read_held(
    config: &Config,
    logs: &[OwnLog],
    walk: &Walk,
    p: usize,
    entry: &Entry,
) -> bool
    requires walk { IsWalk config.now logs.now walk.now }
    requires clears { HaveNoClear logs.now }
    requires partition { p < length config.now.partitions }
    requires next { next_of logs.now walk.now.judge.log p ≡ Some entry.now }
    ensures { IsTrue result → NeverNext config.now logs.now walk.now.judge.log p }
{
    let Call::ReadSampling { id } = &entry.call else {
        return false;
    };
    let Reply::Read { message, .. } = &entry.reply else {
        return false;
    };
    let Some(port) = config.port(p, *id) else {
        return false;
    };
    for q in 0..config.partitions() {
        if !none_writes(config, port.channel, message, &logs[q], 0, walk.made[q]) {
            return false;
        }
    }
    true
}

/// Whether none of the entries from `first` up to `past` requests to write the message to the channel.
pub(crate) fn none_writes(
    config: &Config,
    channel: usize,
    message: &Message,
    log: &OwnLog,
    first: usize,
    past: usize,
) -> bool
    requires { past ≤ length log.now }
    ensures { IsTrue result → NoneWrites config.now channel message.now log.now first past }
{
    for k in first..past {
        if writes(config, channel, message, &log.entries[k]) {
            return false;
        }
    }
    true
}

/// Whether the entry requests to write the message to the channel.
fn writes(config: &Config, channel: usize, message: &Message, entry: &Entry) -> bool
    ensures { ¬ IsTrue result → ¬ Writes config.now channel message.now entry.now }
{
    match &entry.call {
        Call::WriteSampling {
            id,
            message: written,
        } => {
            is_source_of(config, channel, entry.partition, *id)
                && written.bytes() == message.bytes()
        }
        _ => false,
    }
}
