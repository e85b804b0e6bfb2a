//! Calls that would come too soon: after them a call to come can no longer get its logged reply.
ghost use Rattle.std.specs.Prelude.{◌≡◌, ◌<◌, length, Some, IsTrue};
ghost use Rattle.apex_log_orders.specs.Stuck.{ArePair, HaveNoClear, NeverNext};
ghost use Rattle.apex_log_orders.specs.Walking.{IsWalk, next_of};

use crate::answer::{CallPlace, OwnLog};
use crate::ends::{count_accepted, count_received, is_no_error, queuing_end};
use crate::stuck::is_not_available;
use crate::walk::Walk;
use apex_module::Config;
use apex_ports::Entry;
use apex_types::{Call, Direction, Reply};

/// Whether the partition's next call comes too soon for the call at a place: a send before a receive that found no
/// message, or a receive before a send that found no room.
pub(crate) fn comes_too_soon(
    config: &Config,
    logs: &[OwnLog],
    walk: &Walk,
    p: usize,
    entry: &Entry,
    place: CallPlace,
) -> bool
    requires walk { IsWalk config.now logs.now walk.now }
    requires clears { HaveNoClear logs.now }
    requires partition { p < length config.now.partitions }
    requires next { next_of logs.now walk.now.judge.log p ≡ Some entry.now }
    requires own { entry.now.partition ≡ p }
    ensures { IsTrue result → NeverNext config.now logs.now walk.now.judge.log p }
{
    let q = place.partition;
    if q >= config.partitions() {
        return false;
    }
    let log = &logs[q];
    let Some(later) = log.entries.get(place.index) else {
        return false;
    };
    if walk.made[q] > place.index
        || !is_not_available(&later.reply)
        || is_not_available(&entry.reply)
    {
        return false;
    }
    sends_too_soon(config, logs, walk, p, entry, place, later)
        || receives_too_soon(config, logs, walk, p, entry, place, later)
}

/// Whether the next call is a send after which a receive to come finds a message.
fn sends_too_soon(
    config: &Config,
    logs: &[OwnLog],
    walk: &Walk,
    p: usize,
    entry: &Entry,
    place: CallPlace,
    later: &Entry,
) -> bool
    requires walk { IsWalk config.now logs.now walk.now }
    requires clears { HaveNoClear logs.now }
    requires partition { p < length config.now.partitions }
    requires other { place.partition < length config.now.partitions }
    requires pair { ArePair logs.now walk.now.judge.log p entry.now place later.now }
    ensures { IsTrue result → NeverNext config.now logs.now walk.now.judge.log p }
{
    let Call::SendQueuing { id, .. } = &entry.call else {
        return false;
    };
    let Call::ReceiveQueuing { id: other } = &later.call else {
        return false;
    };
    let Some(source) = queuing_end(config, p, *id, Direction::Source) else {
        return false;
    };
    let Some(destination) = queuing_end(config, place.partition, *other, Direction::Destination)
    else {
        return false;
    };
    if source != destination || !is_no_error(&entry.reply) {
        return false;
    }
    let received = count_received(config, source, &logs[place.partition], place.index);
    let accepted = count_accepted(config, source, &logs[p], walk.made[p]);
    if received > accepted {
        return false;
    }
    true
}

/// Whether the next call is a receive after which a send to come finds room.
fn receives_too_soon(
    config: &Config,
    logs: &[OwnLog],
    walk: &Walk,
    p: usize,
    entry: &Entry,
    place: CallPlace,
    later: &Entry,
) -> bool
    requires walk { IsWalk config.now logs.now walk.now }
    requires clears { HaveNoClear logs.now }
    requires partition { p < length config.now.partitions }
    requires other { place.partition < length config.now.partitions }
    requires pair { ArePair logs.now walk.now.judge.log p entry.now place later.now }
    ensures { IsTrue result → NeverNext config.now logs.now walk.now.judge.log p }
{
    let Call::ReceiveQueuing { id } = &entry.call else {
        return false;
    };
    let Call::SendQueuing { id: other, .. } = &later.call else {
        return false;
    };
    let Some(destination) = queuing_end(config, p, *id, Direction::Destination) else {
        return false;
    };
    let Some(source) = queuing_end(config, place.partition, *other, Direction::Source) else {
        return false;
    };
    let Reply::Received(_) = &entry.reply else {
        return false;
    };
    if source != destination {
        return false;
    }
    let accepted = count_accepted(config, source, &logs[place.partition], place.index);
    let received = count_received(config, source, &logs[p], walk.made[p]);
    let depth = config.channel(source).kind.depth() as usize;
    if accepted.saturating_sub(depth) > received {
        return false;
    }
    true
}
