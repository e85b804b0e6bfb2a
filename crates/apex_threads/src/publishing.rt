//! What a board publishes to observers.
ghost use Rattle.std.specs.Prelude.{◌≡◌, ◌<◌, ◌≤◌, ◌∷◌, ◌++◌, ℕ, [], length, IfOk, OnOk, OnErr, IsOk};
ghost use Rattle.std.specs.Bool.{OnTrue};
ghost use Rattle.apex_module.specs.Configuration.{Configuration};
ghost use Rattle.apex_threads.specs.OnChannels.{AddsChannel, ArePublished};
ghost use Rattle.apex_ports.specs.Services.{length_sent};
ghost use Rattle.apex_observers.specs.Channels.{books_of};
ghost use Rattle.apex_ports.specs.History.{History, entry_of};
ghost use Rattle.apex_ports.specs.Noted.{call_by};
ghost use Rattle.apex_ports.specs.ReplyTable.{reply_to};
ghost use Rattle.apex_ports.specs.Writes.{WritesNothing};

use apex_module::Config;
use apex_observers::Publishers;
use apex_ports::{CallRef, Ports};
use apex_types::{Call, MESSAGE_LIMIT, Moment, OutOfMemory};
use std::alloc::Allocator;
use std::sync::Wait;

/// The number of observers that a channel has room for.
const OBSERVERS: usize = 1;

/// The publishers of a board with the empty log.
pub fn new_publishers<A: Allocator + Copy, R: Wait>(
    rt: &R,
    alloc: A,
    config: &Config,
) -> Result<Publishers<A>, OutOfMemory>
    ensures { IfOk result (λ publishers. ArePublished config.now [] publishers) }
{
    let mut publishers = Publishers::new(alloc);
    for c in 0..config.channels() {
        match add_channel(rt, alloc, config, c, &mut publishers) {
            Ok(()) => {}
            Err(refused) => {
                publishers.close(rt);
                return Err(refused);
            }
        }
    }
    Ok(publishers)
}

/// Adds the publisher of a channel, if it is a sampling channel.
fn add_channel<A: Allocator + Copy, R: Wait>(
    rt: &R,
    alloc: A,
    config: &Config,
    c: usize,
    publishers: &mut Publishers<A>,
) -> Result<(), OutOfMemory>
    requires { c < length config.now.channels }
    ensures { OnOk result (AddsChannel config.now c publishers.old publishers.new) }
{
    if config.channel(c).kind.is_queuing() {
        publishers.add_queuing(rt)
    } else {
        publishers.add_sampling(rt, alloc, OBSERVERS)
    }
}

/// Publishes what a call writes, before the ports answer the call. If memory runs out, nothing is published.
pub fn publish<A: Allocator, B: Allocator, R: Wait>(
    rt: &R,
    publishers: &mut Publishers<A>,
    ports: &Ports<B>,
    partition: usize,
    at: Moment,
    call: &Call,
) -> Result<(), OutOfMemory>
    requires partition { partition < length ports.now.config.partitions }
    requires published { ArePublished ports.now.config ports.now.history publishers.old }
    ensures published { let config = ports.now.config in let history = ports.now.history in
        let reply = reply_to config history partition at call.now in
        OnOk result (ArePublished config
        (history ++ entry_of partition at call.now reply ∷ []) publishers.new) }
    ensures refused { OnErr result (publishers.new ≡ publishers.old) }
    ensures channels { books_of publishers.new ≡ books_of publishers.old }
    ensures succeeds { let config = ports.now.config in let history = ports.now.history in
        WritesNothing config history partition call.now → IsOk result }
{
    match ports.write_of(partition, call) {
        Some((channel, message)) => publishers.publish(rt, channel, message, at),
        None => Ok(()),
    }
}

/// Publishes what a call by reference writes, as `publish` does.
pub fn publish_by<A: Allocator, B: Allocator, R: Wait>(
    rt: &R,
    publishers: &mut Publishers<A>,
    ports: &Ports<B>,
    partition: usize,
    at: Moment,
    call: CallRef<'_>,
) -> Result<(), OutOfMemory>
    requires short { length_sent (call_by call) ≤ MESSAGE_LIMIT }
    requires partition { partition < length ports.now.config.partitions }
    requires published { ArePublished ports.now.config ports.now.history publishers.old }
    ensures published { let config = ports.now.config in let history = ports.now.history in
        let asked = call_by call.entry in let reply = reply_to config history partition at asked in
        OnOk result (ArePublished config
        (history ++ entry_of partition at asked reply ∷ []) publishers.new) }
    ensures refused { OnErr result (publishers.new ≡ publishers.old) }
    ensures channels { books_of publishers.new ≡ books_of publishers.old }
{
    if writes_nothing(call) {
        return Ok(());
    }
    publish_write(rt, publishers, ports, partition, at, call)
}

/// Whether the call is of a service that writes on no channel.
fn writes_nothing(call: CallRef<'_>) -> bool
    ensures { OnTrue result ((config : Configuration) (history : History) (p : ℕ)
        → WritesNothing config history p (call_by call.entry)) }
{
    !matches!(call, CallRef::WriteSampling { .. })
}

// Not inlined, since a function clears the stack room of a call with a message when it begins.
#[inline(never)]
fn publish_write<A: Allocator, B: Allocator, R: Wait>(
    rt: &R,
    publishers: &mut Publishers<A>,
    ports: &Ports<B>,
    partition: usize,
    at: Moment,
    call: CallRef<'_>,
) -> Result<(), OutOfMemory>
    requires short { length_sent (call_by call) ≤ MESSAGE_LIMIT }
    requires partition { partition < length ports.now.config.partitions }
    requires published { ArePublished ports.now.config ports.now.history publishers.old }
    ensures published { let config = ports.now.config in let history = ports.now.history in
        let asked = call_by call.entry in let reply = reply_to config history partition at asked in
        OnOk result (ArePublished config
        (history ++ entry_of partition at asked reply ∷ []) publishers.new) }
    ensures refused { OnErr result (publishers.new ≡ publishers.old) }
    ensures channels { books_of publishers.new ≡ books_of publishers.old }
{
    publish(rt, publishers, ports, partition, at, &call.to_call())
}
