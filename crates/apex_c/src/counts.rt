//! The counts of channels.
ghost use Rattle.std.specs.Prelude.{◌≡◌, ◌<◌, length};
ghost use Rattle.apex_c.specs.Found.{IsPut};
ghost use Rattle.apex_c.specs.Readers.{count_in, count_on};
ghost use Rattle.apex_c.specs.declared.counts.ChannelCount.TheVariants as which;

use crate::found::{channel_of, put};
use crate::handle::Handle;
use apex_ports::Ports;
use std::alloc::Global;

/// What is counted on a channel: the messages accepted, received, cleared or waiting.
#[derive(Clone, Copy)]
pub enum ChannelCount {
    Accepted,
    Received,
    Cleared,
    Waiting,
}

/// How many messages a channel accepted; 0 on a sampling channel. The count stays at the greatest u64.
/// It is put in its place if the answer is `READ`. Answers `READ`, `NOT_OPEN` or `NO_CHANNEL`.
#[unsafe(no_mangle)]
pub extern "C" fn apex_accepted_count(
    alloc: Global,
    handle: &mut Handle,
    channel: u32,
    count: &mut u64,
) -> u32
    ensures count { let found = count_in which.Accepted handle.old.held.ports channel in
        IsPut found result count.old count.new }
    ensures ports { handle.new.held.ports ≡ handle.old.held.ports }
{
    read_count(alloc, handle, channel, ChannelCount::Accepted, count)
}

/// How many messages were received from a channel; 0 on a sampling channel. The count stays at the greatest u64.
/// It is put in its place if the answer is `READ`. Answers `READ`, `NOT_OPEN` or `NO_CHANNEL`.
#[unsafe(no_mangle)]
pub extern "C" fn apex_received_count(
    alloc: Global,
    handle: &mut Handle,
    channel: u32,
    count: &mut u64,
) -> u32
    ensures count { let found = count_in which.Received handle.old.held.ports channel in
        IsPut found result count.old count.new }
    ensures ports { handle.new.held.ports ≡ handle.old.held.ports }
{
    read_count(alloc, handle, channel, ChannelCount::Received, count)
}

/// How many messages of a channel were cleared; 0 on a sampling channel. The count stays at the greatest u64.
/// It is put in its place if the answer is `READ`. Answers `READ`, `NOT_OPEN` or `NO_CHANNEL`.
#[unsafe(no_mangle)]
pub extern "C" fn apex_cleared_count(
    alloc: Global,
    handle: &mut Handle,
    channel: u32,
    count: &mut u64,
) -> u32
    ensures count { let found = count_in which.Cleared handle.old.held.ports channel in
        IsPut found result count.old count.new }
    ensures ports { handle.new.held.ports ≡ handle.old.held.ports }
{
    read_count(alloc, handle, channel, ChannelCount::Cleared, count)
}

/// The number of messages that wait on a channel; 0 for a sampling channel. It is written to its place if the answer is
/// `READ`. Answers `READ`, `NOT_OPEN` or `NO_CHANNEL`.
#[unsafe(no_mangle)]
pub extern "C" fn apex_waiting_count(
    alloc: Global,
    handle: &mut Handle,
    channel: u32,
    count: &mut u64,
) -> u32
    ensures count { let found = count_in which.Waiting handle.old.held.ports channel in
        IsPut found result count.old count.new }
    ensures ports { handle.new.held.ports ≡ handle.old.held.ports }
{
    read_count(alloc, handle, channel, ChannelCount::Waiting, count)
}

fn read_count(
    alloc: Global,
    handle: &mut Handle,
    channel: u32,
    which: ChannelCount,
    count: &mut u64,
) -> u32
    ensures count { let found = count_in which handle.old.held.ports channel in
        IsPut found result count.old count.new }
    ensures ports { handle.new.held.ports ≡ handle.old.held.ports }
{
    let found = handle.read(alloc, |ports| {
        let channel = channel_of(ports, channel)?;
        Ok(count_of_channel(ports, channel, which))
    });
    put(found, count)
}

fn count_of_channel(ports: &Ports, channel: usize, which: ChannelCount) -> u64
    requires { channel < length ports.now.config.channels }
    ensures { result ≡ count_on which ports.now channel }
{
    match which {
        ChannelCount::Accepted => ports.accepted_count(channel),
        ChannelCount::Received => ports.received_count(channel),
        ChannelCount::Cleared => ports.cleared_count(channel),
        ChannelCount::Waiting => ports.waiting_count(channel) as u64,
    }
}
