//! The ends of queuing channels, and how far the first calls of a log advance them.
ghost use Rattle.std.specs.Prelude.{◌≡◌, ◌≤◌, if◌then◌else◌, length, take, IfSome};
ghost use Rattle.apex_log_orders.specs.Prelude.{option_to_list, accepted_on, received_on, message_accepted, message_received, is_code_no_error, is_source_of, is_destination_of, port_of};
ghost use Rattle.apex_log_orders.specs.Stuck.{HasEnd};

use crate::answer::OwnLog;
use apex_module::{Config, PortKind};
use apex_ports::Entry;
use apex_types::{Call, Direction, Reply, ReturnCode};

/// The queuing channel that has the partition's port as this end.
pub(crate) fn queuing_end(config: &Config, p: usize, id: u32, way: Direction) -> Option<usize>
    ensures { IfSome result (λ c. HasEnd config.now c p id way) }
{
    let port = config.port(p, id)?;
    match port.kind {
        PortKind::Queuing if port.direction == way => Some(port.channel),
        _ => None,
    }
}

/// How many of the first `n` entries are messages that the channel accepted.
pub(crate) fn count_accepted(config: &Config, channel: usize, log: &OwnLog, n: usize) -> usize
    requires { n ≤ length log.now }
    ensures { result ≡ length (accepted_on config.now channel (take n log.now)) }
{
    let mut count = 0;
    for i in 0..n {
        if is_accepted_on(config, channel, &log.entries[i]) {
            count += 1;
        }
    }
    count
}

/// How many of the first `n` entries received a message of the channel.
pub(crate) fn count_received(config: &Config, channel: usize, log: &OwnLog, n: usize) -> usize
    requires { n ≤ length log.now }
    ensures { result ≡ length (received_on config.now channel (take n log.now)) }
{
    let mut count = 0;
    for i in 0..n {
        if is_received_on(config, channel, &log.entries[i]) {
            count += 1;
        }
    }
    count
}

/// Whether the entry is a message that the channel accepted.
fn is_accepted_on(config: &Config, channel: usize, entry: &Entry) -> bool
    ensures { length (option_to_list (message_accepted config.now channel entry.now))
        ≡ (if result then 1 else 0) }
{
    match &entry.call {
        Call::SendQueuing { id, .. } => {
            is_no_error(&entry.reply) && is_source_of(config, channel, entry.partition, *id)
        }
        _ => false,
    }
}

/// Whether the entry received a message of the channel.
fn is_received_on(config: &Config, channel: usize, entry: &Entry) -> bool
    ensures { length (option_to_list (message_received config.now channel entry.now))
        ≡ (if result then 1 else 0) }
{
    match (&entry.call, &entry.reply) {
        (Call::ReceiveQueuing { id }, Reply::Received(_)) => {
            is_destination_of(config, channel, entry.partition, *id)
        }
        _ => false,
    }
}

pub(crate) fn is_no_error(reply: &Reply) -> bool
    ensures { result ≡ is_code_no_error reply.now }
{
    matches!(reply, Reply::Code(ReturnCode::NoError))
}

/// Whether the partition's port is the source of the channel.
pub(crate) fn is_source_of(config: &Config, channel: usize, p: usize, id: u32) -> bool
    ensures { result ≡ is_source_of channel (port_of config.now p id) }
{
    match config.port(p, id) {
        Some(port) => matches!(port.direction, Direction::Source) && port.channel == channel,
        None => false,
    }
}

fn is_destination_of(config: &Config, channel: usize, p: usize, id: u32) -> bool
    ensures { result ≡ is_destination_of channel (port_of config.now p id) }
{
    match config.port(p, id) {
        Some(port) => matches!(port.direction, Direction::Destination) && port.channel == channel,
        None => false,
    }
}
