//! What the logs have about one channel. If that has no order, all entries have none: what a call about a channel gets
//! depends on its own partition's mode and ports, and on calls about the channel.
ghost use Rattle.std.specs.Prelude.{◌≡◌, length, IfOk, IsTrue};
ghost use Rattle.apex_log_orders.specs.ByChannel.{about, has_end, id_used, is_about, logs_about};
ghost use Rattle.apex_log_orders.specs.LogOrders.{HasNoOrder};

use crate::answer::OwnLog;
use apex_module::Config;
use apex_ports::Entry;
use apex_types::Call;
use std::alloc::{AllocError, Global};

/// The logs without what isn't about the channel.
pub(crate) fn logs_about(
    alloc: Global,
    config: &Config,
    channel: usize,
    logs: &[OwnLog],
) -> Result<Vec<OwnLog>, AllocError>
    ensures logs { IfOk result
        (λ part. part.items ≡ logs_about config.now channel logs.now) }
    ensures enough { IfOk result (λ part. HasNoOrder config.now part.items
        → HasNoOrder config.now logs.now) }
{
    let mut part = Vec::with_capacity(alloc, logs.len())?;
    for log in logs {
        part.push(log_about(alloc, config, channel, log)?)?;
    }
    Ok(part)
}

/// A log without what isn't about the channel.
fn log_about(
    alloc: Global,
    config: &Config,
    channel: usize,
    log: &OwnLog,
) -> Result<OwnLog, AllocError>
    ensures { IfOk result (λ part. part ≡ about config.now channel log.now) }
{
    let mut entries = Vec::new(alloc);
    for entry in log.entries.iter() {
        if is_about(config, channel, entry) {
            entries.push(copy_of(entry))?;
        }
    }
    Ok(OwnLog { entries })
}

/// Whether the entry's partition is at the channel, and its call uses no port of another channel.
fn is_about(config: &Config, channel: usize, entry: &Entry) -> bool
    ensures { result ≡ is_about config.now channel entry.now }
{
    if !has_end(config, channel, entry.partition) {
        return false;
    }
    let Some(id) = id_used(&entry.call) else {
        return true;
    };
    match config.port(entry.partition, id) {
        Some(port) => port.channel == channel,
        None => true,
    }
}

/// Whether the partition has a port of the channel.
pub(crate) fn has_end(config: &Config, channel: usize, p: usize) -> bool
    ensures { result ≡ has_end config.now channel p }
{
    if p >= config.partitions() {
        return false;
    }
    for index in 0..config.ports(p) {
        if let Some(port) = config.port(p, index as u32 + 1) {
            if port.channel == channel {
                return true;
            }
        }
    }
    false
}

/// The identifier of the port that the call uses.
fn id_used(call: &Call) -> Option<u32>
    ensures { result ≡ id_used call.now }
{
    match call {
        Call::WriteSampling { id, .. } => Some(*id),
        Call::ReadSampling { id } => Some(*id),
        Call::SamplingStatus { id } => Some(*id),
        Call::SendQueuing { id, .. } => Some(*id),
        Call::ReceiveQueuing { id } => Some(*id),
        Call::QueuingStatus { id } => Some(*id),
        Call::ClearQueuing { id } => Some(*id),
        _ => None,
    }
}

fn copy_of(entry: &Entry) -> Entry
    ensures { result ≡ entry.now }
{
    Entry {
        partition: entry.partition,
        at: entry.at,
        call: entry.call.copy(),
        reply: entry.reply.copy(),
    }
}
