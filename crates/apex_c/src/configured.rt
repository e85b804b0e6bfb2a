//! What the configuration says: how many partitions, ports and channels there are, and of a port and of a channel.
ghost use Rattle.std.specs.Prelude.{◌≡◌};
ghost use Rattle.std.specs.Result.{result_unwrap_or};
ghost use Rattle.apex_c.specs.Configured.{channel_in, channels_in, partitions_in, port_in, ports_in};
ghost use Rattle.apex_c.specs.Configured.{shown_channel, shown_port};
ghost use Rattle.apex_c.specs.Found.{IsPut, answer_of};

use crate::answer::NO_PORT;
use crate::found::{channel_of, partition_of, put};
use crate::handle::Handle;
use std::alloc::Global;

/// How many partitions the module has, in its place if the answer is `READ`. Answers `READ` or `NOT_OPEN`.
#[unsafe(no_mangle)]
pub extern "C" fn apex_partition_count(alloc: Global, handle: &mut Handle, count: &mut u32) -> u32
    ensures count { IsPut (partitions_in handle.old.held.ports) result count.old count.new }
    ensures ports { handle.new.held.ports ≡ handle.old.held.ports }
{
    let found = handle.read(alloc, |ports| Ok(ports.config().partitions() as u32));
    put(found, count)
}

/// How many channels the module has, in its place if the answer is `READ`. Answers `READ` or `NOT_OPEN`.
#[unsafe(no_mangle)]
pub extern "C" fn apex_channel_count(alloc: Global, handle: &mut Handle, count: &mut u32) -> u32
    ensures count { IsPut (channels_in handle.old.held.ports) result count.old count.new }
    ensures ports { handle.new.held.ports ≡ handle.old.held.ports }
{
    let found = handle.read(alloc, |ports| Ok(ports.config().channels() as u32));
    put(found, count)
}

/// How many ports a partition has, which is its greatest identifier, in its place if the answer is `READ`.
/// Answers `READ`, `NOT_OPEN` or `NO_PARTITION`.
#[unsafe(no_mangle)]
pub extern "C" fn apex_port_count(
    alloc: Global,
    handle: &mut Handle,
    partition: u32,
    count: &mut u32,
) -> u32
    ensures count { IsPut (ports_in handle.old.held.ports partition) result count.old count.new }
    ensures ports { handle.new.held.ports ≡ handle.old.held.ports }
{
    let found = handle.read(alloc, |ports| {
        let partition = partition_of(ports, partition)?;
        Ok(ports.config().ports(partition) as u32)
    });
    put(found, count)
}

/// A port: its refresh period in nanoseconds, 0 of a queuing port; its channel's number; its direction's number; whether
/// it is a queuing or a sampling port.
#[repr(C)]
#[derive(Clone, Copy, Drop)]
pub struct ConfiguredPort {
    pub refresh: u64,
    pub channel: u32,
    pub direction: u32,
    pub is_queuing: bool,
}

/// What the configuration says about a partition's port with an identifier, in its place if the answer is `READ`. Answers
/// `READ`, `NOT_OPEN`, `NO_PARTITION` or `NO_PORT`.
#[unsafe(no_mangle)]
pub extern "C" fn apex_port_configuration(
    alloc: Global,
    handle: &mut Handle,
    partition: u32,
    id: u32,
    shown: &mut ConfiguredPort,
) -> u32
    ensures answer { result ≡ answer_of (port_in shown_port handle.old.held.ports partition id) }
    ensures shown { shown.new
        ≡ result_unwrap_or (port_in shown_port handle.old.held.ports partition id) shown.old }
    ensures ports { handle.new.held.ports ≡ handle.old.held.ports }
{
    let found = handle.read(alloc, |ports| {
        let partition = partition_of(ports, partition)?;
        let port = ports.config().port(partition, id).ok_or(NO_PORT)?;
        Ok(ConfiguredPort {
            refresh: port.kind.refresh(),
            channel: port.channel as u32,
            direction: port.direction.number(),
            is_queuing: port.kind.is_queuing(),
        })
    });
    put(found, shown)
}

/// A channel: its size in bytes; its depth in messages, 0 of a sampling channel; whether it is a queuing or a sampling
/// channel.
#[repr(C)]
#[derive(Clone, Copy, Drop)]
pub struct ConfiguredChannel {
    pub size: u32,
    pub depth: u32,
    pub is_queuing: bool,
}

/// What the configuration says about a channel, in its place if the answer is `READ`. Answers `READ`, `NOT_OPEN` or
/// `NO_CHANNEL`.
#[unsafe(no_mangle)]
pub extern "C" fn apex_channel_configuration(
    alloc: Global,
    handle: &mut Handle,
    channel: u32,
    shown: &mut ConfiguredChannel,
) -> u32
    ensures shown { let found = channel_in shown_channel handle.old.held.ports channel in
        IsPut found result shown.old shown.new }
    ensures ports { handle.new.held.ports ≡ handle.old.held.ports }
{
    let found = handle.read(alloc, |ports| {
        let channel = ports.config().channel(channel_of(ports, channel)?);
        Ok(ConfiguredChannel {
            size: channel.size,
            depth: channel.kind.depth(),
            is_queuing: channel.kind.is_queuing(),
        })
    });
    put(found, shown)
}
