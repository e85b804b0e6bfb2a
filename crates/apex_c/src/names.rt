//! The names of partitions, ports and channels by number, and their numbers by name.
ghost use Rattle.std.specs.Prelude.{◌≡◌, length};
ghost use Rattle.apex_c.specs.Configured.{channel_by, id_by, partition_by};
ghost use Rattle.apex_c.specs.Configured.{channel_name, partition_name, port_name};
ghost use Rattle.apex_c.specs.Configured.{channel_name_in, partition_name_in, port_name_in};
ghost use Rattle.apex_c.specs.Found.{IsPut, for_buffer};
ghost use Rattle.apex_c.specs.Places.{AreBytesPut};

use crate::answer::{NO_NAME, NO_PORT, READ, SHORT_BUFFER, UNKNOWN_NAME};
use crate::buffer::copy_bytes;
use crate::found::{channel_of, partition_of, put};
use crate::handle::Handle;
use apex_types::{NAME_LIMIT, Name};
use std::alloc::Global;

/// The name of a partition. If the answer is `READ`, it is in the buffer's first bytes, and its length in
/// its place. Answers `READ`, `SHORT_BUFFER`, `NOT_OPEN` or `NO_PARTITION`.
#[unsafe(no_mangle)]
pub extern "C" fn apex_partition_name(
    alloc: Global,
    handle: &mut Handle,
    partition: u32,
    buffer: &mut [u8],
    name_length: &mut u32,
) -> u32
    ensures name { let name =
        partition_name_in (length buffer.old) handle.old.held.ports partition in
        AreBytesPut name result buffer.old buffer.new name_length.old name_length.new }
    ensures ports { handle.new.held.ports ≡ handle.old.held.ports }
{
    let name = partition_name(alloc, handle, partition);
    put_name(name, buffer, name_length)
}

/// The name of a partition's port of an identifier. If the answer is `READ`, it is in the buffer's first
/// bytes, and its length in its place. Answers `READ`, `SHORT_BUFFER`, `NOT_OPEN`, `NO_PARTITION` or `NO_PORT`.
#[unsafe(no_mangle)]
pub extern "C" fn apex_port_name(
    alloc: Global,
    handle: &mut Handle,
    partition: u32,
    id: u32,
    buffer: &mut [u8],
    name_length: &mut u32,
) -> u32
    ensures name { let name = port_name_in (length buffer.old) handle.old.held.ports partition id in
        AreBytesPut name result buffer.old buffer.new name_length.old name_length.new }
    ensures ports { handle.new.held.ports ≡ handle.old.held.ports }
{
    let name = port_name(alloc, handle, partition, id);
    put_name(name, buffer, name_length)
}

/// The name of a channel. If the answer is `READ`, it is in the buffer's first bytes, and its length in its
/// place. Answers `READ`, `SHORT_BUFFER`, `NOT_OPEN` or `NO_CHANNEL`.
#[unsafe(no_mangle)]
pub extern "C" fn apex_channel_name(
    alloc: Global,
    handle: &mut Handle,
    channel: u32,
    buffer: &mut [u8],
    name_length: &mut u32,
) -> u32
    ensures name { let name = channel_name_in (length buffer.old) handle.old.held.ports channel in
        AreBytesPut name result buffer.old buffer.new name_length.old name_length.new }
    ensures ports { handle.new.held.ports ≡ handle.old.held.ports }
{
    let name = channel_name(alloc, handle, channel);
    put_name(name, buffer, name_length)
}

/// The number of the partition of a name, in its place if the answer is `READ`. Answers `READ`, `NO_NAME`,
/// `NOT_OPEN` or `UNKNOWN_NAME`.
#[unsafe(no_mangle)]
pub extern "C" fn apex_find_partition(
    alloc: Global,
    handle: &mut Handle,
    name: &[u8],
    partition: &mut u32,
) -> u32
    ensures partition { let found = partition_by handle.old.held.ports name.now in
        IsPut found result partition.old partition.new }
    ensures ports { handle.new.held.ports ≡ handle.old.held.ports }
{
    let Ok(name) = Name::from_bytes(name) else {
        return NO_NAME;
    };
    let found = handle.read(alloc, |ports| {
        let number = ports.config().partition(&name).ok_or(UNKNOWN_NAME)?;
        Ok(number as u32)
    });
    put(found, partition)
}

/// The identifier of the partition's port of a name, in its place if the answer is `READ`, whether the port was
/// created or not. Answers `READ`, `NO_NAME`, `NOT_OPEN`, `NO_PARTITION` or `UNKNOWN_NAME`.
#[unsafe(no_mangle)]
pub extern "C" fn apex_find_port(
    alloc: Global,
    handle: &mut Handle,
    partition: u32,
    name: &[u8],
    id: &mut u32,
) -> u32
    ensures id { IsPut (id_by handle.old.held.ports partition name.now) result id.old id.new }
    ensures ports { handle.new.held.ports ≡ handle.old.held.ports }
{
    let Ok(name) = Name::from_bytes(name) else {
        return NO_NAME;
    };
    let found = handle.read(alloc, |ports| {
        let partition = partition_of(ports, partition)?;
        ports
            .config()
            .port_named(partition, &name)
            .ok_or(UNKNOWN_NAME)
    });
    put(found, id)
}

/// The number of the channel of a name, in its place if the answer is `READ`. Answers `READ`, `NO_NAME`,
/// `NOT_OPEN` or `UNKNOWN_NAME`.
#[unsafe(no_mangle)]
pub extern "C" fn apex_find_channel(
    alloc: Global,
    handle: &mut Handle,
    name: &[u8],
    channel: &mut u32,
) -> u32
    ensures channel { let found = channel_by handle.old.held.ports name.now in
        IsPut found result channel.old channel.new }
    ensures ports { handle.new.held.ports ≡ handle.old.held.ports }
{
    let Ok(name) = Name::from_bytes(name) else {
        return NO_NAME;
    };
    let found = handle.read(alloc, |ports| {
        let number = ports.config().channel_named(&name).ok_or(UNKNOWN_NAME)?;
        Ok(number as u32)
    });
    put(found, channel)
}

fn partition_name(alloc: Global, handle: &mut Handle, partition: u32) -> Result<Name, u32>
    ensures found { result ≡ partition_name handle.old.held.ports partition }
    ensures ports { handle.new.held.ports ≡ handle.old.held.ports }
{
    handle.read(alloc, |ports| {
        let partition = partition_of(ports, partition)?;
        Ok(ports.config().partition_name(partition).copy())
    })
}

fn port_name(alloc: Global, handle: &mut Handle, partition: u32, id: u32) -> Result<Name, u32>
    ensures found { result ≡ port_name handle.old.held.ports partition id }
    ensures ports { handle.new.held.ports ≡ handle.old.held.ports }
{
    handle.read(alloc, |ports| {
        let partition = partition_of(ports, partition)?;
        let port = ports.config().port(partition, id).ok_or(NO_PORT)?;
        Ok(port.name.copy())
    })
}

fn channel_name(alloc: Global, handle: &mut Handle, channel: u32) -> Result<Name, u32>
    ensures found { result ≡ channel_name handle.old.held.ports channel }
    ensures ports { handle.new.held.ports ≡ handle.old.held.ports }
{
    handle.read(alloc, |ports| {
        let channel = channel_of(ports, channel)?;
        Ok(ports.config().channel(channel).name.copy())
    })
}

// Puts a name into the buffer's first bytes, and its length into its place, if the buffer has room for any name.
fn put_name(name: Result<Name, u32>, buffer: &mut [u8], name_length: &mut u32) -> u32
    ensures { let name = for_buffer NAME_LIMIT (length buffer.old) name in
        AreBytesPut name result buffer.old buffer.new name_length.old name_length.new }
{
    if buffer.len() < NAME_LIMIT {
        return SHORT_BUFFER;
    }
    match name {
        Ok(name) => {
            *name_length = copy_bytes(name.bytes(), buffer);
            READ
        }
        Err(number) => number,
    }
}
