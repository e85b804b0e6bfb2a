//! What the ports show to C of partitions and of messages. A reader adds nothing to the history.
ghost use Rattle.std.specs.Prelude.{◌≡◌, length};
ghost use Rattle.apex_c.specs.Found.{IsPut, answer_of};
ghost use Rattle.apex_c.specs.Places.{AreBytesPut, IsMessagePut};
ghost use Rattle.apex_c.specs.Readers.{calls_in, mode_in};
ghost use Rattle.apex_c.specs.Readers.{message_of, moment_after, sample_in, waiting_in};

use crate::answer::{NO_CHANNEL, NO_MESSAGE, NO_SAMPLE, NOT_OPEN, READ, SHORT_BUFFER};
use crate::buffer::copy_bytes;
use crate::found::{partition_of, put};
use crate::handle::Handle;
use apex_types::MESSAGE_LIMIT;
use std::alloc::Global;

/// The number of a partition's mode, in its place if the answer is `READ`. Answers `READ`, `NOT_OPEN` or
/// `NO_PARTITION`.
#[unsafe(no_mangle)]
pub extern "C" fn apex_partition_mode(
    alloc: Global,
    handle: &mut Handle,
    partition: u32,
    mode: &mut u32,
) -> u32
    ensures mode { IsPut (mode_in handle.old.held.ports partition) result mode.old mode.new }
    ensures ports { handle.new.held.ports ≡ handle.old.held.ports }
{
    let found = handle.read(alloc, |ports| {
        let partition = partition_of(ports, partition)?;
        Ok(ports.mode(partition).number())
    });
    put(found, mode)
}

/// How many calls a partition made, those that were not made included; the count stays at the greatest u64. It is put
/// in its place if the answer is `READ`. Answers `READ`, `NOT_OPEN` or `NO_PARTITION`.
#[unsafe(no_mangle)]
pub extern "C" fn apex_call_count(
    alloc: Global,
    handle: &mut Handle,
    partition: u32,
    count: &mut u64,
) -> u32
    ensures count { IsPut (calls_in handle.old.held.ports partition) result count.old count.new }
    ensures ports { handle.new.held.ports ≡ handle.old.held.ports }
{
    let found = handle.read(alloc, |ports| {
        let partition = partition_of(ports, partition)?;
        Ok(ports.calls(partition))
    });
    put(found, count)
}

/// The message that a sampling channel holds. If the answer is `READ`, the message is in the buffer's first bytes,
/// and its length and the moment of its writing, in nanoseconds, in their places. Answers `READ`, `NOT_OPEN`,
/// `NO_CHANNEL`, `SHORT_BUFFER`, or `NO_SAMPLE` on a queuing channel or before the first write.
#[unsafe(no_mangle)]
pub extern "C" fn apex_last_sample(
    alloc: Global,
    handle: &mut Handle,
    channel: u32,
    buffer: &mut [u8],
    message_length: &mut u32,
    at: &mut u64,
) -> u32
    ensures answer { let bytes = length buffer.old in
        result ≡ answer_of (sample_in bytes handle.old.held.ports channel) }
    ensures message { let sample = sample_in (length buffer.old) handle.old.held.ports channel in
        IsMessagePut (message_of sample) buffer.old buffer.new
        message_length.old message_length.new }
    ensures at { let sample = sample_in (length buffer.old) handle.old.held.ports channel in
        at.new ≡ moment_after sample at.old }
    ensures ports { handle.new.held.ports ≡ handle.old.held.ports }
{
    if buffer.len() < MESSAGE_LIMIT {
        return SHORT_BUFFER;
    }
    let Some(ports) = handle.take(alloc) else {
        return NOT_OPEN;
    };
    let answer = if (channel as usize) >= ports.config().channels() {
        NO_CHANNEL
    } else if let Some(sample) = ports.last_sample(channel as usize) {
        *message_length = copy_bytes(sample.message, buffer);
        *at = sample.at.0;
        READ
    } else {
        NO_SAMPLE
    };
    *handle = Handle::of(ports);
    answer
}

/// The message of an index among those that wait on a channel, of which 0 is the oldest. If the answer is `READ`,
/// it is in the buffer's first bytes, and its length in its place. Answers `READ`, `SHORT_BUFFER`, `NOT_OPEN`,
/// `NO_CHANNEL` or `NO_MESSAGE`.
#[unsafe(no_mangle)]
pub extern "C" fn apex_waiting_message(
    alloc: Global,
    handle: &mut Handle,
    channel: u32,
    index: u64,
    buffer: &mut [u8],
    message_length: &mut u32,
) -> u32
    ensures message { let message =
        waiting_in (length buffer.old) handle.old.held.ports channel index in
        AreBytesPut message result buffer.old buffer.new message_length.old message_length.new }
    ensures ports { handle.new.held.ports ≡ handle.old.held.ports }
{
    if buffer.len() < MESSAGE_LIMIT {
        return SHORT_BUFFER;
    }
    let Some(ports) = handle.take(alloc) else {
        return NOT_OPEN;
    };
    let answer = if (channel as usize) >= ports.config().channels() {
        NO_CHANNEL
    } else if let Some(message) = ports.waiting(channel as usize, index as usize) {
        *message_length = copy_bytes(message, buffer);
        READ
    } else {
        NO_MESSAGE
    };
    *handle = Handle::of(ports);
    answer
}
