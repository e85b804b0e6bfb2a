//! Saves the state of a channel as bytes, and restores it.
ghost use Rattle.std.specs.Prelude.{◌≡◌, ◌++◌, OnOk};
ghost use Rattle.apex_ports.specs.Packed.{packed_messages};
ghost use Rattle.apex_ports.specs.Saved.{Reads, AreWithin, IsRingFor};

use crate::channel::{ChannelState, Queue};
use crate::message_ring::MessageRing;
use crate::packing::{put_count, put_message, put_number};
use crate::sample_slot::SampleSlot;
use crate::unpacking::Reader;
use apex_types::Moment;
use std::alloc::{AllocError, Allocator};

/// What the counts of a queue and the number of its messages take, in bytes.
const QUEUE_BYTES: usize = 28;

/// What a sample takes besides its message, in bytes: that there is one, and its moment.
const SAMPLE_BYTES: usize = 9;

/// What the length of a message takes, in bytes.
const LENGTH_BYTES: usize = 2;

impl<A: Allocator> ChannelState<A> {
    ghost use Rattle.apex_ports.specs.Packed.{packed_channel};
    ghost use Rattle.apex_ports.specs.Saved.{HasRoomFor, IsPackable};

    /// Writes the state behind the bytes.
    pub(crate) fn save(&self, bytes: &mut Vec<u8, A>) -> Result<(), AllocError>
        ensures saved { OnOk result
            (bytes.new.items ≡ bytes.old.items ++ packed_channel self.now) }
        ensures packable { OnOk result (IsPackable self.now) }
    {
        match self {
            ChannelState::Queuing(queue) => queue.save(bytes),
            ChannelState::Sampling(slot) => slot.save(bytes),
        }
    }

    /// Restores the state that is read next, of a channel of the same kind, depth and size.
    pub(crate) fn restore(&mut self, reader: &mut Reader<'_>)
        ensures { Reads packed_channel (HasRoomFor self.old)
            (λ saved. self.new ≡ saved) reader.old reader.new }
    {
        match self {
            ChannelState::Queuing(queue) => queue.restore(reader),
            ChannelState::Sampling(slot) => slot.restore(reader),
        }
    }

    /// How many bytes `save` writes.
    pub(crate) fn saved_len(&self) -> usize {
        match self {
            ChannelState::Queuing(queue) => {
                QUEUE_BYTES.saturating_add(messages_len(&queue.waiting))
            }
            ChannelState::Sampling(slot) => match slot.get() {
                Some(sample) => SAMPLE_BYTES + LENGTH_BYTES + sample.message.len(),
                None => 1,
            },
        }
    }
}

impl<A: Allocator> Queue<A> {
    ghost use Rattle.apex_ports.specs.Packed.{packed_queue};
    ghost use Rattle.apex_ports.specs.Saved.{IsQueuePackable, HasRoomFor};
    ghost use Rattle.apex_ports.specs.declared.channel.ChannelState.TheVariants.{Queuing};

    fn save(&self, bytes: &mut Vec<u8, A>) -> Result<(), AllocError>
        ensures saved { OnOk result (bytes.new.items ≡ bytes.old.items ++ packed_queue self.now) }
        ensures packable { OnOk result (IsQueuePackable self.now) }
    {
        put_number(bytes, self.accepted)?;
        put_number(bytes, self.received)?;
        put_number(bytes, self.cleared)?;
        save_waiting(&self.waiting, bytes)
    }

    fn restore(&mut self, reader: &mut Reader<'_>)
        ensures { Reads packed_queue (λ saved. HasRoomFor (Queuing self.old) (Queuing saved))
            (λ saved. self.new ≡ saved) reader.old reader.new }
    {
        self.accepted = reader.number();
        self.received = reader.number();
        self.cleared = reader.number();
        restore_waiting(&mut self.waiting, reader);
    }
}

impl<A: Allocator> SampleSlot<A> {
    ghost use Rattle.apex_ports.specs.Packed.{packed_sample};
    ghost use Rattle.apex_ports.specs.Saved.{IsSlotPackable};
    ghost use Rattle.apex_ports.specs.Slots.{slot};

    fn save(&self, bytes: &mut Vec<u8, A>) -> Result<(), AllocError>
        ensures saved { OnOk result
            (bytes.new.items ≡ bytes.old.items ++ packed_sample self.now.sample) }
        ensures packable { OnOk result (IsSlotPackable self.now.size self.now.sample) }
    {
        let Some(sample) = self.get() else {
            bytes.push(0)?;
            return Ok(());
        };
        bytes.push(1)?;
        put_number(bytes, sample.at.0)?;
        put_message(bytes, sample.message)
    }

    fn restore(&mut self, reader: &mut Reader<'_>)
        ensures { Reads packed_sample (IsSlotPackable self.old.size)
            (λ sample. self.new ≡ slot sample self.old.size) reader.old reader.new }
    {
        if reader.byte() == 0 {
            self.clear();
            return;
        }
        let at = Moment(reader.number());
        self.put_fitting(reader.message(), at);
    }
}

// How many bytes the messages take with their lengths.
fn messages_len<A: Allocator>(waiting: &MessageRing<A>) -> usize {
    let mut len: usize = 0;
    for index in 0..waiting.len() {
        let message = waiting.get(index).unwrap();
        len = len.saturating_add(LENGTH_BYTES + message.len());
    }
    len
}

// Writes the number of messages that wait, and each message.
fn save_waiting<A: Allocator>(
    waiting: &MessageRing<A>,
    bytes: &mut Vec<u8, A>,
) -> Result<(), AllocError>
    ensures saved { OnOk result
        (bytes.new.items ≡ bytes.old.items ++ packed_messages waiting.now.items) }
    ensures within { AreWithin waiting.now }
{
    let _ = waiting.size();
    let count = waiting.len();
    put_count(bytes, count as u32)?;
    for index in 0..count {
        put_message(bytes, waiting.get(index).unwrap())?;
    }
    Ok(())
}

// Replaces the messages that wait with those that are read next, as far as they fit.
fn restore_waiting<A: Allocator>(waiting: &mut MessageRing<A>, reader: &mut Reader<'_>)
    ensures { Reads (λ saved. packed_messages saved.items) (IsRingFor waiting.old)
        (λ saved. waiting.new ≡ saved) reader.old reader.new }
{
    let count = reader.count();
    waiting.clear();
    for _ in 0..count {
        waiting.push_fitting(reader.message());
    }
}
