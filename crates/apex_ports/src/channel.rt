//! The state of a channel: the queue of a queuing channel, or the last sample of a sampling channel.
ghost use Rattle.std.specs.Prelude.{◌≡◌, ◌+◌, ◌<◌, ◌≤◌, ◌^◌, ◌-◌, [], ◌∷◌, ◌++◌, false, length, min, drop, slice_get, Some, IfOk, IfSome};
ghost use Rattle.std.specs.Option.{option_copied};
ghost use Rattle.apex_ports.specs.MessageRing.{messages};
ghost use Rattle.apex_ports.specs.Noted.{IsSampleBy};
ghost use Rattle.apex_ports.specs.Slots.{slot};
ghost use Rattle.apex_ports.specs.declared.channel.ChannelState.TheVariants.{Sampling};

use crate::message_ring::MessageRing;
use crate::noted::SampleRef;
use crate::sample_slot::SampleSlot;
use apex_types::{MESSAGE_LIMIT, Moment};
use std::alloc::{AllocError, Allocator};

/// The messages that wait on a queuing channel, in a ring of its depth and size. A count of accepted, received or cleared
/// messages stays at its maximum.
#[derive(Drop)]
pub(crate) struct Queue<A: Allocator> {
    pub(crate) waiting: MessageRing<A>,
    pub(crate) accepted: u64,
    pub(crate) received: u64,
    pub(crate) cleared: u64,
}

impl<A: Allocator + Copy> Queue<A> {
    /// An empty queue for `depth` messages of at most `size` bytes each.
    pub(crate) fn new(alloc: A, depth: u32, size: u32) -> Result<Queue<A>, AllocError>
        requires { size ≤ MESSAGE_LIMIT }
        ensures waiting { IfOk result (λ queue. queue.waiting ≡ messages [] depth size) }
        ensures accepted { IfOk result (λ queue. queue.accepted ≡ 0) }
        ensures received { IfOk result (λ queue. queue.received ≡ 0) }
        ensures cleared { IfOk result (λ queue. queue.cleared ≡ 0) }
    {
        Ok(Queue {
            waiting: MessageRing::new(alloc, depth, size)?,
            accepted: 0,
            received: 0,
            cleared: 0,
        })
    }
}

/// The state of a channel of either kind.
#[derive(Drop)]
pub(crate) enum ChannelState<A: Allocator> {
    Queuing(Queue<A>),
    Sampling(SampleSlot<A>),
}

impl<A: Allocator> ChannelState<A> {
    ghost use Rattle.apex_ports.specs.ChannelStates.{has_queue, waiting_in, ring_depth, message_size, accepted_in, received_in, cleared_in, sample_in};

    /// The number of messages that wait.
    pub(crate) fn waiting_count(&self) -> usize
        ensures { result ≡ length (waiting_in self.now) }
    {
        match self {
            ChannelState::Queuing(queue) => queue.waiting.len(),
            ChannelState::Sampling(_) => 0,
        }
    }

    /// The message at an index; index 0 has the oldest.
    pub(crate) fn waiting(&self, index: usize) -> Option<&[u8]>
        ensures message { option_copied result ≡ slice_get (waiting_in self.now) index }
        ensures short { IfSome result (λ message. length message.now ≤ MESSAGE_LIMIT) }
    {
        match self {
            ChannelState::Queuing(queue) => queue.waiting.get(index),
            ChannelState::Sampling(_) => None,
        }
    }

    /// The number of accepted messages.
    pub(crate) fn accepted(&self) -> u64
        ensures { result ≡ accepted_in self.now }
    {
        match self {
            ChannelState::Queuing(queue) => queue.accepted,
            ChannelState::Sampling(_) => 0,
        }
    }

    /// The number of received messages.
    pub(crate) fn received(&self) -> u64
        ensures { result ≡ received_in self.now }
    {
        match self {
            ChannelState::Queuing(queue) => queue.received,
            ChannelState::Sampling(_) => 0,
        }
    }

    /// The number of cleared messages.
    pub(crate) fn cleared(&self) -> u64
        ensures { result ≡ cleared_in self.now }
    {
        match self {
            ChannelState::Queuing(queue) => queue.cleared,
            ChannelState::Sampling(_) => 0,
        }
    }

    /// The sample written last.
    pub(crate) fn sample(&self) -> Option<SampleRef<'_>>
        ensures sample { IsSampleBy (sample_in self.now) result }
        ensures short { IfSome result (λ sample. length sample.message.now ≤ MESSAGE_LIMIT) }
    {
        match self {
            ChannelState::Queuing(_) => None,
            ChannelState::Sampling(slot) => slot.get(),
        }
    }

    /// Appends a message. There is room for it.
    #[inline(always)]
    pub(crate) fn send(&mut self, message: &[u8])
        requires room { length (waiting_in self.old) < ring_depth self.old }
        requires short { length message.now ≤ message_size self.old }
        ensures waiting { waiting_in self.new ≡ waiting_in self.old ++ message.now ∷ [] }
        ensures depth { ring_depth self.new ≡ ring_depth self.old }
        ensures size { message_size self.new ≡ message_size self.old }
        ensures accepted { accepted_in self.new ≡ min (accepted_in self.old + 1) (2 ^ 64 - 1) }
        ensures received { received_in self.new ≡ received_in self.old }
        ensures cleared { cleared_in self.new ≡ cleared_in self.old }
        ensures sample { sample_in self.new ≡ sample_in self.old }
        ensures kind { has_queue self.new ≡ has_queue self.old }
    {
        match self {
            ChannelState::Queuing(queue) => {
                queue.waiting.push_back(message);
                queue.accepted = queue.accepted.saturating_add(1);
            }
            ChannelState::Sampling(_) => unreachable!(),
        }
    }

    /// Removes the oldest message, which was received. There is one.
    pub(crate) fn receive(&mut self)
        requires { 0 < length (waiting_in self.old) }
        ensures waiting { waiting_in self.new ≡ drop 1 (waiting_in self.old) }
        ensures depth { ring_depth self.new ≡ ring_depth self.old }
        ensures size { message_size self.new ≡ message_size self.old }
        ensures accepted { accepted_in self.new ≡ accepted_in self.old }
        ensures received { received_in self.new ≡ min (received_in self.old + 1) (2 ^ 64 - 1) }
        ensures cleared { cleared_in self.new ≡ cleared_in self.old }
        ensures sample { sample_in self.new ≡ sample_in self.old }
        ensures kind { has_queue self.new ≡ has_queue self.old }
    {
        match self {
            ChannelState::Queuing(queue) => {
                queue.received = queue.received.saturating_add(1);
                queue.waiting.pop_front();
            }
            ChannelState::Sampling(_) => unreachable!(),
        }
    }

    /// Discards the messages that wait.
    pub(crate) fn clear(&mut self)
        ensures waiting { waiting_in self.new ≡ [] }
        ensures depth { ring_depth self.new ≡ ring_depth self.old }
        ensures size { message_size self.new ≡ message_size self.old }
        ensures accepted { accepted_in self.new ≡ accepted_in self.old }
        ensures received { received_in self.new ≡ received_in self.old }
        ensures cleared { cleared_in self.new
            ≡ min (cleared_in self.old + length (waiting_in self.old)) (2 ^ 64 - 1) }
        ensures sample { sample_in self.new ≡ sample_in self.old }
        ensures kind { has_queue self.new ≡ has_queue self.old }
    {
        match self {
            ChannelState::Queuing(queue) => {
                queue.cleared = queue.cleared.saturating_add(queue.waiting.len() as u64);
                queue.waiting.clear();
            }
            ChannelState::Sampling(_) => {}
        }
    }

    /// Replaces the sample. The channel has no queue.
    #[inline(always)]
    pub(crate) fn write(&mut self, message: &[u8], at: Moment)
        requires kind { has_queue self.old ≡ false }
        requires short { length message.now ≤ message_size self.old }
        ensures { self.new ≡ Sampling (slot
            (Some (record { message = message.now; at = at })) (message_size self.old)) }
    {
        match self {
            ChannelState::Queuing(_) => unreachable!(),
            ChannelState::Sampling(slot) => slot.put(message, at),
        }
    }
}
