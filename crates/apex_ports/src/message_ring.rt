//! The messages that wait on a queuing channel: a ring of their places, and separately their bytes.
ghost use Rattle.std.specs.Prelude.{◌≡◌, ◌+◌, ◌*◌, ◌<◌, ◌≤◌, ◌==◌, ◌^◌, [], ◌∷◌, ◌++◌, if◌then◌else◌, length, drop, slice_get, IfOk, IfSome};
ghost use Rattle.std.specs.Option.{option_copied};
ghost use Rattle.apex_ports.specs.MessageRing.{messages, message_at, with_message, AreShort};

use apex_types::MESSAGE_LIMIT;
use circular_buffer::HeapCircularBuffer;
use std::alloc::{AllocError, Allocator};
use std::marker::Model;

// The initial contents of the slots.
static BLANK: [u8; 4096] = [0; 4096];

/// The place of a message's bytes: their slot and their number.
#[derive(Clone, Copy, Debug)]
pub(crate) struct Place {
    pub(crate) slot: u32,
    pub(crate) length: u32,
}

/// The messages that wait, oldest first. Each has a slot with room for the longest message. There is a slot for each
/// message that may wait, and the first slot follows the last.
#[derive(Drop)]
pub(crate) struct MessageRing<A: Allocator> {
    places: HeapCircularBuffer<Place, A>,
    slots: Vec<u8, A>,
    size: u32,
    next: u32,
}

impl<A: Allocator> Model for MessageRing<A> {
    ghost use Rattle.apex_ports.specs.MessageRing.{Messages, messages, messages_at, IsRing};

    ghost Value = { Messages };

    ghost view = { λ ring. messages (messages_at ring.size ring.slots.items ring.places.items)
        ring.places.capacity ring.size };

    ghost invariant = { λ ring. IsRing ring.places.capacity ring.size ring.next
        ring.slots.items ring.places.items };
}

impl<A: Allocator + Copy> MessageRing<A> {
    /// A ring without messages. It allocates all its memory here.
    pub(crate) fn new(alloc: A, depth: u32, size: u32) -> Result<MessageRing<A>, AllocError>
        requires { size ≤ MESSAGE_LIMIT }
        ensures { IfOk result (λ ring. ring ≡ messages [] depth size) }
    {
        let places = HeapCircularBuffer::with_capacity(alloc, depth as usize)?;
        let room = (depth as usize)
            .checked_mul(size as usize)
            .ok_or(AllocError)?;
        let slots = blank_bytes(alloc, room)?;
        Ok(MessageRing {
            places,
            slots,
            size,
            next: 0,
        })
    }
}

impl<A: Allocator> MessageRing<A> {
    /// The maximum length of a message, in bytes.
    pub(crate) fn size(&self) -> u32
        ensures size { result ≡ self.now.size }
        ensures wide { result ≤ MESSAGE_LIMIT }
        ensures short { AreShort self.now.size self.now.items }
    {
        self.size
    }

    /// The number of messages that wait.
    pub(crate) fn len(&self) -> usize
        ensures count { result ≡ length self.now.items }
        ensures few { result ≤ self.now.capacity }
        ensures small { self.now.capacity < 2 ^ 32 }
    {
        self.places.len()
    }

    /// The message at an index; index 0 has the oldest.
    pub(crate) fn get(&self, index: usize) -> Option<&[u8]>
        ensures message { option_copied result ≡ slice_get self.now.items index }
        ensures fits { IfSome result (λ message. length message.now ≤ self.now.size) }
        ensures short { IfSome result (λ message. length message.now ≤ MESSAGE_LIMIT) }
    {
        let place = self.places.get(index)?;
        Some(message_in(self.slots.as_slice(), self.size, *place))
    }

    /// Appends a message. There is room for it.
    #[inline(always)]
    pub(crate) fn push_back(&mut self, message: &[u8])
        requires room { length self.old.items < self.old.capacity }
        requires short { length message.now ≤ self.old.size }
        ensures { self.new ≡ messages (self.old.items ++ message.now ∷ [])
            self.old.capacity self.old.size }
    {
        let place = Place {
            slot: self.next,
            length: message.len() as u32,
        };
        put_message(self.slots.as_mut_slice(), self.size, place.slot, message);
        let _ = self.places.push_back(place);
        self.next = next_slot(place.slot, self.places.capacity());
    }

    /// Appends a message if there is room for it. It is dropped otherwise.
    pub(crate) fn push_fitting(&mut self, message: &[u8])
        ensures { length self.old.items < self.old.capacity →
            length message.now ≤ self.old.size → self.new
            ≡ messages (self.old.items ++ message.now ∷ []) self.old.capacity self.old.size }
    {
        if self.places.len() >= self.places.capacity() || message.len() > self.size as usize {
            return;
        }
        self.push_back(message);
    }

    /// Removes the oldest message, if there is one.
    pub(crate) fn pop_front(&mut self)
        ensures { self.new ≡ messages (drop 1 self.old.items) self.old.capacity self.old.size }
    {
        let _ = self.places.pop_front();
    }

    /// Removes all messages.
    pub(crate) fn clear(&mut self)
        ensures { self.new ≡ messages [] self.old.capacity self.old.size }
    {
        self.places.clear();
    }
}

// This many bytes, to be overwritten.
fn blank_bytes<A: Allocator>(alloc: A, count: usize) -> Result<Vec<u8, A>, AllocError>
    ensures { IfOk result (λ bytes. length bytes.items ≡ count) }
{
    let mut bytes = Vec::with_capacity(alloc, count)?;
    while bytes.len() < count {
        let more = BLANK.len().min(count - bytes.len());
        bytes.extend_from_slice(&BLANK[..more])?;
    }
    Ok(bytes)
}

// The message at a place.
fn message_in(slots: &[u8], size: u32, place: Place) -> &[u8]
    requires short { place.length ≤ size }
    requires within { (place.slot + 1) * size ≤ length slots.now }
    ensures { result.now ≡ message_at size slots.now place }
{
    let start = place.slot as usize * size as usize;
    &slots[start..start + place.length as usize]
}

// Writes a message into a slot.
fn put_message(slots: &mut [u8], size: u32, slot: u32, message: &[u8])
    requires short { length message.now ≤ size }
    requires within { (slot + 1) * size ≤ length slots.old }
    ensures { slots.new ≡ with_message slots.old (slot * size) message.now }
{
    let start = slot as usize * size as usize;
    slots[start..start + message.len()].copy_from_slice(message);
}

// The slot after another; the first slot follows the last.
fn next_slot(slot: u32, depth: usize) -> u32
    requires within { slot < depth }
    requires small { depth < 2 ^ 32 }
    ensures { result ≡ (if slot + 1 == depth then 0 else slot + 1) }
{
    let behind = slot + 1;
    if behind as usize == depth { 0 } else { behind }
}
