//! The sample that a sampling channel holds.
ghost use Rattle.std.specs.Prelude.{◌≡◌, ◌≤◌, length, Some, None, IfOk, IfSome};
ghost use Rattle.apex_ports.specs.Noted.{IsSampleBy};
ghost use Rattle.apex_ports.specs.Slots.{slot};

use crate::message_ring::MessageRing;
use crate::noted::SampleRef;
use apex_types::{MESSAGE_LIMIT, Moment};
use std::alloc::{AllocError, Allocator};
use std::marker::Model;

/// The sample written last, in a place with room for the longest message: a ring for one message.
#[derive(Drop)]
pub(crate) struct SampleSlot<A: Allocator> {
    message: MessageRing<A>,
    at: Moment,
}

impl<A: Allocator> Model for SampleSlot<A> {
    ghost use Rattle.std.specs.Prelude.{◌≡◌};
    ghost use Rattle.apex_ports.specs.Slots.{Slot, sample_held, slot};

    ghost Value = { Slot };

    ghost view = { λ held. slot (sample_held held.message.items held.at) held.message.size };

    ghost invariant = { λ held. held.message.capacity ≡ 1 };
}

impl<A: Allocator + Copy> SampleSlot<A> {
    /// A slot without a sample. It allocates all its memory here.
    pub(crate) fn new(alloc: A, size: u32) -> Result<SampleSlot<A>, AllocError>
        requires { size ≤ MESSAGE_LIMIT }
        ensures { IfOk result (λ held. held ≡ slot None size) }
    {
        Ok(SampleSlot {
            message: MessageRing::new(alloc, 1, size)?,
            at: Moment(0),
        })
    }
}

impl<A: Allocator> SampleSlot<A> {
    /// The sample.
    pub(crate) fn get(&self) -> Option<SampleRef<'_>>
        ensures sample { IsSampleBy self.now.sample result }
        ensures fits { IfSome result (λ sample. length sample.message.now ≤ self.now.size) }
        ensures short { IfSome result (λ sample. length sample.message.now ≤ MESSAGE_LIMIT) }
    {
        let message = self.message.get(0)?;
        Some(SampleRef {
            message,
            at: self.at,
        })
    }

    /// Replaces the sample.
    #[inline(always)]
    pub(crate) fn put(&mut self, message: &[u8], at: Moment)
        requires { length message.now ≤ self.old.size }
        ensures { self.new
            ≡ slot (Some (record { message = message.now; at = at })) self.old.size }
    {
        self.message.clear();
        self.message.push_back(message);
        self.at = at;
    }

    /// Replaces the sample if the message fits. It is unchanged otherwise.
    pub(crate) fn put_fitting(&mut self, message: &[u8], at: Moment)
        ensures { length message.now ≤ self.old.size → self.new
            ≡ slot (Some (record { message = message.now; at = at })) self.old.size }
    {
        if message.len() <= self.message.size() as usize {
            self.put(message, at);
        }
    }

    /// Removes the sample.
    pub(crate) fn clear(&mut self)
        ensures { self.new ≡ slot None self.old.size }
    {
        self.message.clear();
    }
}
