//! The state of a channel: the messages that wait, and the last sample.
ghost use Rattle.std.specs.Prelude.{◌≡◌, ◌≤◌, ◌^◌, ◌-◌, ◌∷◌, ◌++◌, [], length, slice_get, position, is_some, Some, None, IfSome, IfErr, IfOk};
ghost use Rattle.apex_judge.specs.Prelude.{option_copied, bytes_eq};
ghost use Rattle.apex_judge.specs.Waiting.{left_after};

use crate::queue::Queue;
use apex_types::{MESSAGE_LIMIT, Message, Moment, OutOfMemory, Sample};
use std::alloc::Allocator;

/// The most messages that can wait, as a status counts them.
const WAITING_LIMIT: usize = u32::MAX as usize;

/// The messages that wait, oldest first, and the sample written last. A log can show both on one channel.
#[derive(Drop)]
pub(crate) struct ChannelState<A: Allocator> {
    pub(crate) waiting: Queue<A>,
    pub(crate) sample: Option<Sample>,
}

impl<A: Allocator> ChannelState<A> {
    /// The oldest message.
    pub(crate) fn oldest(&self) -> Option<&[u8]>
        ensures message { option_copied result ≡ slice_get self.now.waiting 0 }
        ensures short { IfSome result (λ message. length message.now ≤ MESSAGE_LIMIT) }
    {
        self.waiting.oldest()
    }

    /// How many messages wait.
    pub(crate) fn waiting_count(&self) -> usize
        ensures { result ≡ length self.now.waiting }
    {
        self.waiting.len()
    }

    /// Replaces the sample.
    pub(crate) fn write(&mut self, message: &Message, at: Moment)
        ensures waiting { self.new.waiting ≡ self.old.waiting }
        ensures sample { self.new.sample
            ≡ Some (record { message = message.now; at = at }) }
    {
        match &mut self.sample {
            Some(sample) => {
                sample.message.copy_from(message);
                sample.at = at;
            }
            None => self.write_first(message, at),
        }
    }

    // Makes the sample where there is none.
    // Not inlined, since a function that makes a message clears its room where it begins.
    #[inline(never)]
    fn write_first(&mut self, message: &Message, at: Moment)
        ensures waiting { self.new.waiting ≡ self.old.waiting }
        ensures sample { self.new.sample
            ≡ Some (record { message = message.now; at = at }) }
    {
        self.sample = Some(Sample {
            message: message.copy(),
            at,
        });
    }

    /// Removes the sample.
    pub(crate) fn remove_sample(&mut self)
        ensures waiting { self.new.waiting ≡ self.old.waiting }
        ensures sample { self.new.sample ≡ None }
    {
        self.sample = None;
    }

    /// Discards the messages that wait.
    pub(crate) fn clear(&mut self)
        ensures waiting { self.new.waiting ≡ [] }
        ensures sample { self.new.sample ≡ self.old.sample }
    {
        self.waiting.clear();
    }
}

impl<A: Allocator + Copy> ChannelState<A> {
    /// Puts a message last. Where there is no memory for it, nothing changes.
    pub(crate) fn send(&mut self, message: &Message) -> Result<(), OutOfMemory>
        ensures waiting { IfOk result
            (λ _. self.new.waiting ≡ self.old.waiting ++ message.now ∷ []) }
        ensures few { IfOk result (λ _. length self.new.waiting ≤ 2 ^ 32 - 1) }
        ensures refused { IfErr result (λ _. self.new.waiting ≡ self.old.waiting) }
        ensures sample { self.new.sample ≡ self.old.sample }
    {
        if self.waiting.len() >= WAITING_LIMIT {
            return Err(OutOfMemory);
        }
        self.waiting.send(message)
    }

    /// Whether a message with these bytes waits.
    pub(crate) fn has(&mut self, message: &Message) -> bool
        ensures test { let at = position (λ one. bytes_eq one message.now) self.old.waiting in
            result ≡ is_some at }
        ensures waiting { self.new.waiting ≡ self.old.waiting }
        ensures sample { self.new.sample ≡ self.old.sample }
    {
        self.waiting.index_of(message).is_some()
    }

    /// Takes the first message with these bytes and all before it; nothing if no message has them.
    pub(crate) fn receive(&mut self, message: &Message)
        ensures waiting { self.new.waiting ≡ left_after (Some message.now) self.old.waiting }
        ensures sample { self.new.sample ≡ self.old.sample }
    {
        self.waiting.receive(message);
    }
}
