//! A message that waits on a channel.
ghost use Rattle.std.specs.Prelude.{◌≡◌, ◌≤◌, length, IfOk};

use apex_types::{MESSAGE_LIMIT, Message};
use std::alloc::{AllocError, Allocator};
use std::marker::Model;

/// The bytes of a message, in memory of no more than their length: a `Message` always has room for the longest, which
/// takes longer to copy than a short message takes memory.
#[derive(Drop)]
pub(crate) struct WaitingMessage<A: Allocator> {
    bytes: Vec<u8, A>,
}

impl<A: Allocator> Model for WaitingMessage<A> {
    ghost use Rattle.std.specs.Prelude.{ℕ, List, ◌≤◌, length};
    ghost use Rattle.apex_types.specs.declared.message.TheConstants.{MESSAGE_LIMIT};

    ghost Value = { List ℕ };

    ghost view = { λ message. message.bytes.items };

    ghost invariant = { λ message. length message.bytes.items ≤ MESSAGE_LIMIT };
}

impl<A: Allocator> WaitingMessage<A> {
    /// A copy of a message.
    pub(crate) fn of(alloc: A, message: &Message) -> Result<WaitingMessage<A>, AllocError>
        ensures { IfOk result (λ waiting. waiting ≡ message.now) }
    {
        let bytes = Vec::from_slice(alloc, message.bytes())?;
        Ok(WaitingMessage { bytes })
    }

    /// The bytes of the message.
    pub(crate) fn bytes(&self) -> &[u8]
        ensures bytes { result.now ≡ self.now }
        ensures short { length result.now ≤ MESSAGE_LIMIT }
    {
        self.bytes.as_slice()
    }
}
