//! Messages in little memory: their bytes stand one after another in one piece.
ghost use Rattle.std.specs.Prelude.{◌≡◌, ◌≤◌, ◌∷◌, ◌++◌, [], length, slice_get, IfSome, OnOk, OnErr};
ghost use Rattle.std.specs.Option.{option_copied};

use apex_types::MESSAGE_LIMIT;
use std::alloc::{AllocError, Allocator, Global};
use std::marker::Model;

/// The bytes from one index up to another.
#[derive(Clone, Copy, Debug)]
pub(crate) struct Part {
    pub(crate) from: usize,
    pub(crate) to: usize,
}

/// Messages, oldest first. Each takes only as many bytes as it has. A contract sees them as a list.
#[derive(Debug, Drop)]
pub struct StoredMessages<A: Allocator = Global> {
    parts: Vec<Part, A>,
    bytes: Vec<u8, A>,
}

impl<A: Allocator> Model for StoredMessages<A> {
    ghost use Rattle.std.specs.Prelude.{ℕ, List, length, map};
    ghost use Rattle.apex_ports.specs.Stored.{message_of, AreParts};

    ghost Value = { List (List ℕ) };

    ghost view = { λ stored. map (message_of stored.bytes.items) stored.parts.items };

    ghost invariant = { λ stored. AreParts (length stored.bytes.items) stored.parts.items };
}

impl<A: Allocator + Copy> StoredMessages<A> {
    /// No messages.
    pub fn new(alloc: A) -> StoredMessages<A>
        ensures { result ≡ [] }
    {
        StoredMessages {
            parts: Vec::new(alloc),
            bytes: Vec::new(alloc),
        }
    }
}

impl<A: Allocator> StoredMessages<A> {
    /// The number of messages.
    pub fn len(&self) -> usize
        ensures { result ≡ length self.now }
    {
        self.parts.len()
    }

    /// Adds a message. If memory runs out, the messages are unchanged.
    pub fn push(&mut self, message: &[u8]) -> Result<(), AllocError>
        requires { length message.now ≤ MESSAGE_LIMIT }
        ensures pushed { OnOk result (self.new ≡ self.old ++ message.now ∷ []) }
        ensures refused { OnErr result (self.new ≡ self.old) }
    {
        self.parts.reserve(1)?;
        let from = self.bytes.len();
        self.bytes.extend_from_slice(message)?;
        let to = self.bytes.len();
        self.parts.push_reserved(Part { from, to });
        Ok(())
    }

    /// The message at an index; index 0 has the oldest.
    pub fn get(&self, index: usize) -> Option<&[u8]>
        ensures message { option_copied result ≡ slice_get self.now index }
        ensures short { IfSome result (λ message. length message.now ≤ MESSAGE_LIMIT) }
    {
        let part = self.parts.get(index)?;
        Some(&self.bytes[part.from..part.to])
    }
}
