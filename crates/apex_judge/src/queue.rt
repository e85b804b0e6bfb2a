//! The messages that wait on a channel.
ghost use Rattle.std.specs.Prelude.{◌≡◌, ◌≤◌, ◌∷◌, ◌++◌, [], length, drop, slice_get, position, Some, IfErr, IfOk, IfSome, IsTrue};
ghost use Rattle.apex_judge.specs.Prelude.{option_copied, bytes_eq};
ghost use Rattle.apex_judge.specs.Tally.{IsCounted};
ghost use Rattle.apex_judge.specs.Waiting.{left_after};

use crate::tally::{Tally, count, times, uncount};
use crate::waiting_message::WaitingMessage;
use apex_types::{MESSAGE_LIMIT, Message, OutOfMemory};
use std::alloc::Allocator;
use std::collections::{BTreeMap, VecDeque};
use std::marker::Model;

/// The messages that wait, oldest first; a contract sees nothing else.
///
/// A receive of a message other than the oldest counts the messages by their bytes, each of them once in its life, and
/// looks for none that isn't counted. So the receives of a log take time that grows with the log, and not with how many
/// messages wait at each of them.
#[derive(Drop)]
pub(crate) struct Queue<A: Allocator> {
    messages: VecDeque<WaitingMessage<A>, A>,
    // How many messages are counted, from the oldest on.
    counted: usize,
    tally: Tally<A>,
    alloc: A,
}

impl<A: Allocator> Model for Queue<A> {
    ghost use Rattle.std.specs.Prelude.{ℕ, List};

    ghost Value = { List (List ℕ) };

    ghost use Rattle.apex_judge.specs.Tally.{IsCounted};

    ghost view = { λ queue. queue.messages.items };

    ghost invariant = { λ queue. IsCounted queue.tally queue.counted queue.messages.items };
}

impl<A: Allocator + Copy> Queue<A> {
    /// No message waits.
    pub(crate) fn new(alloc: A) -> Queue<A>
        ensures { result ≡ [] }
    {
        Queue {
            messages: VecDeque::new(alloc),
            counted: 0,
            tally: BTreeMap::new(alloc),
            alloc,
        }
    }

    /// Puts a message last. Where there is no memory for it, nothing changes.
    pub(crate) fn send(&mut self, message: &Message) -> Result<(), OutOfMemory>
        ensures sent { IfOk result (λ _. self.new ≡ self.old ++ message.now ∷ []) }
        ensures refused { IfErr result (λ _. self.new ≡ self.old) }
    {
        let waiting = WaitingMessage::of(self.alloc, message)?;
        self.messages.push_back(waiting)?;
        Ok(())
    }

    /// Takes the first message with these bytes and all before it; nothing if no message has them.
    pub(crate) fn receive(&mut self, message: &Message)
        ensures { self.new ≡ left_after (Some message.now) self.old }
    {
        let Some(index) = self.index_of(message) else {
            return;
        };
        self.discard(index);
        self.discard_oldest();
    }

    /// The index of the first message with these bytes.
    pub(crate) fn index_of(&mut self, message: &Message) -> Option<usize>
        ensures index { result ≡ position (λ one. bytes_eq one message.now) self.new }
        ensures same { self.new ≡ self.old }
    {
        if is_oldest(&self.messages, message) {
            return Some(0);
        }
        self.counted = count_from(self.alloc, &mut self.tally, &self.messages, self.counted);
        if self.counted == self.messages.len() && times(&self.tally, message.bytes()) == 0 {
            return None;
        }
        index_of(&self.messages, message)
    }
}

impl<A: Allocator> Queue<A> {
    /// The oldest message.
    pub(crate) fn oldest(&self) -> Option<&[u8]>
        ensures message { option_copied result ≡ slice_get self.now 0 }
        ensures short { IfSome result (λ message. length message.now ≤ MESSAGE_LIMIT) }
    {
        let message = self.messages.front()?;
        Some(message.bytes())
    }

    /// How many messages wait.
    pub(crate) fn len(&self) -> usize
        ensures { result ≡ length self.now }
    {
        self.messages.len()
    }

    /// Discards all messages.
    pub(crate) fn clear(&mut self)
        ensures { self.new ≡ [] }
    {
        self.messages.clear();
        self.counted = 0;
        self.tally.clear();
    }

    // Discards the oldest messages.
    fn discard(&mut self, count: usize)
        ensures { self.new ≡ drop count self.old }
    {
        for _ in 0..count {
            self.discard_oldest();
        }
    }

    // Discards the oldest message.
    fn discard_oldest(&mut self)
        ensures { self.new ≡ drop 1 self.old }
    {
        let Some(message) = self.messages.pop_front() else {
            return;
        };
        if self.counted == 0 {
            return;
        }
        self.counted -= 1;
        uncount(&mut self.tally, message.bytes());
    }
}

// Whether the oldest message has these bytes.
fn is_oldest<A: Allocator>(messages: &VecDeque<WaitingMessage<A>, A>, message: &Message) -> bool
    ensures { IsTrue result →
        position (λ one. bytes_eq one message.now) messages.now.items ≡ Some 0 }
{
    match messages.front() {
        Some(oldest) => oldest.bytes() == message.bytes(),
        None => false,
    }
}

// The index of the first message with these bytes.
fn index_of<A: Allocator>(
    messages: &VecDeque<WaitingMessage<A>, A>,
    message: &Message,
) -> Option<usize>
    ensures { result ≡ position (λ one. bytes_eq one message.now) messages.now.items }
{
    messages
        .iter()
        .position(|one| one.bytes() == message.bytes())
}

// Counts the messages from an index on, as far as there is memory for it, and gives the index of the first that
// isn't counted.
fn count_from<A: Allocator + Copy>(
    alloc: A,
    tally: &mut Tally<A>,
    messages: &VecDeque<WaitingMessage<A>, A>,
    counted: usize,
) -> usize
    requires { IsCounted tally.old counted messages.now.items }
    ensures { IsCounted tally.new result messages.now.items }
{
    for index in counted..messages.len() {
        if count(alloc, tally, messages[index].bytes()).is_err() {
            return index;
        }
    }
    messages.len()
}
