//! The journal of a queuing channel, and what an entry puts into it.
ghost use Rattle.std.specs.Prelude.{◌≡◌, ℕ, ◌+◌, ◌≤◌, [], ◌++◌, IsOk, OnOk, IfSome, ◌<◌, drop, length, map};
ghost use Rattle.apex_board.specs.Prelude.{vec_len, vec_capacity, as_cleared, clears, message_accepted, message_received, Configuration};
ghost use Rattle.apex_board.specs.Asked.{IsAskedBy, IsBelow};
ghost use Rattle.apex_board.specs.Journals.{IsFresh, is_for, message_for};

use crate::asked::AskedPort;
use apex_module::Config;
use apex_ports::Entry;
use apex_types::{Call, Direction, Message, Reply, ReturnCode, Taken};
use std::alloc::{AllocError, Allocator};

/// The messages that a queuing channel accepted, and those that were taken from it.
#[derive(Drop)]
pub(crate) struct Journal<A: Allocator> {
    pub(crate) accepted: Vec<Message, A>,
    pub(crate) taken: Vec<Taken, A>,
}

impl<A: Allocator + Copy> Journal<A> {
    /// The journal of a channel without messages. It has no room yet.
    pub(crate) fn new(alloc: A) -> Journal<A>
        ensures accepted { result.accepted.items ≡ [] }
        ensures taken { result.taken.items ≡ [] }
        ensures room { vec_capacity result.accepted ≤ vec_capacity result.taken }
    {
        Journal {
            accepted: Vec::new(alloc),
            taken: Vec::new(alloc),
        }
    }
}

impl<A: Allocator> Journal<A> {
    /// Makes room for this many more accepted messages, and for taking all of them.
    pub(crate) fn make_room(&mut self, messages: usize) -> Result<(), AllocError>
        requires taken { vec_len self.old.taken ≤ vec_len self.old.accepted }
        requires room { vec_capacity self.old.accepted ≤ vec_capacity self.old.taken }
        ensures ok { OnOk result
            (vec_len self.new.accepted + messages ≤ vec_capacity self.new.accepted) }
        ensures succeeds { vec_len self.old.accepted + messages ≤ vec_capacity self.old.accepted →
            IsOk result }
        ensures accepted { self.new.accepted.items ≡ self.old.accepted.items }
        ensures taken { self.new.taken.items ≡ self.old.taken.items }
        ensures len { vec_len self.new.accepted ≡ vec_len self.old.accepted }
        ensures capacity { vec_capacity self.old.accepted ≤ vec_capacity self.new.accepted }
        ensures room { vec_capacity self.new.accepted ≤ vec_capacity self.new.taken }
    {
        let len = self.accepted.len();
        if messages <= self.accepted.capacity() - len {
            return Ok(());
        }
        let additional = messages.max(len);
        let Some(wanted) = len.checked_add(additional) else {
            return Err(AllocError);
        };
        self.taken.reserve_exact(wanted - self.taken.len())?;
        self.accepted.reserve_exact(additional)
    }

    /// Takes each message that isn't taken yet, as a cleared one. There is room for it.
    pub(crate) fn clear(&mut self)
        requires taken { vec_len self.old.taken ≤ vec_len self.old.accepted }
        requires room { vec_capacity self.old.accepted ≤ vec_capacity self.old.taken }
        ensures accepted { self.new.accepted ≡ self.old.accepted }
        ensures taken { let waiting = drop (length self.old.taken.items) self.old.accepted.items in
            self.new.taken.items ≡ self.old.taken.items ++ map as_cleared waiting }
        ensures capacity { vec_capacity self.new.taken ≡ vec_capacity self.old.taken }
    {
        for index in self.taken.len()..self.accepted.len() {
            self.taken.push_reserved(Taken {
                message: self.accepted[index].copy(),
                cleared: true,
            });
        }
    }
}

/// The journal of a channel without messages, if it is a queuing channel.
pub(crate) fn new_journal<A: Allocator + Copy>(
    alloc: A,
    config: &Config,
    c: usize,
) -> Option<Journal<A>>
    requires { c < length config.now.channels }
    ensures { IsFresh config.now c result }
{
    if config.channel(c).kind.is_queuing() {
        Some(Journal::new(alloc))
    } else {
        None
    }
}

/// The message that an entry put into a channel, and the channel's number. The port is the one that its call uses.
pub(crate) fn accepted_message<'a>(
    port: Option<AskedPort>,
    entry: &'a Entry,
) -> Option<(usize, &'a Message)>
    ensures found { (config : Configuration) → IsAskedBy config entry.now port
        → (c : ℕ) → message_accepted config c entry.now ≡ message_for c result }
    ensures channel { (count : ℕ) → IsBelow count port
        → IfSome result (λ found. found.0 < count) }
{
    let (Call::SendQueuing { message, .. }, Reply::Code(ReturnCode::NoError)) = (
        &entry.call,
        &entry.reply,
    ) else {
        return None;
    };
    let port = port?;
    match port.direction {
        Direction::Source => Some((port.channel, message)),
        Direction::Destination => None,
    }
}

/// The message that an entry received from a channel, and the channel's number.
pub(crate) fn received_message<'a>(
    port: Option<AskedPort>,
    entry: &'a Entry,
) -> Option<(usize, &'a Message)>
    ensures found { (config : Configuration) → IsAskedBy config entry.now port
        → (c : ℕ) → message_received config c entry.now ≡ message_for c result }
    ensures channel { (count : ℕ) → IsBelow count port
        → IfSome result (λ found. found.0 < count) }
{
    let (Call::ReceiveQueuing { .. }, Reply::Received(message)) = (&entry.call, &entry.reply) else {
        return None;
    };
    let port = port?;
    match port.direction {
        Direction::Destination => Some((port.channel, message)),
        Direction::Source => None,
    }
}

/// The number of the channel that an entry clears.
pub(crate) fn cleared_channel(port: Option<AskedPort>, entry: &Entry) -> Option<usize>
    ensures found { (config : Configuration) → IsAskedBy config entry.now port
        → (c : ℕ) → clears config c entry.now ≡ is_for c result }
    ensures channel { (count : ℕ) → IsBelow count port
        → IfSome result (λ channel. channel < count) }
{
    let (Call::ClearQueuing { .. }, Reply::Code(ReturnCode::NoError)) = (&entry.call, &entry.reply)
    else {
        return None;
    };
    let port = port?;
    match port.direction {
        Direction::Destination => Some(port.channel),
        Direction::Source => None,
    }
}
