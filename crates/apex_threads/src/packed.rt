//! The replies that a worker got, packed.
ghost use Rattle.std.specs.Prelude.{◌≡◌, ◌↔◌, ◌<◌, ◌≤◌, ◌∷◌, ◌++◌, ℕ, List, [], length, slice_get, None, Some, IsTrue, MatchOption, IfOk, IfSome, OnOk, OnErr};
ghost use Rattle.apex_ports.specs.Noted.{reply_by};
ghost use Rattle.apex_threads.specs.PackedReplies.{reply_in, IsPacked};
ghost use Rattle.apex_ports.specs.Services.{message_length};

use crate::stored::{message_at, push_message};
use apex_ports::{ReplyRef, StoredMessages};
use apex_types::{Direction, MESSAGE_LIMIT, Message, Reply, ReturnCode, Validity};
use std::alloc::{AllocError, Allocator, Global};
use std::marker::Model;

/// A reply whose message is stored elsewhere, at an index.
#[derive(Clone, Copy, Debug)]
pub(crate) enum Packed {
    NotMade,
    Code(ReturnCode),
    Id(u32),
    Received(usize),
    Read {
        message: usize,
        validity: Validity,
    },
    QueuingStatus {
        waiting: u32,
        depth: u32,
        size: u32,
        direction: Direction,
    },
    SamplingStatus {
        refresh: u64,
        size: u32,
        direction: Direction,
        last: Validity,
    },
}

/// The replies to the calls of one partition, in order. A message takes only as many bytes as it has. A contract sees
/// the replies as a list.
#[derive(Debug, Drop)]
pub struct PackedReplies<A: Allocator = Global> {
    replies: Vec<Packed, A>,
    messages: StoredMessages<A>,
}

impl<A: Allocator> Model for PackedReplies<A> {
    ghost use Rattle.std.specs.Prelude.{List, length, map};
    ghost use Rattle.apex_types.specs.declared.reply.Reply.{Reply};
    ghost use Rattle.apex_threads.specs.PackedReplies.{reply_in, ArePacked};

    ghost Value = { List Reply };

    ghost view = { λ packed. map (reply_in packed.messages) packed.replies.items };

    ghost invariant = { λ packed. ArePacked (length packed.messages) packed.replies.items };
}

impl<A: Allocator + Copy> PackedReplies<A> {
    /// No replies, with room for this many. Their messages are allocated when they are added.
    pub fn with_room(alloc: A, replies: usize) -> Result<PackedReplies<A>, AllocError>
        ensures { IfOk result (λ packed. packed ≡ []) }
    {
        Ok(PackedReplies {
            replies: Vec::with_capacity(alloc, replies)?,
            messages: StoredMessages::new(alloc),
        })
    }
}

impl<A: Allocator> PackedReplies<A> {
    /// The number of replies.
    pub fn len(&self) -> usize
        ensures { result ≡ length self.now }
    {
        self.replies.len()
    }

    /// Adds a reply. If memory runs out, the replies are unchanged.
    pub fn push(&mut self, reply: &Reply) -> Result<(), AllocError>
        ensures pushed { OnOk result (self.new ≡ self.old ++ reply.now ∷ []) }
        ensures refused { OnErr result (self.new ≡ self.old) }
    {
        self.replies.reserve(1)?;
        let packed = pack(&mut self.messages, reply)?;
        self.replies.push_reserved(packed);
        Ok(())
    }

    /// The reply at an index; index 0 has the oldest. It lends the reply's message.
    pub fn get(&self, index: usize) -> Option<ReplyRef<'_>>
        ensures reply { MatchOption result (slice_get self.now index ≡ None)
            (λ reply. slice_get self.now index ≡ Some (reply_by reply)) }
        ensures short { IfSome result (λ reply. message_length (reply_by reply) ≤ MESSAGE_LIMIT) }
    {
        match self.replies.get(index) {
            Some(packed) => Some(lend(&self.messages, *packed)),
            None => None,
        }
    }

    /// Whether the reply at an index equals this one.
    pub fn is_at(&self, index: usize, reply: &Reply) -> bool
        ensures { IsTrue result ↔ (slice_get self.now index ≡ Some reply.now) }
    {
        match self.get(index) {
            Some(lent) => is_same_reply(lent, reply),
            None => false,
        }
    }
}

/// Whether the two replies are equal. Messages are compared in place.
fn is_same_reply(lent: ReplyRef<'_>, reply: &Reply) -> bool
    ensures { IsTrue result ↔ (reply_by lent.entry ≡ reply.now) }
{
    match (lent, reply) {
        (ReplyRef::NotMade, Reply::NotMade) => true,
        (ReplyRef::Code(code), Reply::Code(other)) => code == *other,
        (ReplyRef::Id(id), Reply::Id(other)) => id == *other,
        (ReplyRef::Received(message), Reply::Received(other)) => message == other.bytes(),
        (
            ReplyRef::Read { message, validity },
            Reply::Read {
                message: other,
                validity: other_validity,
            },
        ) => validity == *other_validity && message == other.bytes(),
        (
            ReplyRef::QueuingStatus {
                waiting,
                depth,
                size,
                direction,
            },
            Reply::QueuingStatus {
                waiting: other_waiting,
                depth: other_depth,
                size: other_size,
                direction: other_direction,
            },
        ) => {
            waiting == *other_waiting
                && depth == *other_depth
                && size == *other_size
                && direction == *other_direction
        }
        (
            ReplyRef::SamplingStatus {
                refresh,
                size,
                direction,
                last,
            },
            Reply::SamplingStatus {
                refresh: other_refresh,
                size: other_size,
                direction: other_direction,
                last: other_last,
            },
        ) => {
            refresh == *other_refresh
                && size == *other_size
                && direction == *other_direction
                && last == *other_last
        }
        _ => false,
    }
}

/// Packs a reply: its message is added to the messages.
fn pack<A: Allocator>(messages: &mut StoredMessages<A>, reply: &Reply) -> Result<Packed, AllocError>
    ensures packed { IfOk result (λ packed. reply_in messages.new packed ≡ reply.now) }
    ensures within { IfOk result (λ packed. IsPacked (length messages.new) packed) }
    ensures behind { (more : List (List ℕ)) × (messages.new ≡ messages.old ++ more) }
{
    Ok(match reply {
        Reply::NotMade => Packed::NotMade,
        Reply::Code(code) => Packed::Code(*code),
        Reply::Id(id) => Packed::Id(*id),
        Reply::Received(message) => Packed::Received(push_message(messages, message)?),
        Reply::Read { message, validity } => Packed::Read {
            message: push_message(messages, message)?,
            validity: *validity,
        },
        Reply::QueuingStatus {
            waiting,
            depth,
            size,
            direction,
        } => Packed::QueuingStatus {
            waiting: *waiting,
            depth: *depth,
            size: *size,
            direction: *direction,
        },
        Reply::SamplingStatus {
            refresh,
            size,
            direction,
            last,
        } => Packed::SamplingStatus {
            refresh: *refresh,
            size: *size,
            direction: *direction,
            last: *last,
        },
    })
}

/// The reply, with its message from the messages.
fn lend<A: Allocator>(messages: &StoredMessages<A>, packed: Packed) -> ReplyRef<'_>
    requires { IsPacked (length messages.now) packed }
    ensures reply { reply_by result ≡ reply_in messages.now packed }
    ensures short { message_length (reply_by result) ≤ MESSAGE_LIMIT }
{
    match packed {
        Packed::NotMade => ReplyRef::NotMade,
        Packed::Code(code) => ReplyRef::Code(code),
        Packed::Id(id) => ReplyRef::Id(id),
        Packed::Received(message) => ReplyRef::Received(message_at(messages, message)),
        Packed::Read { message, validity } => ReplyRef::Read {
            message: message_at(messages, message),
            validity,
        },
        Packed::QueuingStatus {
            waiting,
            depth,
            size,
            direction,
        } => ReplyRef::QueuingStatus {
            waiting,
            depth,
            size,
            direction,
        },
        Packed::SamplingStatus {
            refresh,
            size,
            direction,
            last,
        } => ReplyRef::SamplingStatus {
            refresh,
            size,
            direction,
            last,
        },
    }
}
