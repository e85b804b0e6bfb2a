//! Calls and replies with messages of their own, made of those by reference.
ghost use Rattle.std.specs.Prelude.{◌≡◌, ◌≤◌, length};
ghost use Rattle.apex_types.specs.declared.reply.Reply.TheVariants.{Code, Received};
ghost use Rattle.apex_ports.specs.Noted.{call_by, reply_by};
ghost use Rattle.apex_ports.specs.Services.{length_sent, message_length};

use crate::noted::{CallRef, ReplyRef};
use apex_types::{Call, MESSAGE_LIMIT, Message, Reply, ReturnCode};

impl CallRef<'_> {
    /// The call, with a copy of its message or name.
    pub fn to_call(self) -> Call
        requires { length_sent (call_by self) ≤ MESSAGE_LIMIT }
        ensures { result ≡ call_by self.entry }
    {
        match self {
            CallRef::CreateSampling {
                name,
                size,
                direction,
                refresh,
            } => Call::CreateSampling {
                name: name.copy(),
                size,
                direction,
                refresh,
            },
            CallRef::CreateQueuing {
                name,
                size,
                depth,
                direction,
                discipline,
            } => Call::CreateQueuing {
                name: name.copy(),
                size,
                depth,
                direction,
                discipline,
            },
            CallRef::SamplingId { name } => Call::SamplingId { name: name.copy() },
            CallRef::QueuingId { name } => Call::QueuingId { name: name.copy() },
            CallRef::SamplingStatus { id } => Call::SamplingStatus { id },
            CallRef::QueuingStatus { id } => Call::QueuingStatus { id },
            CallRef::WriteSampling { id, message } => Call::WriteSampling {
                id,
                message: Message::from_bytes(message).unwrap(),
            },
            CallRef::SendQueuing { id, message } => Call::SendQueuing {
                id,
                message: Message::from_bytes(message).unwrap(),
            },
            CallRef::ReadSampling { id } => Call::ReadSampling { id },
            CallRef::ReceiveQueuing { id } => Call::ReceiveQueuing { id },
            CallRef::ClearQueuing { id } => Call::ClearQueuing { id },
            CallRef::SetMode { mode } => Call::SetMode { mode },
        }
    }
}

impl ReplyRef<'_> {
    /// The reply, with a copy of its message.
    pub fn to_reply(self) -> Reply
        requires { message_length (reply_by self) ≤ MESSAGE_LIMIT }
        ensures { result ≡ reply_by self.entry }
    {
        match self {
            ReplyRef::NotMade => Reply::NotMade,
            ReplyRef::Code(code) => Reply::Code(code),
            ReplyRef::Id(id) => Reply::Id(id),
            ReplyRef::Received(message) => {
                Reply::Received(Message::from_bytes(message).unwrap())
            }
            ReplyRef::Read { message, validity } => Reply::Read {
                message: Message::from_bytes(message).unwrap(),
                validity,
            },
            ReplyRef::QueuingStatus {
                waiting,
                depth,
                size,
                direction,
            } => Reply::QueuingStatus {
                waiting,
                depth,
                size,
                direction,
            },
            ReplyRef::SamplingStatus {
                refresh,
                size,
                direction,
                last,
            } => Reply::SamplingStatus {
                refresh,
                size,
                direction,
                last,
            },
        }
    }

    /// Makes a reply equal to this one. If it is a return code or a received message as this one is, only that is written,
    /// and not the room of the longest reply.
    pub fn copy_to(self, reply: &mut Reply)
        requires { message_length (reply_by self) ≤ MESSAGE_LIMIT }
        ensures { reply.new ≡ reply_by self.entry }
    {
        match self {
            ReplyRef::Code(code) => copy_code(code, reply),
            ReplyRef::Received(bytes) => copy_received(bytes, reply),
            other => *reply = other.to_reply(),
        }
    }
}

fn copy_code(code: ReturnCode, reply: &mut Reply)
    ensures { reply.new ≡ Code code }
{
    match reply {
        Reply::Code(present) => *present = code,
        _ => *reply = Reply::Code(code),
    }
}

fn copy_received(bytes: &[u8], reply: &mut Reply)
    requires { length bytes.now ≤ MESSAGE_LIMIT }
    ensures { reply.new ≡ Received bytes.now }
{
    match reply {
        Reply::Received(message) => message.read_bytes(bytes).unwrap(),
        _ => *reply = Reply::Received(Message::from_bytes(bytes).unwrap()),
    }
}
