//! The replies to calls.
ghost use Rattle.std.specs.Prelude.{◌≡◌};
ghost use Rattle.apex_types.specs.Reply.{code_of};

use crate::direction::Direction;
use crate::message::Message;
use crate::return_code::ReturnCode;
use crate::validity::Validity;

/// The answer to a call: its return code and its data.
#[derive(Debug, Drop, PartialEq, Eq)]
pub enum Reply {
    /// The partition is in IDLE: the call wasn't made, and there is no return code.
    NotMade,
    /// A return code without data. For a receive or a read it means length 0, and for a read validity INVALID.
    Code(ReturnCode),
    /// NO_ERROR with a port's identifier.
    Id(u32),
    /// NO_ERROR with a queuing message.
    Received(Message),
    /// NO_ERROR with a sampling message.
    Read {
        message: Message,
        validity: Validity,
    },
    /// NO_ERROR with a queuing port's status: the number of waiting messages, the depth, the size in bytes and the
    /// direction.
    QueuingStatus {
        waiting: u32,
        depth: u32,
        size: u32,
        direction: Direction,
    },
    /// NO_ERROR with a sampling port's status: the refresh period in nanoseconds, the size in bytes, the direction and
    /// the validity of its last read.
    SamplingStatus {
        refresh: u64,
        size: u32,
        direction: Direction,
        last: Validity,
    },
}

impl Reply {
    /// The return code, if the call was made.
    pub fn code(&self) -> Option<ReturnCode>
        ensures { result ≡ code_of self.now }
    {
        match self {
            Reply::NotMade => None,
            Reply::Code(code) => Some(*code),
            _ => Some(ReturnCode::NoError),
        }
    }

    /// A copy of the reply.
    pub fn copy(&self) -> Reply
        ensures { result ≡ self.now }
    {
        match self {
            Reply::NotMade => Reply::NotMade,
            Reply::Code(code) => Reply::Code(*code),
            Reply::Id(id) => Reply::Id(*id),
            Reply::Received(message) => Reply::Received(message.copy()),
            Reply::Read { message, validity } => Reply::Read {
                message: message.copy(),
                validity: *validity,
            },
            Reply::QueuingStatus {
                waiting,
                depth,
                size,
                direction,
            } => Reply::QueuingStatus {
                waiting: *waiting,
                depth: *depth,
                size: *size,
                direction: *direction,
            },
            Reply::SamplingStatus {
                refresh,
                size,
                direction,
                last,
            } => Reply::SamplingStatus {
                refresh: *refresh,
                size: *size,
                direction: *direction,
                last: *last,
            },
        }
    }
}
