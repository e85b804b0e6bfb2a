//! Calls, replies and samples by reference: a name or a message stays where it is.
ghost use Rattle.std.specs.Prelude.{◌≡◌, ◌≤◌, length};
ghost use Rattle.apex_types.specs.Sample.{validity_at};
ghost use Rattle.apex_ports.specs.Noted.{call_by, reply_by, sample_by};
ghost use Rattle.apex_ports.specs.Services.{length_read, length_received, length_sent, message_length, reply_coded, reply_read, reply_received};

use apex_types::{
    Call, Direction, MESSAGE_LIMIT, Moment, Name, Reply, ReturnCode, Sample, Validity,
};

/// A call. A contract sees it as the `Call` with the same name and values.
#[derive(Clone, Copy, Drop)]
pub enum CallRef<'a> {
    CreateSampling {
        name: &'a Name,
        size: u32,
        direction: u32,
        refresh: u64,
    },
    WriteSampling {
        id: u32,
        message: &'a [u8],
    },
    ReadSampling {
        id: u32,
    },
    SamplingId {
        name: &'a Name,
    },
    SamplingStatus {
        id: u32,
    },
    CreateQueuing {
        name: &'a Name,
        size: u32,
        depth: u32,
        direction: u32,
        discipline: u32,
    },
    SendQueuing {
        id: u32,
        message: &'a [u8],
    },
    ReceiveQueuing {
        id: u32,
    },
    QueuingId {
        name: &'a Name,
    },
    QueuingStatus {
        id: u32,
    },
    ClearQueuing {
        id: u32,
    },
    SetMode {
        mode: u32,
    },
}

/// A reply. A contract sees it as the `Reply` with the same name and values.
#[derive(Clone, Copy, Drop)]
pub enum ReplyRef<'a> {
    NotMade,
    Code(ReturnCode),
    Id(u32),
    Received(&'a [u8]),
    Read {
        message: &'a [u8],
        validity: Validity,
    },
    QueuingStatus {
        waiting: u32,
        depth: u32,
        size: u32,
        direction: Direction,
    },
    SamplingStatus {
        refresh: u64,
        size: u32,
        direction: Direction,
        last: Validity,
    },
}

/// A sample. A contract sees it as the `Sample` with the same message and moment.
#[derive(Clone, Copy, Debug, Drop)]
pub struct SampleRef<'a> {
    pub message: &'a [u8],
    pub at: Moment,
}

/// A call with the reply that it got.
#[derive(Clone, Copy, Drop)]
pub struct Event<'a> {
    /// The partition's number, from 0.
    pub partition: usize,
    pub at: Moment,
    pub call: CallRef<'a>,
    pub reply: ReplyRef<'a>,
}

impl<'a> SampleRef<'a> {
    /// The sample by reference.
    pub fn of(sample: &'a Sample) -> SampleRef<'a>
        ensures sample { sample_by result ≡ sample.now }
        ensures short { length result.message.now ≤ MESSAGE_LIMIT }
    {
        SampleRef {
            message: sample.message.bytes(),
            at: sample.at,
        }
    }

    /// VALID until `refresh` nanoseconds after the write, that moment included, computed without overflow.
    pub fn validity(self, now: Moment, refresh: u64) -> Validity
        ensures { result ≡ validity_at now.0 self.entry.at.0 refresh }
    {
        if now.0.saturating_sub(self.at.0) <= refresh {
            Validity::Valid
        } else {
            Validity::Invalid
        }
    }
}

impl<'a> CallRef<'a> {
    /// The call by reference.
    #[inline(always)]
    pub fn of(call: &'a Call) -> CallRef<'a>
        ensures call { call_by result ≡ call.now }
        ensures short { length_sent (call_by result) ≤ MESSAGE_LIMIT }
    {
        match call {
            Call::CreateSampling {
                name,
                size,
                direction,
                refresh,
            } => CallRef::CreateSampling {
                name,
                size: *size,
                direction: *direction,
                refresh: *refresh,
            },
            Call::CreateQueuing {
                name,
                size,
                depth,
                direction,
                discipline,
            } => CallRef::CreateQueuing {
                name,
                size: *size,
                depth: *depth,
                direction: *direction,
                discipline: *discipline,
            },
            Call::SamplingId { name } => CallRef::SamplingId { name },
            Call::QueuingId { name } => CallRef::QueuingId { name },
            Call::SamplingStatus { id } => CallRef::SamplingStatus { id: *id },
            Call::QueuingStatus { id } => CallRef::QueuingStatus { id: *id },
            Call::WriteSampling { id, message } => CallRef::WriteSampling {
                id: *id,
                message: message.bytes(),
            },
            Call::SendQueuing { id, message } => CallRef::SendQueuing {
                id: *id,
                message: message.bytes(),
            },
            Call::ReadSampling { id } => CallRef::ReadSampling { id: *id },
            Call::ReceiveQueuing { id } => CallRef::ReceiveQueuing { id: *id },
            Call::ClearQueuing { id } => CallRef::ClearQueuing { id: *id },
            Call::SetMode { mode } => CallRef::SetMode { mode: *mode },
        }
    }
}

impl<'a> ReplyRef<'a> {
    /// The reply with only this return code; without one the call isn't made.
    #[inline(always)]
    pub fn coded(code: Option<ReturnCode>) -> ReplyRef<'a>
        ensures reply { reply_by result ≡ reply_coded code }
        ensures short { message_length (reply_by result) ≤ MESSAGE_LIMIT }
    {
        match code {
            None => ReplyRef::NotMade,
            Some(code) => ReplyRef::Code(code),
        }
    }

    /// The reply to a receive that put a message of this length into the buffer, or the return code.
    #[inline(always)]
    pub fn received(answer: Result<usize, Option<ReturnCode>>, buffer: &'a [u8]) -> ReplyRef<'a>
        requires { length_received answer ≤ length buffer.now }
        ensures reply { reply_by result ≡ reply_received answer buffer.now }
        ensures short { length_received answer ≤ MESSAGE_LIMIT →
            message_length (reply_by result) ≤ MESSAGE_LIMIT }
    {
        match answer {
            Ok(length) => ReplyRef::Received(&buffer[..length]),
            Err(code) => ReplyRef::coded(code),
        }
    }

    /// The reply to a read that put a message of this length and validity into the buffer, or the return code.
    #[inline(always)]
    pub fn read(
        answer: Result<(usize, Validity), Option<ReturnCode>>,
        buffer: &'a [u8],
    ) -> ReplyRef<'a>
        requires { length_read answer ≤ length buffer.now }
        ensures reply { reply_by result ≡ reply_read answer buffer.now }
        ensures short { length_read answer ≤ MESSAGE_LIMIT →
            message_length (reply_by result) ≤ MESSAGE_LIMIT }
    {
        match answer {
            Ok((length, validity)) => ReplyRef::Read {
                message: &buffer[..length],
                validity,
            },
            Err(code) => ReplyRef::coded(code),
        }
    }

    /// The reply by reference.
    #[inline(always)]
    pub fn of(reply: &'a Reply) -> ReplyRef<'a>
        ensures reply { reply_by result ≡ reply.now }
        ensures short { message_length (reply_by result) ≤ MESSAGE_LIMIT }
    {
        match reply {
            Reply::NotMade => ReplyRef::NotMade,
            Reply::Code(code) => ReplyRef::Code(*code),
            Reply::Id(id) => ReplyRef::Id(*id),
            Reply::Received(message) => ReplyRef::Received(message.bytes()),
            Reply::Read { message, validity } => ReplyRef::Read {
                message: message.bytes(),
                validity: *validity,
            },
            Reply::QueuingStatus {
                waiting,
                depth,
                size,
                direction,
            } => ReplyRef::QueuingStatus {
                waiting: *waiting,
                depth: *depth,
                size: *size,
                direction: *direction,
            },
            Reply::SamplingStatus {
                refresh,
                size,
                direction,
                last,
            } => ReplyRef::SamplingStatus {
                refresh: *refresh,
                size: *size,
                direction: *direction,
                last: *last,
            },
        }
    }
}
