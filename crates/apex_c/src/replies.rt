//! Replies as C gives and takes them.
ghost use Rattle.std.specs.Prelude.{◌≡◌};
ghost use Rattle.apex_c.specs.Asked.{message_asked};
ghost use Rattle.apex_c.specs.Replies.{accepted_reply, code_numbered, direction_numbered, numbers_of, queuing_status_reply, read_reply, received_reply, reply_coded, reply_of_service, sampling_status_reply, validity_numbered};

use crate::answer::{NO_REPLY, NOT_MADE};
use crate::calls::message_in;
use apex_texts::Service;
use apex_types::{Direction, Reply, ReturnCode, Validity};

/// A reply: the number of its return code, or `NOT_MADE`, and what the service gives beside NO_ERROR but for a message.
/// A value that the service doesn't give has no effect, and is 0 in a reply that C is given.
#[repr(C)]
#[derive(Clone, Copy, Drop)]
pub struct NumberedReply {
    pub refresh: u64,
    pub code: u32,
    pub id: u32,
    pub waiting: u32,
    pub depth: u32,
    pub size: u32,
    pub direction: u32,
    pub validity: u32,
}

const NOTHING: NumberedReply = NumberedReply {
    refresh: 0,
    code: 0,
    id: 0,
    waiting: 0,
    depth: 0,
    size: 0,
    direction: 0,
    validity: 0,
};

impl NumberedReply {
    /// The numbers of a reply.
    pub(crate) fn of(reply: &Reply) -> NumberedReply
        ensures { result ≡ numbers_of reply.now }
    {
        match reply {
            Reply::NotMade => NumberedReply {
                code: NOT_MADE,
                ..NOTHING
            },
            Reply::Code(code) => NumberedReply {
                code: code.number(),
                ..NOTHING
            },
            Reply::Id(id) => NumberedReply { id: *id, ..NOTHING },
            Reply::Received(_) => NOTHING,
            Reply::Read { validity, .. } => NumberedReply {
                validity: validity.number(),
                ..NOTHING
            },
            Reply::QueuingStatus {
                waiting,
                depth,
                size,
                direction,
            } => NumberedReply {
                waiting: *waiting,
                depth: *depth,
                size: *size,
                direction: direction.number(),
                ..NOTHING
            },
            Reply::SamplingStatus {
                refresh,
                size,
                direction,
                last,
            } => NumberedReply {
                refresh: *refresh,
                size: *size,
                direction: direction.number(),
                validity: last.number(),
                ..NOTHING
            },
        }
    }

    /// The reply of a service, with the message in the bytes, or the number that says why it isn't one.
    pub(crate) fn of_service(&self, service: Service, message: &[u8]) -> Result<Reply, u32>
        ensures { result ≡ reply_of_service self.now message.now service }
    {
        if self.code == NOT_MADE {
            return Ok(Reply::NotMade);
        }
        self.coded(service, message, code_numbered(self.code))
    }

    fn coded(
        &self,
        service: Service,
        message: &[u8],
        code: Option<ReturnCode>,
    ) -> Result<Reply, u32>
        ensures { result ≡ reply_coded self.now message.now service code }
    {
        match code {
            None => Err(NO_REPLY),
            Some(ReturnCode::NoError) => self.accepted(service, message),
            Some(code) => Ok(Reply::Code(code)),
        }
    }

    fn accepted(&self, service: Service, message: &[u8]) -> Result<Reply, u32>
        ensures { result ≡ accepted_reply self.now message.now service }
    {
        match service {
            Service::CreateSampling
            | Service::SamplingId
            | Service::CreateQueuing
            | Service::QueuingId => Ok(Reply::Id(self.id)),
            Service::ReadSampling => self.read(message),
            Service::ReceiveQueuing => received(message),
            Service::SamplingStatus => self.sampling_status(),
            Service::QueuingStatus => self.queuing_status(),
            Service::WriteSampling
            | Service::SendQueuing
            | Service::ClearQueuing
            | Service::SetMode => Ok(Reply::Code(ReturnCode::NoError)),
        }
    }

    fn read(&self, message: &[u8]) -> Result<Reply, u32>
        ensures { let validity = validity_numbered self.now.validity in
            result ≡ read_reply validity (message_asked message.now) }
    {
        let message = message_in(message)?;
        match validity_numbered(self.validity) {
            Some(validity) => Ok(Reply::Read { message, validity }),
            None => Err(NO_REPLY),
        }
    }

    fn queuing_status(&self) -> Result<Reply, u32>
        ensures { let direction = direction_numbered self.now.direction in
            result ≡ queuing_status_reply self.now direction }
    {
        match direction_numbered(self.direction) {
            None => Err(NO_REPLY),
            Some(direction) => Ok(Reply::QueuingStatus {
                waiting: self.waiting,
                depth: self.depth,
                size: self.size,
                direction,
            }),
        }
    }

    fn sampling_status(&self) -> Result<Reply, u32>
        ensures { let direction = direction_numbered self.now.direction in
            let last = validity_numbered self.now.validity in
            result ≡ sampling_status_reply self.now direction last }
    {
        match (
            direction_numbered(self.direction),
            validity_numbered(self.validity),
        ) {
            (Some(direction), Some(last)) => Ok(Reply::SamplingStatus {
                refresh: self.refresh,
                size: self.size,
                direction,
                last,
            }),
            _ => Err(NO_REPLY),
        }
    }
}

fn received(message: &[u8]) -> Result<Reply, u32>
    ensures { result ≡ received_reply (message_asked message.now) }
{
    let message = message_in(message)?;
    Ok(Reply::Received(message))
}

fn code_numbered(number: u32) -> Option<ReturnCode>
    ensures { result ≡ code_numbered number }
{
    match number {
        0 => Some(ReturnCode::NoError),
        1 => Some(ReturnCode::NoAction),
        2 => Some(ReturnCode::NotAvailable),
        3 => Some(ReturnCode::InvalidParam),
        4 => Some(ReturnCode::InvalidConfig),
        5 => Some(ReturnCode::InvalidMode),
        6 => Some(ReturnCode::TimedOut),
        _ => None,
    }
}

fn direction_numbered(number: u32) -> Option<Direction>
    ensures { result ≡ direction_numbered number }
{
    match number {
        0 => Some(Direction::Source),
        1 => Some(Direction::Destination),
        _ => None,
    }
}

fn validity_numbered(number: u32) -> Option<Validity>
    ensures { result ≡ validity_numbered number }
{
    match number {
        0 => Some(Validity::Invalid),
        1 => Some(Validity::Valid),
        _ => None,
    }
}
