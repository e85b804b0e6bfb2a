//! The services through a handle that put a message into a buffer of C.
ghost use Rattle.std.specs.Prelude.{◌≡◌, ◌<◌, ◌≤◌, length, Some};
ghost use Rattle.apex_ports.specs.ReplyTable.{size_at};
ghost use Rattle.apex_c.specs.Asked.{IsCalled, asked_reply, lending, lending_call};
ghost use Rattle.apex_c.specs.Calls.{moment_of, ports_with, reply_number, reply_of_ports};
ghost use Rattle.apex_c.specs.Places.{IsMessagePut, message_in, validity_after};

use crate::answer::{NO_PARTITION, NOT_OPEN, SHORT_BUFFER};
use crate::handle::{Handle, number_of_code};
use apex_ports::Ports;
use apex_types::{Moment, ReturnCode};
use std::alloc::Global;

/// RECEIVE_QUEUING_MESSAGE or READ_SAMPLING_MESSAGE.
#[derive(Clone, Copy)]
pub(crate) enum Lending {
    Receive,
    Read,
}

impl Handle {
    /// Puts the message of a reply into the buffer, and its length and its validity into their places. Answers the number of
    /// the return code, or a number of `answer`.
    #[inline(always)]
    pub(crate) fn lend(
        &mut self,
        alloc: Global,
        partition: u32,
        at: u64,
        service: Lending,
        id: u32,
        buffer: &mut [u8],
        message_length: &mut u32,
        validity: &mut u32,
    ) -> u32
        ensures called { let asked = lending service self.old.held.ports partition
            (length buffer.old) id in
            IsCalled self.old.held.ports self.new.held.ports partition (moment_of at) asked result }
        ensures message { let asked = lending service self.old.held.ports partition
            (length buffer.old) id in
            let reply = asked_reply self.old.held.ports partition (moment_of at) asked in
            IsMessagePut (message_in reply) buffer.old buffer.new
            message_length.old message_length.new }
        ensures validity { let asked = lending service self.old.held.ports partition
            (length buffer.old) id in
            let reply = asked_reply self.old.held.ports partition (moment_of at) asked in
            validity.new ≡ validity_after reply validity.old }
    {
        let Some(mut ports) = self.take(alloc) else {
            return NOT_OPEN;
        };
        let answer = if (partition as usize) < ports.config().partitions() {
            let partition = partition as usize;
            if buffer.len() < ports.size_at(partition, id) {
                SHORT_BUFFER
            } else {
                lend(
                    &mut ports,
                    partition,
                    Moment(at),
                    service,
                    id,
                    buffer,
                    message_length,
                    validity,
                )
            }
        } else {
            NO_PARTITION
        };
        *self = Handle::of(ports);
        answer
    }
}

#[inline(always)]
fn lend(
    ports: &mut Ports,
    partition: usize,
    at: Moment,
    service: Lending,
    id: u32,
    buffer: &mut [u8],
    message_length: &mut u32,
    validity: &mut u32,
) -> u32
    requires partition { partition < length ports.old.config.partitions }
    requires room { size_at ports.old.config partition id ≤ length buffer.old }
    ensures answer { let asked = lending_call service id in
        result ≡ reply_number (reply_of_ports ports.old partition at asked) }
    ensures ports { ports.new ≡ ports_with ports.old partition at (lending_call service id) }
    ensures message { let reply =
        Some (reply_of_ports ports.old partition at (lending_call service id)) in
        IsMessagePut (message_in reply) buffer.old buffer.new
        message_length.old message_length.new }
    ensures validity { let reply =
        Some (reply_of_ports ports.old partition at (lending_call service id)) in
        validity.new ≡ validity_after reply validity.old }
{
    match service {
        Lending::Receive => match ports.receive(partition, at, id, buffer) {
            Ok(length) => {
                *message_length = length as u32;
                ReturnCode::NoError.number()
            }
            Err(code) => number_of_code(code),
        },
        Lending::Read => match ports.read(partition, at, id, buffer) {
            Ok((length, shown)) => {
                *message_length = length as u32;
                *validity = shown.number();
                ReturnCode::NoError.number()
            }
            Err(code) => number_of_code(code),
        },
    }
}
