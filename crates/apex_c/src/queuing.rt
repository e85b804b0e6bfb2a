//! The services of queuing ports.
ghost use Rattle.std.specs.Prelude.{◌≡◌, length, Ok, Some};
ghost use Rattle.apex_types.specs.declared.call.Call.TheVariants as call;
ghost use Rattle.apex_ports.specs.Noted.{reply_by};
ghost use Rattle.apex_c.specs.Asked.{IsCalled, asked_reply, create_queuing, lending, queuing_id};
ghost use Rattle.apex_c.specs.declared.lending.Lending.TheVariants as lent;
ghost use Rattle.apex_c.specs.Calls.{moment_of, reply_in};
ghost use Rattle.apex_c.specs.Places.{IsMessagePut, id_after, message_in, queuing_status_after};

use crate::calls::name_in;
use crate::handle::Handle;
use crate::lending::Lending;
use crate::services::number_of;
use apex_ports::{CallRef, ReplyRef};
use std::alloc::Global;

/// CREATE_QUEUING_PORT, with the identifier in its place if the answer is NO_ERROR. The size is in bytes, the depth
/// in messages. Answers the return code, or a number of `answer`.
#[unsafe(no_mangle)]
pub extern "C" fn apex_create_queuing_port(
    alloc: Global,
    handle: &mut Handle,
    partition: u32,
    at: u64,
    name: &[u8],
    size: u32,
    depth: u32,
    direction: u32,
    discipline: u32,
    id: &mut u32,
) -> u32
    ensures called { let asked = create_queuing name.now size depth direction discipline in
        IsCalled handle.old.held.ports handle.new.held.ports partition (moment_of at) asked result }
    ensures id { let asked = create_queuing name.now size depth direction discipline in
        let reply = asked_reply handle.old.held.ports partition (moment_of at) asked in
        id.new ≡ id_after reply id.old }
{
    match name_in(name) {
        Ok(name) => {
            let call = CallRef::CreateQueuing {
                name: &name,
                size,
                depth,
                direction,
                discipline,
            };
            handle.identify(alloc, partition, at, call, id)
        }
        Err(number) => number,
    }
}

/// SEND_QUEUING_MESSAGE with a time-out of zero. Answers the return code, or a number of `answer`.
#[unsafe(no_mangle)]
pub extern "C" fn apex_send_queuing_message(
    alloc: Global,
    handle: &mut Handle,
    partition: u32,
    at: u64,
    id: u32,
    message: &[u8],
) -> u32
    ensures called { let asked = Ok (call.SendQueuing id message.now) in
        IsCalled handle.old.held.ports handle.new.held.ports partition (moment_of at) asked result }
{
    handle.answer(alloc, partition, at, CallRef::SendQueuing { id, message })
}

/// RECEIVE_QUEUING_MESSAGE with a time-out of zero. If the answer is NO_ERROR, the message is in the buffer's first
/// bytes, and its length in its place. Answers the return code, or a number of `answer`.
#[unsafe(no_mangle)]
pub extern "C" fn apex_receive_queuing_message(
    alloc: Global,
    handle: &mut Handle,
    partition: u32,
    at: u64,
    id: u32,
    buffer: &mut [u8],
    message_length: &mut u32,
) -> u32
    ensures called { let asked = lending lent.Receive handle.old.held.ports partition
        (length buffer.old) id in
        IsCalled handle.old.held.ports handle.new.held.ports partition (moment_of at) asked result }
    ensures message { let asked = lending lent.Receive handle.old.held.ports partition
        (length buffer.old) id in
        let reply = asked_reply handle.old.held.ports partition (moment_of at) asked in
        IsMessagePut (message_in reply) buffer.old buffer.new
        message_length.old message_length.new }
{
    let service = Lending::Receive;
    handle.lend(
        alloc,
        partition,
        at,
        service,
        id,
        buffer,
        message_length,
        &mut 0,
    )
}

/// GET_QUEUING_PORT_ID, with the identifier in its place if the answer is NO_ERROR. Answers the return code, or a
/// number of `answer`.
#[unsafe(no_mangle)]
pub extern "C" fn apex_get_queuing_port_id(
    alloc: Global,
    handle: &mut Handle,
    partition: u32,
    at: u64,
    name: &[u8],
    id: &mut u32,
) -> u32
    ensures called { let asked = queuing_id name.now in
        IsCalled handle.old.held.ports handle.new.held.ports partition (moment_of at) asked result }
    ensures id { let asked = queuing_id name.now in
        let reply = asked_reply handle.old.held.ports partition (moment_of at) asked in
        id.new ≡ id_after reply id.old }
{
    match name_in(name) {
        Ok(name) => handle.identify(alloc, partition, at, CallRef::QueuingId { name: &name }, id),
        Err(number) => number,
    }
}

/// CLEAR_QUEUING_PORT. Answers the return code, or a number of `answer`.
#[unsafe(no_mangle)]
pub extern "C" fn apex_clear_queuing_port(
    alloc: Global,
    handle: &mut Handle,
    partition: u32,
    at: u64,
    id: u32,
) -> u32
    ensures called { let asked = Ok (call.ClearQueuing id) in
        IsCalled handle.old.held.ports handle.new.held.ports partition (moment_of at) asked result }
{
    handle.answer(alloc, partition, at, CallRef::ClearQueuing { id })
}

/// What GET_QUEUING_PORT_STATUS shows: the messages that wait, the depth, the greatest length of a message in bytes and
/// the direction's number.
#[repr(C)]
#[derive(Clone, Copy, Drop)]
pub struct QueuingPortStatus {
    pub waiting: u32,
    pub depth: u32,
    pub size: u32,
    pub direction: u32,
}

/// GET_QUEUING_PORT_STATUS, with the status in its place if the answer is NO_ERROR. Answers the return code, or a
/// number of `answer`.
#[unsafe(no_mangle)]
pub extern "C" fn apex_get_queuing_port_status(
    alloc: Global,
    handle: &mut Handle,
    partition: u32,
    at: u64,
    id: u32,
    status: &mut QueuingPortStatus,
) -> u32
    ensures called { let asked = Ok (call.QueuingStatus id) in
        IsCalled handle.old.held.ports handle.new.held.ports partition (moment_of at) asked result }
    ensures status { let asked = call.QueuingStatus id in
        let reply = reply_in handle.old.held.ports partition (moment_of at) asked in
        status.new ≡ queuing_status_after reply status.old }
{
    match handle.reply(alloc, partition, at, CallRef::QueuingStatus { id }) {
        Ok(reply) => {
            put_status(reply, status);
            number_of(reply)
        }
        Err(number) => number,
    }
}

fn put_status(reply: ReplyRef<'_>, status: &mut QueuingPortStatus)
    ensures { status.new ≡ queuing_status_after (Some (reply_by reply.entry)) status.old }
{
    if let ReplyRef::QueuingStatus {
        waiting,
        depth,
        size,
        direction,
    } = reply
    {
        *status = QueuingPortStatus {
            waiting,
            depth,
            size,
            direction: direction.number(),
        };
    }
}
