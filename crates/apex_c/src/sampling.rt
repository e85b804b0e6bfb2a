//! The services of sampling ports.
ghost use Rattle.std.specs.Prelude.{◌≡◌, length, Ok, Some};
ghost use Rattle.apex_types.specs.declared.call.Call.TheVariants as call;
ghost use Rattle.apex_ports.specs.Noted.{reply_by};
ghost use Rattle.apex_c.specs.Asked.{IsCalled, asked_reply, create_sampling, lending, sampling_id};
ghost use Rattle.apex_c.specs.declared.lending.Lending.TheVariants as lent;
ghost use Rattle.apex_c.specs.Calls.{moment_of, reply_in};
ghost use Rattle.apex_c.specs.Places.{IsMessagePut, id_after, message_in};
ghost use Rattle.apex_c.specs.Places.{sampling_status_after, validity_after};

use crate::calls::name_in;
use crate::handle::Handle;
use crate::lending::Lending;
use crate::services::number_of;
use apex_ports::{CallRef, ReplyRef};
use std::alloc::Global;

/// CREATE_SAMPLING_PORT, with the identifier in its place if the answer is NO_ERROR. The size is in bytes, the
/// refresh period in nanoseconds. Answers the return code, or a number of `answer`.
#[unsafe(no_mangle)]
pub extern "C" fn apex_create_sampling_port(
    alloc: Global,
    handle: &mut Handle,
    partition: u32,
    at: u64,
    name: &[u8],
    size: u32,
    direction: u32,
    refresh: u64,
    id: &mut u32,
) -> u32
    ensures called { let asked = create_sampling name.now size direction refresh in
        IsCalled handle.old.held.ports handle.new.held.ports partition (moment_of at) asked result }
    ensures id { let asked = create_sampling name.now size direction refresh in
        let reply = asked_reply handle.old.held.ports partition (moment_of at) asked in
        id.new ≡ id_after reply id.old }
{
    match name_in(name) {
        Ok(name) => {
            let call = CallRef::CreateSampling {
                name: &name,
                size,
                direction,
                refresh,
            };
            handle.identify(alloc, partition, at, call, id)
        }
        Err(number) => number,
    }
}

/// WRITE_SAMPLING_MESSAGE. Answers the return code, or a number of `answer`.
#[unsafe(no_mangle)]
pub extern "C" fn apex_write_sampling_message(
    alloc: Global,
    handle: &mut Handle,
    partition: u32,
    at: u64,
    id: u32,
    message: &[u8],
) -> u32
    ensures called { let asked = Ok (call.WriteSampling id message.now) in
        IsCalled handle.old.held.ports handle.new.held.ports partition (moment_of at) asked result }
{
    handle.answer(alloc, partition, at, CallRef::WriteSampling { id, message })
}

/// READ_SAMPLING_MESSAGE. If the answer is NO_ERROR, the message is in the buffer's first bytes, and its length and
/// its validity's number in their places. Answers the return code, or a number of `answer`.
#[unsafe(no_mangle)]
pub extern "C" fn apex_read_sampling_message(
    alloc: Global,
    handle: &mut Handle,
    partition: u32,
    at: u64,
    id: u32,
    buffer: &mut [u8],
    message_length: &mut u32,
    validity: &mut u32,
) -> u32
    ensures called { let asked = lending lent.Read handle.old.held.ports partition
        (length buffer.old) id in
        IsCalled handle.old.held.ports handle.new.held.ports partition (moment_of at) asked result }
    ensures message { let asked = lending lent.Read handle.old.held.ports partition
        (length buffer.old) id in
        let reply = asked_reply handle.old.held.ports partition (moment_of at) asked in
        IsMessagePut (message_in reply) buffer.old buffer.new
        message_length.old message_length.new }
    ensures validity { let asked = lending lent.Read handle.old.held.ports partition
        (length buffer.old) id in
        let reply = asked_reply handle.old.held.ports partition (moment_of at) asked in
        validity.new ≡ validity_after reply validity.old }
{
    let service = Lending::Read;
    handle.lend(
        alloc,
        partition,
        at,
        service,
        id,
        buffer,
        message_length,
        validity,
    )
}

/// GET_SAMPLING_PORT_ID, with the identifier in its place if the answer is NO_ERROR. Answers the return code, or a
/// number of `answer`.
#[unsafe(no_mangle)]
pub extern "C" fn apex_get_sampling_port_id(
    alloc: Global,
    handle: &mut Handle,
    partition: u32,
    at: u64,
    name: &[u8],
    id: &mut u32,
) -> u32
    ensures called { let asked = sampling_id name.now in
        IsCalled handle.old.held.ports handle.new.held.ports partition (moment_of at) asked result }
    ensures id { let asked = sampling_id name.now in
        let reply = asked_reply handle.old.held.ports partition (moment_of at) asked in
        id.new ≡ id_after reply id.old }
{
    match name_in(name) {
        Ok(name) => handle.identify(
            alloc,
            partition,
            at,
            CallRef::SamplingId { name: &name },
            id,
        ),
        Err(number) => number,
    }
}

/// What GET_SAMPLING_PORT_STATUS shows: the refresh period in nanoseconds, the greatest length of a message in bytes,
/// and the numbers of the direction and of the validity of the last read.
#[repr(C)]
#[derive(Clone, Copy, Drop)]
pub struct SamplingPortStatus {
    pub refresh: u64,
    pub size: u32,
    pub direction: u32,
    pub last_validity: u32,
}

/// GET_SAMPLING_PORT_STATUS, with the status in its place if the answer is NO_ERROR. Answers the return code, or a
/// number of `answer`.
#[unsafe(no_mangle)]
pub extern "C" fn apex_get_sampling_port_status(
    alloc: Global,
    handle: &mut Handle,
    partition: u32,
    at: u64,
    id: u32,
    status: &mut SamplingPortStatus,
) -> u32
    ensures called { let asked = Ok (call.SamplingStatus id) in
        IsCalled handle.old.held.ports handle.new.held.ports partition (moment_of at) asked result }
    ensures status { let asked = call.SamplingStatus id in
        let reply = reply_in handle.old.held.ports partition (moment_of at) asked in
        status.new ≡ sampling_status_after reply status.old }
{
    match handle.reply(alloc, partition, at, CallRef::SamplingStatus { id }) {
        Ok(reply) => {
            put_status(reply, status);
            number_of(reply)
        }
        Err(number) => number,
    }
}

fn put_status(reply: ReplyRef<'_>, status: &mut SamplingPortStatus)
    ensures { status.new ≡ sampling_status_after (Some (reply_by reply.entry)) status.old }
{
    if let ReplyRef::SamplingStatus {
        refresh,
        size,
        direction,
        last,
    } = reply
    {
        *status = SamplingPortStatus {
            refresh,
            size,
            direction: direction.number(),
            last_validity: last.number(),
        };
    }
}
