//! Calls that C asks about, without making them: the row of the reply table that a call gets, and its words.
ghost use Rattle.std.specs.Prelude.{◌≡◌, ◌≢◌, ◌<◌, length, Some, Ok, Err, IfOk, IfErr};
ghost use Rattle.apex_ports.specs.Noted.{call_by};
ghost use Rattle.apex_c.specs.AskedRow.{call_asked, call_judged, call_of, call_of_found, row_in, service_numbered};
ghost use Rattle.apex_c.specs.Calls.{moment_of};
ghost use Rattle.apex_c.specs.Found.{IsPut};
ghost use Rattle.apex_c.specs.Texts.{IsTextFor};

use crate::answer::{NO_MEMORY, NO_PARTITION, NO_SERVICE, NOT_OPEN};
use crate::buffer::put_text;
use crate::calls::{entry_call, name_in};
use crate::found::{partition_of, put};
use crate::handle::Handle;
use crate::rows::row_number;
use apex_ports::{CallRef, Ports};
use apex_texts::Service;
use apex_types::{Call, Moment, Name};
use apex_words::push_words;
use std::alloc::{AllocError, Global};

/// A call: the number of its service, and the values that it is made with. A value that the service doesn't take has no
/// effect.
#[repr(C)]
#[derive(Clone, Copy, Drop)]
pub struct AskedCall {
    pub refresh: u64,
    pub service: u32,
    pub id: u32,
    pub size: u32,
    pub depth: u32,
    pub direction: u32,
    pub discipline: u32,
    pub mode: u32,
}

impl AskedCall {
    /// The call with this name, which was read from the bytes, or with the bytes as its message; or the number that says why
    /// there is none.
    pub(crate) fn with<'a>(
        &self,
        name: &'a Result<Name, u32>,
        bytes: &'a [u8],
    ) -> Result<CallRef<'a>, u32>
        ensures call { let service = service_numbered self.now.service in
            let asked = call_of_found self.now name.now bytes.now service in
            IfOk result (λ call. asked ≡ Ok (call_by call)) }
        ensures refused { let service = service_numbered self.now.service in
            let asked = call_of_found self.now name.now bytes.now service in
            IfErr result (λ number. asked ≡ Err number) }
    {
        match service_numbered(self.service) {
            Some(service) => self.call_of(service, name, bytes),
            None => Err(NO_SERVICE),
        }
    }

    /// The call as an entry of a log has it, or the number that says why there is none.
    pub(crate) fn entry_call(&self, bytes: &[u8]) -> Result<Call, u32>
        ensures { result ≡ call_judged self.now bytes.now }
    {
        let name = name_in(bytes);
        match self.with(&name, bytes) {
            Ok(call) => entry_call(call),
            Err(number) => Err(number),
        }
    }

    fn call_of<'a>(
        &self,
        service: Service,
        name: &'a Result<Name, u32>,
        bytes: &'a [u8],
    ) -> Result<CallRef<'a>, u32>
        ensures call { let asked = call_of self.now name.now bytes.now service in
            IfOk result (λ call. asked ≡ Ok (call_by call)) }
        ensures refused { let asked = call_of self.now name.now bytes.now service in
            IfErr result (λ number. asked ≡ Err number) }
    {
        let id = self.id;
        Ok(match service {
            Service::CreateSampling => CallRef::CreateSampling {
                name: named(name)?,
                size: self.size,
                direction: self.direction,
                refresh: self.refresh,
            },
            Service::CreateQueuing => CallRef::CreateQueuing {
                name: named(name)?,
                size: self.size,
                depth: self.depth,
                direction: self.direction,
                discipline: self.discipline,
            },
            Service::SamplingId => CallRef::SamplingId { name: named(name)? },
            Service::QueuingId => CallRef::QueuingId { name: named(name)? },
            Service::SamplingStatus => CallRef::SamplingStatus { id },
            Service::QueuingStatus => CallRef::QueuingStatus { id },
            Service::WriteSampling => CallRef::WriteSampling { id, message: bytes },
            Service::SendQueuing => CallRef::SendQueuing { id, message: bytes },
            Service::ReadSampling => CallRef::ReadSampling { id },
            Service::ReceiveQueuing => CallRef::ReceiveQueuing { id },
            Service::ClearQueuing => CallRef::ClearQueuing { id },
            Service::SetMode => CallRef::SetMode { mode: self.mode },
        })
    }
}

// The name, or the number that says that there is none.
fn named(name: &Result<Name, u32>) -> Result<&Name, u32>
    ensures name { IfOk result (λ it. name.now ≡ Ok it.now) }
    ensures none { IfErr result (λ number. name.now ≡ Err number) }
{
    match name {
        Ok(name) => Ok(name),
        Err(number) => Err(*number),
    }
}

pub(crate) fn service_numbered(number: u32) -> Option<Service>
    ensures { result ≡ service_numbered number }
{
    match number {
        0 => Some(Service::CreateSampling),
        1 => Some(Service::WriteSampling),
        2 => Some(Service::ReadSampling),
        3 => Some(Service::SamplingId),
        4 => Some(Service::SamplingStatus),
        5 => Some(Service::CreateQueuing),
        6 => Some(Service::SendQueuing),
        7 => Some(Service::ReceiveQueuing),
        8 => Some(Service::QueuingId),
        9 => Some(Service::QueuingStatus),
        10 => Some(Service::ClearQueuing),
        11 => Some(Service::SetMode),
        _ => None,
    }
}

/// The number of the row of the reply table that a call of the partition would get at the moment, in its place if
/// the answer is `READ`. The call isn't made. Answers `READ`, `NO_SERVICE`, `NO_NAME`, `NOT_OPEN` or
/// `NO_PARTITION`.
#[unsafe(no_mangle)]
pub extern "C" fn apex_call_row(
    alloc: Global,
    handle: &mut Handle,
    partition: u32,
    at: u64,
    call: &AskedCall,
    bytes: &[u8],
    row: &mut u32,
) -> u32
    ensures row { let asked = call_asked call.now bytes.now in
        let found = row_in handle.old.held.ports partition (moment_of at) asked in
        IsPut found result row.old row.new }
    ensures ports { handle.new.held.ports ≡ handle.old.held.ports }
{
    let name = name_in(bytes);
    match call.with(&name, bytes) {
        Ok(call) => put(row_in(alloc, handle, partition, Moment(at), call), row),
        Err(number) => number,
    }
}

// The number of the row of a call of the partition.
fn row_in(
    alloc: Global,
    handle: &mut Handle,
    partition: u32,
    at: Moment,
    call: CallRef<'_>,
) -> Result<u32, u32>
    ensures row { let asked = call_by call.entry in
        result ≡ row_in handle.old.held.ports partition at (Ok asked) }
    ensures ports { handle.new.held.ports ≡ handle.old.held.ports }
{
    let Some(ports) = handle.take(alloc) else {
        return Err(NOT_OPEN);
    };
    let found = row_of(&ports, partition, at, call);
    *handle = Handle::of(ports);
    found
}

fn row_of(ports: &Ports, partition: u32, at: Moment, call: CallRef<'_>) -> Result<u32, u32>
    ensures { let asked = call_by call.entry in
        result ≡ row_in (Some ports.now) partition at (Ok asked) }
{
    let partition = partition_of(ports, partition)?;
    Ok(row_number(ports.row(partition, at, call)))
}

/// The words of that row: why the call would not be made or would be refused. An accepted call has none. The length of the
/// words is put into its place, and if the answer is `READ`, the words are in the buffer's first bytes. Answers as
/// `apex_call_row`, `SHORT_BUFFER` if the buffer has no room for the words, or `NO_MEMORY`, after which nothing has
/// changed.
#[unsafe(no_mangle)]
pub extern "C" fn apex_call_words(
    alloc: Global,
    handle: &mut Handle,
    partition: u32,
    at: u64,
    call: &AskedCall,
    bytes: &[u8],
    buffer: &mut [u8],
    words_length: &mut u64,
) -> u32
    ensures words { let asked = call_asked call.now bytes.now in
        let row = row_in handle.old.held.ports partition (moment_of at) asked in
        result ≢ NO_MEMORY → IsTextFor row result
        buffer.old words_length.old buffer.new words_length.new }
    ensures no_memory { result ≡ NO_MEMORY →
        (buffer.new ≡ buffer.old) × (words_length.new ≡ words_length.old) }
    ensures ports { handle.new.held.ports ≡ handle.old.held.ports }
{
    let name = name_in(bytes);
    match call.with(&name, bytes) {
        Ok(call) => put_words(
            alloc,
            handle,
            partition,
            Moment(at),
            call,
            buffer,
            words_length,
        ),
        Err(number) => number,
    }
}

// Puts the words of the row of a call of the partition into the buffer, and their length into its place.
fn put_words(
    alloc: Global,
    handle: &mut Handle,
    partition: u32,
    at: Moment,
    call: CallRef<'_>,
    buffer: &mut [u8],
    words_length: &mut u64,
) -> u32
    ensures words { let asked = call_by call.entry in
        let row = row_in handle.old.held.ports partition at (Ok asked) in
        result ≢ NO_MEMORY → IsTextFor row result
        buffer.old words_length.old buffer.new words_length.new }
    ensures no_memory { result ≡ NO_MEMORY →
        (buffer.new ≡ buffer.old) × (words_length.new ≡ words_length.old) }
    ensures ports { handle.new.held.ports ≡ handle.old.held.ports }
{
    let Some(ports) = handle.take(alloc) else {
        return NOT_OPEN;
    };
    let answer = if (partition as usize) < ports.config().partitions() {
        match words_of_call(alloc, &ports, partition as usize, at, call) {
            Ok(words) => put_text(words.as_bytes(), buffer, words_length),
            Err(_) => NO_MEMORY,
        }
    } else {
        NO_PARTITION
    };
    *handle = Handle::of(ports);
    answer
}

// The words of the row of a call.
fn words_of_call(
    alloc: Global,
    ports: &Ports,
    partition: usize,
    at: Moment,
    call: CallRef<'_>,
) -> Result<String, AllocError>
    requires { partition < length ports.now.config.partitions }
{
    let mut words = String::new(alloc);
    let row = ports.row(partition, at, call);
    push_words(&mut words, ports.config(), partition, call, row)?;
    Ok(words)
}
