//! Judging the calls of a system as it makes them: whether each is answered as the standard says.
ghost use Rattle.std.specs.Prelude.{◌≡◌, ◌≢◌, ◌⊎◌, ◌<◌, ◌≤◌, ◌∷◌, ◌++◌, [], length, None, Some, Ok, Err, is_some, if◌then◌else◌, option_map, IfOk, IfErr};
ghost use Rattle.apex_config.specs.Meaning.{config_of};
ghost use Rattle.apex_ports.specs.History.{entry_of};
ghost use Rattle.apex_judge.specs.Departures.{instead_of};
ghost use Rattle.apex_c.specs.AskedRow.{call_judged};
ghost use Rattle.apex_c.specs.Calls.{moment_of};
ghost use Rattle.apex_c.specs.Judging.{IsShown, IsShownFor, judge_after, judge_at_start, judged_answer, judged_in, noted_in, reply_given};
ghost use Rattle.apex_c.specs.Opening.{IsOpening, opening_number};
ghost use Rattle.apex_c.specs.Places.{buffer_after, length_after, message_in};

use crate::answer::{DEPARTS, NO_MEMORY, NO_PARTITION, NO_SERVICE, NOT_OPEN, SHORT_BUFFER};
use crate::asked::{AskedCall, service_numbered};
use crate::buffer::{copy_bytes, put_text};
use crate::judge_handle::JudgeHandle;
use crate::opening::{ALREADY_OPEN, CLOSED, OPENED, OUT_OF_MEMORY, number_of_fault};
use crate::replies::NumberedReply;
use crate::rows::row_number;
use apex_config::ReadConfig;
use apex_judge::{Expected, Judge};
use apex_module::Config;
use apex_ports::CallRef;
use apex_types::{Call, MESSAGE_LIMIT, Moment, OutOfMemory, Reply};
use apex_words::push_words;
use std::alloc::{AllocError, Global};

/// The reply is the standard's.
pub const AGREES: u32 = 0;

/// What the standard has for a call whose reply departs: its reply, the number of its row, and the lengths of its message
/// and of the words of the row, in bytes.
#[repr(C)]
#[derive(Clone, Copy, Drop)]
pub struct Departure {
    pub words_length: u64,
    pub standard: NumberedReply,
    pub row: u32,
    pub message_length: u32,
}

/// Opens a judge of a configuration, before the first call. Answers `OPENED`, the number of the configuration's fault
/// (1 to 10), `OUT_OF_MEMORY` or `ALREADY_OPEN`.
#[unsafe(no_mangle)]
pub extern "C" fn apex_judge_open(alloc: Global, judge: &mut JudgeHandle, text: &[u8]) -> u32
    ensures { let config = config_of text.now in IsOpening
        judge.old.held.judge judge.new.held.judge
        (judge_at_start config) (opening_number config) result }
{
    if judge.is_open() {
        return ALREADY_OPEN;
    }
    match Config::read(alloc, text) {
        Ok(config) => open(alloc, judge, config),
        Err(fault) => number_of_fault(fault),
    }
}

/// Closes a judge and gives its memory back. Answers `CLOSED` or `NOT_OPEN`.
#[unsafe(no_mangle)]
pub extern "C" fn apex_judge_close(alloc: Global, judge: &mut JudgeHandle) -> u32
    ensures closed { judge.new.held.judge ≡ None }
    ensures answer { result ≡ (if is_some judge.old.held.judge then CLOSED else NOT_OPEN) }
{
    match judge.take(alloc) {
        Some(judge) => {
            drop(judge);
            CLOSED
        }
        None => NOT_OPEN,
    }
}

/// Judges a call that a system made and the reply that it got, after the calls before it, and notes it. Answers `AGREES` or
/// `DEPARTS`; if it departs, the standard's reply is put into its places, and the words of its row into `words` if they have
/// room. Answers `SHORT_BUFFER` if `buffer` is shorter than the longest message, `NO_SERVICE`, `NO_NAME`, `TOO_LONG`,
/// `NO_REPLY`, `NOT_OPEN`, `NO_PARTITION` or `NO_MEMORY`, after which nothing has changed.
#[unsafe(no_mangle)]
pub extern "C" fn apex_judge_call(
    alloc: Global,
    judge: &mut JudgeHandle,
    partition: u32,
    at: u64,
    call: &AskedCall,
    bytes: &[u8],
    reply: &NumberedReply,
    message: &[u8],
    departure: &mut Departure,
    buffer: &mut [u8],
    words: &mut [u8],
) -> u32
    ensures answer { let asked = call_judged call.now bytes.now in
        let given = reply_given call.now reply.now message.now in
        let held = judge.old.held.judge in
        let judged = judged_in (length buffer.old) held partition (moment_of at) asked given in
        result ≢ NO_MEMORY → result ≡ judged_answer judged }
    ensures noted { let asked = call_judged call.now bytes.now in
        let given = reply_given call.now reply.now message.now in
        let held = judge.old.held.judge in
        let noted = noted_in (length buffer.old) held partition (moment_of at) asked given in
        result ≢ NO_MEMORY → judge.new.held.judge ≡ judge_after noted held }
    ensures shown { let asked = call_judged call.now bytes.now in
        let given = reply_given call.now reply.now message.now in
        let held = judge.old.held.judge in
        let judged = judged_in (length buffer.old) held partition (moment_of at) asked given in
        result ≢ NO_MEMORY → IsShownFor judged
        departure.old departure.new buffer.old buffer.new words.old words.new }
    ensures judge_kept { result ≡ NO_MEMORY → judge.new.held.judge ≡ judge.old.held.judge }
    ensures places_kept { result ≡ NO_MEMORY → (departure.new ≡ departure.old)
        × (buffer.new ≡ buffer.old) × (words.new ≡ words.old) }
{
    if buffer.len() < MESSAGE_LIMIT {
        return SHORT_BUFFER;
    }
    let asked = match call.entry_call(bytes) {
        Ok(asked) => asked,
        Err(number) => return number,
    };
    let given = match reply_given(call, reply, message) {
        Ok(given) => given,
        Err(number) => return number,
    };
    match judged(alloc, judge, partition, Moment(at), &asked, &given) {
        Ok(None) => AGREES,
        Ok(Some(departs)) => {
            show(&departs, departure, buffer, words);
            DEPARTS
        }
        Err(number) => number,
    }
}

// The reply that C gives to a call, or the number that says why it isn't one.
fn reply_given(call: &AskedCall, reply: &NumberedReply, message: &[u8]) -> Result<Reply, u32>
    ensures { result ≡ reply_given call.now reply.now message.now }
{
    match service_numbered(call.service) {
        Some(service) => reply.of_service(service, message),
        None => Err(NO_SERVICE),
    }
}

// What the standard has for a call that departs, with the words of its row.
#[derive(Drop)]
pub(crate) struct Departs {
    pub(crate) expected: Expected,
    words: String,
}

// Judges a call of a partition, if the handle is open and has the partition, and notes it.
fn judged(
    alloc: Global,
    handle: &mut JudgeHandle,
    partition: u32,
    at: Moment,
    call: &Call,
    reply: &Reply,
) -> Result<Option<Departs>, u32>
    ensures judged { let held = handle.old.held.judge in
        let room = MESSAGE_LIMIT in
        let judged = judged_in room held partition at (Ok call.now) (Ok reply.now) in
        IfOk result (λ departs. judged ≡ Ok (option_map (λ one. one.expected) departs)) }
    ensures noted { let held = handle.old.held.judge in
        let room = MESSAGE_LIMIT in
        let noted = noted_in room held partition at (Ok call.now) (Ok reply.now) in
        IfOk result (λ _. handle.new.held.judge ≡ judge_after noted held) }
    ensures refused { let held = handle.old.held.judge in
        let room = MESSAGE_LIMIT in
        let judged = judged_in room held partition at (Ok call.now) (Ok reply.now) in
        IfErr result (λ number. number ≢ NO_MEMORY → judged ≡ Err number) }
    ensures unnoted { let held = handle.old.held.judge in
        let room = MESSAGE_LIMIT in
        let noted = noted_in room held partition at (Ok call.now) (Ok reply.now) in
        IfErr result (λ number. number ≢ NO_MEMORY → noted ≡ Err number) }
    ensures kept { IfErr result (λ _. handle.new.held.judge ≡ handle.old.held.judge) }
{
    let Some(mut judge) = handle.take(alloc) else {
        return Err(NOT_OPEN);
    };
    let judged = if (partition as usize) < judge.config().partitions() {
        judged_by(alloc, &mut judge, partition as usize, at, call, reply).map_err(|_| NO_MEMORY)
    } else {
        Err(NO_PARTITION)
    };
    *handle = JudgeHandle::of(judge);
    judged
}

// Judges a call of a partition and notes it. If memory is refused, the log is what it was.
pub(crate) fn judged_by(
    alloc: Global,
    judge: &mut Judge,
    partition: usize,
    at: Moment,
    call: &Call,
    reply: &Reply,
) -> Result<Option<Departs>, OutOfMemory>
    requires { partition < length judge.old.config.partitions }
    ensures judged { let entry = entry_of partition at call.now reply.now in
        let instead = instead_of judge.old.config judge.old.log entry in
        IfOk result (λ departs. option_map (λ one. one.expected) departs ≡ instead) }
    ensures noted { let entry = entry_of partition at call.now reply.now in
        IfOk result (λ _. judge.new.log ≡ judge.old.log ++ entry ∷ []) }
    ensures refused { IfErr result (λ _. judge.new.log ≡ judge.old.log) }
    ensures config { judge.new.config ≡ judge.old.config }
{
    let departs = match judge.instead_of(partition, at, call, reply) {
        None => None,
        Some(expected) => {
            let words = words_of(alloc, judge.config(), partition, call, &expected)?;
            Some(Departs { expected, words })
        }
    };
    judge.add(partition, at, call, reply)?;
    Ok(departs)
}

fn words_of(
    alloc: Global,
    config: &Config,
    partition: usize,
    call: &Call,
    expected: &Expected,
) -> Result<String, AllocError>
    requires { partition < length config.now.partitions }
{
    let mut words = String::new(alloc);
    push_words(
        &mut words,
        config,
        partition,
        CallRef::of(call),
        expected.row,
    )?;
    Ok(words)
}

// Puts a departure into the places of C.
pub(crate) fn show(
    departs: &Departs,
    departure: &mut Departure,
    buffer: &mut [u8],
    words: &mut [u8],
)
    requires { MESSAGE_LIMIT ≤ length buffer.old }
    ensures { IsShown departs.now.expected departure.new buffer.old buffer.new words.old words.new }
{
    let mut words_length = 0;
    let _ = put_text(departs.words.as_bytes(), words, &mut words_length);
    *departure = Departure {
        words_length,
        standard: NumberedReply::of(&departs.expected.reply),
        row: row_number(departs.expected.row),
        message_length: put_message(&departs.expected.reply, buffer),
    };
}

// Copies the message of a reply to the first bytes of the buffer, and answers its length; 0 if the reply has none.
fn put_message(reply: &Reply, buffer: &mut [u8]) -> u32
    requires { MESSAGE_LIMIT ≤ length buffer.old }
    ensures buffer { buffer.new ≡ buffer_after (message_in (Some reply.now)) buffer.old }
    ensures length { result ≡ length_after (message_in (Some reply.now)) 0 }
{
    match reply {
        Reply::Received(message) | Reply::Read { message, .. } => {
            copy_bytes(message.bytes(), buffer)
        }
        _ => 0,
    }
}

// Opens a handle with the judge of a configuration before the first call.
fn open(alloc: Global, handle: &mut JudgeHandle, config: Config) -> u32
    ensures answer { (result ≡ OPENED) ⊎ (result ≡ OUT_OF_MEMORY) }
    ensures opened { result ≡ OPENED → handle.new.held.judge ≡ judge_at_start (Ok config) }
    ensures refused { result ≢ OPENED → handle.new.held.judge ≡ handle.old.held.judge }
{
    match boxed_judge(alloc, config) {
        Ok(judge) => {
            *handle = JudgeHandle::of(judge);
            OPENED
        }
        Err(_) => OUT_OF_MEMORY,
    }
}

fn boxed_judge(alloc: Global, config: Config) -> Result<Box<Judge>, OutOfMemory>
    ensures config { IfOk result (λ judge. judge.value.config ≡ config) }
    ensures fresh { IfOk result (λ judge. judge.value.log ≡ []) }
{
    let judge = Judge::new(alloc, config)?;
    Ok(Box::new(alloc, judge)?)
}
