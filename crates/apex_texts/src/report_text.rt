//! The lines of a report: one for each call, each partition and each channel.
ghost use Rattle.std.specs.Prelude.{◌≡◌, ◌<◌, ◌≤◌, ◌^◌, ◌∷◌, ◌++◌, [], length, decimal, string_bytes, OnOk};
ghost use Rattle.apex_texts.specs.Prelude.{hex_text_of, accepted_on, received_on, cleared_on, waiting_on, last_write_on, entries_of};
ghost use Rattle.apex_ports.specs.Noted.{call_by, reply_by};
ghost use Rattle.apex_ports.specs.Services.{message_length};
ghost use Rattle.apex_texts.specs.Report.{queuing_status_text, sampling_status_text, reply_text, entry_line, partition_line, partition_lines, cleared_text, queue_text, sample_text, channel_text, channel_lines, messages_text, totals_of};

use crate::service::Service;
use apex_module::{Channel, ChannelKind};
use apex_ports::{CallRef, Ports, ReplyRef};
use apex_types::{Direction, HEX_LIMIT, MESSAGE_LIMIT, Moment, Validity, hex_text};
use itoa::Buffer;
use std::alloc::AllocError;

/// The lines after those of the calls: partitions, then channels.
#[tactic(auto, unfolding(crate::specs::Report::totals_of))]
pub fn push_totals(text: &mut String, ports: &Ports) -> Result<(), AllocError>
    requires { length ports.now.history < 2 ^ 64 }
    ensures { OnOk result (string_bytes text.new ≡
        string_bytes text.old ++ totals_of ports.now.config ports.now.history) }
{
    push_partitions(text, ports)?;
    push_channels(text, ports)
}

fn push_word(text: &mut String, word: &str) -> Result<(), AllocError>
    ensures { OnOk result (string_bytes text.new ≡ string_bytes text.old ++ word.now) }
{
    text.push_str(word)
}

#[inline(always)]
fn push_ascii(text: &mut String, character: char) -> Result<(), AllocError>
    requires { character < 128 }
    ensures { OnOk result (string_bytes text.new ≡ string_bytes text.old ++ character ∷ []) }
{
    text.push(character)
}

fn push_number(text: &mut String, number: u64) -> Result<(), AllocError>
    ensures { OnOk result (string_bytes text.new ≡ string_bytes text.old ++ decimal number) }
{
    let mut buffer = Buffer::new();
    push_word(text, buffer.format(number))
}

/// A word followed by a number.
fn push_count(text: &mut String, word: &str, number: u64) -> Result<(), AllocError>
    ensures { OnOk result (string_bytes text.new
        ≡ string_bytes text.old ++ word.now ++ decimal number) }
{
    push_word(text, word)?;
    push_number(text, number)
}

/// The length of the longest message whose digits go through a small buffer, in bytes.
const SHORT_LIMIT: usize = 32;

/// A message, given by its bytes.
fn push_bytes(text: &mut String, bytes: &[u8]) -> Result<(), AllocError>
    requires { length bytes.now ≤ MESSAGE_LIMIT }
    ensures { OnOk result (string_bytes text.new
        ≡ string_bytes text.old ++ hex_text_of bytes.now) }
{
    if bytes.len() > SHORT_LIMIT {
        return push_long(text, bytes);
    }
    let mut digits = [0; 2 * SHORT_LIMIT];
    push_word(text, hex_text(bytes, &mut digits))
}

// A function clears the stack room of its values when it begins, including those of functions inlined into it. So this
// one, which has room for the digits of any message, is not inlined.
#[inline(never)]
fn push_long(text: &mut String, bytes: &[u8]) -> Result<(), AllocError>
    requires { length bytes.now ≤ MESSAGE_LIMIT }
    ensures { OnOk result (string_bytes text.new
        ≡ string_bytes text.old ++ hex_text_of bytes.now) }
{
    let mut digits = [0; HEX_LIMIT];
    push_word(text, hex_text(bytes, &mut digits))
}

/// `NUMBER MOMENT PARTITION CALLWORD REPLY`.
#[tactic(auto, unfolding(crate::specs::Report::entry_line))]
pub fn push_entry(
    text: &mut String,
    number: u64,
    name: &str,
    at: Moment,
    call: CallRef<'_>,
    reply: ReplyRef<'_>,
) -> Result<(), AllocError>
    requires { message_length (reply_by reply) ≤ MESSAGE_LIMIT }
    ensures { let line =
        entry_line number name.now at (call_by call.entry) (reply_by reply.entry) in
        OnOk result (string_bytes text.new ≡ string_bytes text.old ++ line) }
{
    let Moment(nanoseconds) = at;
    push_number(text, number)?;
    push_ascii(text, ' ')?;
    push_number(text, nanoseconds)?;
    push_ascii(text, ' ')?;
    push_word(text, name)?;
    push_ascii(text, ' ')?;
    push_word(text, Service::of(call).word())?;
    push_ascii(text, ' ')?;
    push_reply(text, reply)?;
    push_ascii(text, '\n')
}

/// The reply in words, as in the line of its call.
#[tactic(auto, unfolding(crate::specs::Report::reply_text))]
pub fn push_reply(text: &mut String, reply: ReplyRef<'_>) -> Result<(), AllocError>
    requires { message_length (reply_by reply) ≤ MESSAGE_LIMIT }
    ensures { OnOk result (string_bytes text.new
        ≡ string_bytes text.old ++ reply_text (reply_by reply.entry)) }
{
    match reply {
        ReplyRef::NotMade => push_word(text, "not made"),
        ReplyRef::Code(code) => push_word(text, code.word()),
        ReplyRef::Id(id) => push_count(text, "NO_ERROR id ", u64::from(id)),
        ReplyRef::Received(message) => {
            push_word(text, "NO_ERROR message ")?;
            push_bytes(text, message)
        }
        ReplyRef::Read { message, validity } => {
            push_word(text, "NO_ERROR message ")?;
            push_bytes(text, message)?;
            push_word(text, " ")?;
            push_word(text, validity.word())
        }
        ReplyRef::QueuingStatus {
            waiting,
            depth,
            size,
            direction,
        } => push_queuing_status(text, waiting, depth, size, direction),
        ReplyRef::SamplingStatus {
            refresh,
            size,
            direction,
            last,
        } => push_sampling_status(text, refresh, size, direction, last),
    }
}

#[tactic(auto, unfolding(crate::specs::Report::queuing_status_text))]
fn push_queuing_status(
    text: &mut String,
    waiting: u32,
    depth: u32,
    size: u32,
    direction: Direction,
) -> Result<(), AllocError>
    ensures { OnOk result (string_bytes text.new
        ≡ string_bytes text.old ++ queuing_status_text waiting depth size direction) }
{
    push_count(text, "NO_ERROR waiting ", u64::from(waiting))?;
    push_count(text, " depth ", u64::from(depth))?;
    push_count(text, " size ", u64::from(size))?;
    push_word(text, " ")?;
    push_word(text, direction.word())?;
    push_word(text, " processes 0")
}

#[tactic(auto, unfolding(crate::specs::Report::sampling_status_text))]
fn push_sampling_status(
    text: &mut String,
    refresh: u64,
    size: u32,
    direction: Direction,
    last: Validity,
) -> Result<(), AllocError>
    ensures { OnOk result (string_bytes text.new
        ≡ string_bytes text.old ++ sampling_status_text refresh size direction last) }
{
    push_count(text, "NO_ERROR refresh ", refresh)?;
    push_count(text, " size ", u64::from(size))?;
    push_word(text, " ")?;
    push_word(text, direction.word())?;
    push_word(text, " last ")?;
    push_word(text, last.word())
}

/// A line for each partition.
#[tactic(auto, unfolding(crate::specs::Report::partition_lines))]
fn push_partitions(text: &mut String, ports: &Ports) -> Result<(), AllocError>
    requires { length ports.now.history < 2 ^ 64 }
    ensures { OnOk result (string_bytes text.new ≡
        string_bytes text.old ++ partition_lines ports.now.history 0 ports.now.config.partitions) }
{
    for p in 0..ports.config().partitions() {
        let name = ports.config().partition_name(p).text();
        push_partition(text, ports, p, name)?;
    }
    Ok(())
}

/// `partition NAME mode MODE calls N`.
#[tactic(auto, unfolding(crate::specs::Report::partition_line))]
fn push_partition(text: &mut String, ports: &Ports, p: usize, name: &str) -> Result<(), AllocError>
    requires partition { p < length ports.now.config.partitions }
    requires short { length ports.now.history < 2 ^ 64 }
    ensures { OnOk result (string_bytes text.new ≡
        string_bytes text.old ++ partition_line ports.now.history p name.now) }
{
    push_word(text, "partition ")?;
    push_word(text, name)?;
    push_word(text, " mode ")?;
    push_word(text, ports.mode(p).word())?;
    push_count(text, " calls ", calls_of(ports, p))?;
    push_word(text, "\n")
}

// The number of calls that the partition made: the count is exact, since no program holds more calls.
fn calls_of(ports: &Ports, p: usize) -> u64
    requires partition { p < length ports.now.config.partitions }
    requires short { length ports.now.history < 2 ^ 64 }
    ensures { result ≡ length (entries_of p ports.now.history) }
{
    ports.calls(p)
}

// The number of messages that the channel accepted.
fn accepted_by(ports: &Ports, c: usize) -> u64
    requires channel { c < length ports.now.config.channels }
    requires short { length ports.now.history < 2 ^ 64 }
    ensures { result ≡ length (accepted_on ports.now.config c ports.now.history) }
{
    ports.accepted_count(c)
}

// The number of messages received from the channel.
fn received_from(ports: &Ports, c: usize) -> u64
    requires channel { c < length ports.now.config.channels }
    requires short { length ports.now.history < 2 ^ 64 }
    ensures { result ≡ length (received_on ports.now.config c ports.now.history) }
{
    ports.received_count(c)
}

// The number of messages of the channel that were cleared.
fn cleared_from(ports: &Ports, c: usize) -> u64
    requires channel { c < length ports.now.config.channels }
    requires short { length ports.now.history < 2 ^ 64 }
    ensures { result ≡ length (cleared_on ports.now.config c ports.now.history) }
{
    ports.cleared_count(c)
}

/// A line for each channel.
#[tactic(auto, unfolding(crate::specs::Report::channel_lines))]
fn push_channels(text: &mut String, ports: &Ports) -> Result<(), AllocError>
    requires { length ports.now.history < 2 ^ 64 }
    ensures { let config = ports.now.config in
        let lines = channel_lines config ports.now.history 0 config.channels in
        OnOk result (string_bytes text.new ≡ string_bytes text.old ++ lines) }
{
    for c in 0..ports.config().channels() {
        push_channel(text, ports, c, ports.config().channel(c))?;
        push_word(text, "\n")?;
    }
    Ok(())
}

#[tactic(auto, unfolding(crate::specs::Report::channel_text))]
fn push_channel(
    text: &mut String,
    ports: &Ports,
    c: usize,
    channel: &Channel,
) -> Result<(), AllocError>
    requires channel { c < length ports.now.config.channels }
    requires short { length ports.now.history < 2 ^ 64 }
    ensures { let found = channel.now in
        let line = channel_text ports.now.config ports.now.history c found.name found.kind in
        OnOk result (string_bytes text.new ≡ string_bytes text.old ++ line) }
{
    match channel.kind {
        ChannelKind::Queuing { .. } => {
            push_word(text, "queuing ")?;
            push_word(text, channel.name.text())?;
            push_queue(text, ports, c)
        }
        ChannelKind::Sampling => {
            push_word(text, "sampling ")?;
            push_word(text, channel.name.text())?;
            push_sample(text, ports, c)
        }
    }
}

/// ` cleared C`, if messages were cleared.
#[tactic(auto, unfolding(crate::specs::Report::cleared_text))]
fn push_cleared(text: &mut String, count: u64) -> Result<(), AllocError>
    ensures { OnOk result (string_bytes text.new ≡ string_bytes text.old ++ cleared_text count) }
{
    if count == 0 {
        return Ok(());
    }
    push_count(text, " cleared ", count)
}

/// ` accepted A received B cleared C waiting W`, and the waiting messages, oldest first.
#[tactic(auto, unfolding(crate::specs::Report::queue_text))]
fn push_queue(text: &mut String, ports: &Ports, c: usize) -> Result<(), AllocError>
    requires channel { c < length ports.now.config.channels }
    requires short { length ports.now.history < 2 ^ 64 }
    ensures { OnOk result (string_bytes text.new ≡
        string_bytes text.old ++ queue_text ports.now.config c ports.now.history) }
{
    push_count(text, " accepted ", accepted_by(ports, c))?;
    push_count(text, " received ", received_from(ports, c))?;
    push_cleared(text, cleared_from(ports, c))?;
    push_count(text, " waiting ", ports.waiting_count(c) as u64)?;
    push_waiting(text, ports, c)
}

/// The waiting messages, each after a space.
#[tactic(auto, unfolding(crate::specs::Report::messages_text))]
fn push_waiting(text: &mut String, ports: &Ports, c: usize) -> Result<(), AllocError>
    requires { c < length ports.now.config.channels }
    ensures { let waiting = waiting_on ports.now.config c ports.now.history in
        OnOk result (string_bytes text.new ≡ string_bytes text.old ++ messages_text waiting) }
{
    for index in 0..ports.waiting_count(c) {
        let message = ports.waiting(c, index).unwrap();
        push_word(text, " ")?;
        push_bytes(text, message)?;
    }
    Ok(())
}

/// ` empty`, or ` MESSAGE at MOMENT`.
#[tactic(auto, unfolding(crate::specs::Report::sample_text))]
fn push_sample(text: &mut String, ports: &Ports, c: usize) -> Result<(), AllocError>
    requires { c < length ports.now.config.channels }
    ensures { let sample = last_write_on ports.now.config c ports.now.history in
        OnOk result (string_bytes text.new ≡ string_bytes text.old ++ sample_text sample) }
{
    match ports.last_sample(c) {
        None => push_word(text, " empty"),
        Some(sample) => {
            let Moment(at) = sample.at;
            push_word(text, " ")?;
            push_bytes(text, sample.message)?;
            push_count(text, " at ", at)
        }
    }
}
