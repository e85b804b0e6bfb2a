//! What calls did to a channel.
ghost use Rattle.std.specs.Prelude.{◌≡◌, ℕ, ◌<◌, ◌≤◌, ◌-◌, ◌^◌, ◌++◌, ◌∷◌, [], if◌then◌else◌, List, length, max, slice_get, Some, is_some, OnOk};
ghost use Rattle.dekarino_drawings.specs.Prelude.{Configuration, port_of, message_accepted, message_received, clears, taken_by, sample_written, History};
ghost use Rattle.apex_ports.specs.Modes.{is_code_no_error};
ghost use Rattle.apex_ports.specs.Ports.{is_source_of, is_destination_of};
ghost use Rattle.dekarino_drawings.specs.Arrows.{index_if};
ghost use Rattle.dekarino_drawings.specs.Following.{IsFollowed, waits_in};

use apex_module::Config;
use apex_ports::Entry;
use apex_types::{Call, Direction, Reply, ReturnCode};
use std::alloc::{AllocError, Global};

/// What calls did to a channel. Calls are given by their indexes, from 0.
#[derive(Debug, Drop)]
pub(crate) struct ChannelCalls {
    /// The calls that sent a message into it, oldest first.
    pub sends: Vec<usize>,
    /// The number of messages taken from it, received or cleared.
    pub taken: usize,
    /// The call that wrote the last sample into it.
    pub last_write: Option<usize>,
}

impl ChannelCalls {
    /// A channel without calls.
    pub(crate) fn new(alloc: Global) -> ChannelCalls
        ensures { (config : Configuration) (c : ℕ) → IsFollowed config [] c result }
    {
        ChannelCalls {
            sends: Vec::new(alloc),
            taken: 0,
            last_write: None,
        }
    }

    /// The call that sent the message that is received next.
    pub(crate) fn next_send(&self) -> Option<usize>
        ensures { result ≡ slice_get self.now.sends.items self.now.taken }
    {
        self.sends.get(self.taken).copied()
    }

    /// Adds the calls that sent the waiting messages, oldest first.
    pub(crate) fn push_waiting(&self, waiting: &mut Vec<usize>) -> Result<(), AllocError>
        ensures { OnOk result (waiting.new.items ≡ waiting.old.items ++ waits_in self.now) }
    {
        let first = self.taken.min(self.sends.len());
        waiting.extend_from_slice(&self.sends[first..])
    }

    /// Adds a call on channel `c` with this index.
    pub(crate) fn follow(
        &mut self,
        config: &Config,
        c: usize,
        index: usize,
        entry: &Entry,
    ) -> Result<(), AllocError>
        ensures { (before : History) → length before ≡ index → index < 2 ^ 64 - 1
            → IsFollowed config.now before c self.old
            → OnOk result (IsFollowed config.now (before ++ entry.now ∷ []) c self.new) }
    {
        let waiting = self.sends.len().saturating_sub(self.taken);
        let more = taken_by(config, c, waiting, entry);
        self.taken = self.taken.saturating_add(more);
        self.last_write = last_write_after(self.last_write, config, c, index, entry);
        push_send(&mut self.sends, config, c, index, entry)
    }
}

/// Adds a call with this index, if it sent a message into channel `c`.
fn push_send(
    sends: &mut Vec<usize>,
    config: &Config,
    c: usize,
    index: usize,
    entry: &Entry,
) -> Result<(), AllocError>
    ensures { OnOk result (sends.new.items ≡ sends.old.items
        ++ index_if (is_some (message_accepted config.now c entry.now)) index) }
{
    if is_send(config, c, entry) {
        sends.push(index)?;
    }
    Ok(())
}

/// The last write into channel `c` after a call with this index.
fn last_write_after(
    last: Option<usize>,
    config: &Config,
    c: usize,
    index: usize,
    entry: &Entry,
) -> Option<usize>
    ensures { result
        ≡ (if is_some (sample_written config.now c entry.now) then Some index else last) }
{
    if is_write(config, c, entry) {
        Some(index)
    } else {
        last
    }
}

/// The number of messages that a call takes from channel `c` if `waiting` messages wait.
fn taken_by(config: &Config, c: usize, waiting: usize, call: &Entry) -> usize
    ensures count { (messages : List (List ℕ)) → length messages ≡ waiting →
        result ≡ length (taken_by config.now c messages call.now) }
    ensures few { result ≤ max 1 waiting }
{
    if clears(config, c, call) {
        waiting
    } else {
        usize::from(is_receive(config, c, call))
    }
}

/// Whether a call sent a message into channel `c`.
fn is_send(config: &Config, c: usize, entry: &Entry) -> bool
    ensures { result ≡ is_some (message_accepted config.now c entry.now) }
{
    match &entry.call {
        Call::SendQueuing { id, .. } => {
            is_no_error(&entry.reply) && is_source(config, c, entry.partition, *id)
        }
        _ => false,
    }
}

/// Whether a call wrote a sample into channel `c`.
fn is_write(config: &Config, c: usize, entry: &Entry) -> bool
    ensures { result ≡ is_some (sample_written config.now c entry.now) }
{
    match &entry.call {
        Call::WriteSampling { id, .. } => {
            is_no_error(&entry.reply) && is_source(config, c, entry.partition, *id)
        }
        _ => false,
    }
}

/// Whether a call received a message from channel `c`.
fn is_receive(config: &Config, c: usize, entry: &Entry) -> bool
    ensures { result ≡ is_some (message_received config.now c entry.now) }
{
    match (&entry.call, &entry.reply) {
        (Call::ReceiveQueuing { id }, Reply::Received(_)) => {
            is_destination(config, c, entry.partition, *id)
        }
        _ => false,
    }
}

/// Whether a call cleared channel `c`.
fn clears(config: &Config, c: usize, entry: &Entry) -> bool
    ensures { result ≡ clears config.now c entry.now }
{
    match &entry.call {
        Call::ClearQueuing { id } => {
            is_no_error(&entry.reply) && is_destination(config, c, entry.partition, *id)
        }
        _ => false,
    }
}

fn is_no_error(reply: &Reply) -> bool
    ensures { result ≡ is_code_no_error reply.now }
{
    match reply {
        Reply::Code(code) => *code == ReturnCode::NoError,
        _ => false,
    }
}

/// Whether the port with this identifier is channel `c`'s source.
fn is_source(config: &Config, c: usize, p: usize, id: u32) -> bool
    ensures { result ≡ is_source_of c (port_of config.now p id) }
{
    match config.port(p, id) {
        Some(port) => port.direction == Direction::Source && port.channel == c,
        None => false,
    }
}

/// Whether the port with this identifier is a destination of channel `c`.
fn is_destination(config: &Config, c: usize, p: usize, id: u32) -> bool
    ensures { result ≡ is_destination_of c (port_of config.now p id) }
{
    match config.port(p, id) {
        Some(port) => port.direction == Direction::Destination && port.channel == c,
        None => false,
    }
}
