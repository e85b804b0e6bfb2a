//! What the log of one partition says about the ends of its channels.
use crate::answer::{CallPlace, OwnLog};
use crate::bounds::{Advance, Bounds};
use crate::messages::{index_of, is_accepted, received_next};
use apex_module::Config;
use apex_ports::Entry;
use apex_types::{Call, Direction, Reply, ReturnCode};
use std::alloc::{AllocError, Global};

/// A log that is being read, and how far it has advanced the ends of its partition so far.
#[derive(Drop)]
pub(crate) struct LogReader {
    partition: usize,
    /// For each channel, the number of messages that it has accepted.
    accepted: Vec<usize>,
    /// For each channel, the number of messages taken, or the number of the write that was read last; unknown after a
    /// clear that no receive follows.
    taken: Vec<Option<usize>>,
}

impl LogReader {
    /// Before the first call.
    pub(crate) fn new(
        alloc: Global,
        config: &Config,
        partition: usize,
    ) -> Result<LogReader, AllocError> {
        let mut accepted = Vec::new(alloc);
        accepted.resize(config.channels(), 0)?;
        let mut taken = Vec::new(alloc);
        taken.resize(config.channels(), Some(0))?;
        Ok(LogReader {
            partition,
            accepted,
            taken,
        })
    }

    /// What the entry at an index does, with the bounds that it sets.
    pub(crate) fn read(
        &mut self,
        config: &Config,
        logs: &[OwnLog],
        sent: &[Vec<CallPlace>],
        bounds: &mut Bounds,
        index: usize,
        entry: &Entry,
    ) -> Result<Option<Advance>, AllocError> {
        let Some(id) = port_of(&entry.call) else {
            return Ok(None);
        };
        if self.partition >= config.partitions() {
            return Ok(None);
        }
        let Some(port) = config.port(self.partition, id) else {
            return Ok(None);
        };
        let depth = config.channel(port.channel).kind.depth() as usize;
        match port.direction {
            Direction::Source => self.read_source(bounds, port.channel, depth, index, entry),
            Direction::Destination => {
                self.read_destination(logs, sent, bounds, port.channel, depth, index, entry)
            }
        }
    }

    fn place(&self, index: usize) -> CallPlace {
        CallPlace {
            partition: self.partition,
            index,
        }
    }

    /// A call of a source: one more message, or how many wait.
    fn read_source(
        &mut self,
        bounds: &mut Bounds,
        channel: usize,
        depth: usize,
        index: usize,
        entry: &Entry,
    ) -> Result<Option<Advance>, AllocError> {
        let place = self.place(index);
        let Some(count) = self.accepted.get_mut(channel) else {
            return Ok(None);
        };
        if is_accepted(entry) {
            *count = count.saturating_add(1);
            return Ok(Some(Advance {
                channel,
                end: Direction::Source,
                count: *count,
            }));
        }
        if let Some(waiting) = waiting_shown(entry, depth) {
            bounds.add(
                Direction::Source,
                channel,
                place,
                count.saturating_sub(waiting),
            )?;
        }
        Ok(None)
    }

    /// A call of a destination: one message fewer, how many wait, or which write it shows.
    fn read_destination(
        &mut self,
        logs: &[OwnLog],
        sent: &[Vec<CallPlace>],
        bounds: &mut Bounds,
        channel: usize,
        depth: usize,
        index: usize,
        entry: &Entry,
    ) -> Result<Option<Advance>, AllocError> {
        let place = self.place(index);
        let Some(messages) = sent.get(channel) else {
            return Ok(None);
        };
        let Some(taken) = self.taken.get_mut(channel) else {
            return Ok(None);
        };
        let Some(count) = *taken else {
            return Ok(None);
        };
        let effect = effect_of(logs, messages.as_slice(), place, entry, depth, count);
        if let Some(most) = effect.most {
            bounds.add(Direction::Destination, channel, place, most)?;
        }
        *taken = effect.taken;
        Ok(effect.advance(channel, count))
    }
}

/// What a call of a destination does: how many messages are taken after it, or which write it shows, and how many the
/// channel may have accepted when it is made.
#[derive(Clone, Copy)]
struct Effect {
    taken: Option<usize>,
    most: Option<usize>,
}

impl Effect {
    /// How far it advances the end, if `before` messages were taken before it.
    fn advance(&self, channel: usize, before: usize) -> Option<Advance> {
        let count = self.taken?;
        if count == before {
            return None;
        }
        Some(Advance {
            channel,
            end: Direction::Destination,
            count,
        })
    }
}

fn effect_of(
    logs: &[OwnLog],
    messages: &[CallPlace],
    place: CallPlace,
    entry: &Entry,
    depth: usize,
    count: usize,
) -> Effect {
    match &entry.reply {
        Reply::Received(_) => Effect {
            taken: Some(count.saturating_add(1)),
            most: None,
        },
        Reply::Read { message, .. } => match index_of(logs, messages, count, message) {
            Some(shown) => Effect {
                taken: Some(shown),
                most: Some(shown.saturating_add(1)),
            },
            None => nothing(count),
        },
        Reply::Code(ReturnCode::NoError) => match &entry.call {
            Call::ClearQueuing { id } => clearing(logs, messages, place, *id, count),
            _ => nothing(count),
        },
        _ => Effect {
            taken: Some(count),
            most: waiting_shown(entry, depth).map(|waiting| count.saturating_add(waiting)),
        },
    }
}

/// A call that shows nothing.
fn nothing(count: usize) -> Effect {
    Effect {
        taken: Some(count),
        most: None,
    }
}

/// A clear takes what was sent before the next message that is received. If none is, that is unknown.
fn clearing(
    logs: &[OwnLog],
    messages: &[CallPlace],
    place: CallPlace,
    id: u32,
    count: usize,
) -> Effect {
    let taken = received_next(logs, place, id).and_then(|message| index_of(
        logs, messages, count, message,
    ));
    Effect { taken, most: taken }
}

/// The number of messages that wait on a channel of this depth, according to the reply.
pub(crate) fn waiting_shown(entry: &Entry, depth: usize) -> Option<usize> {
    match &entry.reply {
        Reply::QueuingStatus { waiting, .. } => Some(*waiting as usize),
        Reply::Code(ReturnCode::NotAvailable) => match &entry.call {
            Call::SendQueuing { .. } => Some(depth),
            Call::ReceiveQueuing { .. } => Some(0),
            _ => None,
        },
        _ => None,
    }
}

/// The identifier of the port that a call names, except for calls that create or look up.
pub(crate) fn port_of(call: &Call) -> Option<u32> {
    match call {
        Call::WriteSampling { id, .. } => Some(*id),
        Call::ReadSampling { id } => Some(*id),
        Call::SendQueuing { id, .. } => Some(*id),
        Call::ReceiveQueuing { id } => Some(*id),
        Call::QueuingStatus { id } => Some(*id),
        Call::ClearQueuing { id } => Some(*id),
        _ => None,
    }
}
