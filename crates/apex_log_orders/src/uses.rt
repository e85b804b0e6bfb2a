//! The calls by which a partition uses a channel.
use crate::answer::OwnLog;
use crate::log_reader::{port_of, waiting_shown};
use crate::messages::{is_accepted, message_of};
use apex_ports::Entry;
use apex_types::{Call, Message, Moment, Reply, ReturnCode};
use std::alloc::{AllocError, Global};

/// What a call does with a channel, or shows of it.
#[derive(Clone, Copy)]
pub(crate) enum Act {
    /// One more message is accepted.
    Put,
    /// The oldest message is received.
    Take,
    /// All messages are discarded.
    Clear,
    /// This many messages wait.
    Waiting(usize),
    /// The message written last is read.
    Read,
}

/// A call that uses a channel.
#[derive(Clone, Copy)]
pub(crate) struct Use {
    /// The entry's number in its log.
    pub(crate) index: usize,
    pub(crate) act: Act,
    /// The number of messages accepted from this end before.
    pub(crate) before: usize,
}

/// The calls that use a channel at one port.
#[derive(Drop)]
pub(crate) struct End {
    pub(crate) partition: usize,
    id: u32,
    /// The port's refresh period in nanoseconds; 0 for a queuing port.
    pub(crate) refresh: u64,
    pub(crate) uses: Vec<Use>,
    /// The number of messages accepted from this end.
    pub(crate) accepted: usize,
    /// The entries with these messages, by their numbers in the log.
    messages: Vec<usize>,
}

impl End {
    /// The calls in the log of the port's partition; `None` if they are more than `most`.
    pub(crate) fn new(
        alloc: Global,
        logs: &[OwnLog],
        partition: usize,
        id: u32,
        refresh: u64,
        depth: usize,
        most: usize,
    ) -> Result<Option<End>, AllocError> {
        let mut end = End {
            partition,
            id,
            refresh,
            uses: Vec::new(alloc),
            accepted: 0,
            messages: Vec::new(alloc),
        };
        if let Some(log) = logs.get(partition) {
            for (index, entry) in log.entries.iter().enumerate() {
                if port_of(&entry.call) == Some(id) {
                    end.add(index, entry, depth)?;
                }
                if end.uses.len() > most {
                    return Ok(None);
                }
            }
        }
        Ok(Some(end))
    }

    /// Adds a call by the port's identifier, if it uses the channel.
    fn add(&mut self, index: usize, entry: &Entry, depth: usize) -> Result<(), AllocError> {
        let Some(act) = act_of(entry, depth) else {
            return Ok(());
        };
        let before = self.messages.len();
        self.uses.push(Use { index, act, before })?;
        if let Act::Put = act {
            self.messages.push(index)?;
        }
        self.accepted = self.messages.len();
        Ok(())
    }

    /// How many of the calls are among the first ones that the partitions made.
    pub(crate) fn made(&self, made: &[usize]) -> usize {
        match made.get(self.partition) {
            Some(made) => self.uses.partition_point(|one| one.index < *made),
            None => 0,
        }
    }

    /// Whether the partition's next call by the identifier is the next of these.
    pub(crate) fn uses_next(&self, made: &[usize], p: usize, id: u32) -> bool {
        if self.partition != p || self.id != id {
            return false;
        }
        match (made.get(p), self.uses.get(self.made(made))) {
            (Some(made), Some(one)) => one.index == *made,
            _ => false,
        }
    }

    /// The entry with a number in the partition's log.
    pub(crate) fn entry<'a>(&self, logs: &'a [OwnLog], index: usize) -> Option<&'a Entry> {
        logs.get(self.partition)?.entries.get(index)
    }

    /// The message with a number, and when it was accepted.
    pub(crate) fn message<'a>(
        &self,
        logs: &'a [OwnLog],
        number: usize,
    ) -> Option<(&'a Message, Moment)> {
        let index = *self.messages.get(number)?;
        let entry = self.entry(logs, index)?;
        Some((message_of(entry)?, entry.at))
    }
}

/// What an entry does with the channel of its port, whose queue has this depth.
fn act_of(entry: &Entry, depth: usize) -> Option<Act> {
    if is_accepted(entry) {
        return Some(Act::Put);
    }
    if let Some(waiting) = waiting_shown(entry, depth) {
        return Some(Act::Waiting(waiting));
    }
    match (&entry.call, &entry.reply) {
        (Call::ReceiveQueuing { .. }, Reply::Received(_)) => Some(Act::Take),
        (Call::ClearQueuing { .. }, Reply::Code(ReturnCode::NoError)) => Some(Act::Clear),
        (Call::ReadSampling { .. }, Reply::Read { .. }) => Some(Act::Read),
        (Call::ReadSampling { .. }, Reply::Code(ReturnCode::NoAction)) => Some(Act::Waiting(0)),
        _ => None,
    }
}
