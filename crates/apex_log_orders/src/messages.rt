//! The messages that the logs show.
use crate::answer::{CallPlace, OwnLog};
use apex_module::Config;
use apex_ports::Entry;
use apex_types::{Call, Direction, Message, Reply, ReturnCode};
use std::alloc::{AllocError, Global};

/// For each channel, the places of the calls whose messages it accepted, in their order.
pub(crate) fn sent_messages(
    alloc: Global,
    config: &Config,
    logs: &[OwnLog],
) -> Result<Vec<Vec<CallPlace>>, AllocError> {
    let mut sent = Vec::new(alloc);
    for _ in 0..config.channels() {
        sent.push(Vec::new(alloc))?;
    }
    for partition in 0..config.partitions() {
        if let Some(log) = logs.get(partition) {
            add_messages(config, sent.as_mut_slice(), partition, log)?;
        }
    }
    Ok(sent)
}

/// Adds the places of the messages that were accepted from a partition.
fn add_messages(
    config: &Config,
    sent: &mut [Vec<CallPlace>],
    partition: usize,
    log: &OwnLog,
) -> Result<(), AllocError> {
    for (index, entry) in log.entries.iter().enumerate() {
        if let Some(channel) = accepted_on(config, partition, entry) {
            add_place(sent, channel, CallPlace { partition, index })?;
        }
    }
    Ok(())
}

fn add_place(
    sent: &mut [Vec<CallPlace>],
    channel: usize,
    place: CallPlace,
) -> Result<(), AllocError> {
    if let Some(places) = sent.get_mut(channel) {
        places.push(place)?;
    }
    Ok(())
}

/// The channel that accepted the message of an entry.
fn accepted_on(config: &Config, partition: usize, entry: &Entry) -> Option<usize> {
    if partition >= config.partitions() || !is_accepted(entry) {
        return None;
    }
    let id = match &entry.call {
        Call::SendQueuing { id, .. } => *id,
        Call::WriteSampling { id, .. } => *id,
        _ => return None,
    };
    let port = config.port(partition, id)?;
    match port.direction {
        Direction::Source => Some(port.channel),
        Direction::Destination => None,
    }
}

/// Whether the entry is a message that was accepted.
pub(crate) fn is_accepted(entry: &Entry) -> bool {
    match message_of(entry) {
        Some(_) => matches!(&entry.reply, Reply::Code(ReturnCode::NoError)),
        None => false,
    }
}

/// The message that an entry sends or writes.
pub(crate) fn message_of(entry: &Entry) -> Option<&Message> {
    match &entry.call {
        Call::SendQueuing { message, .. } => Some(message),
        Call::WriteSampling { message, .. } => Some(message),
        _ => None,
    }
}

/// The number of the first message with these bytes, from the number `from` on.
pub(crate) fn index_of(
    logs: &[OwnLog],
    messages: &[CallPlace],
    from: usize,
    message: &Message,
) -> Option<usize> {
    (from..messages.len()).find(|&index| has_message(logs, messages[index], message))
}

fn has_message(logs: &[OwnLog], place: CallPlace, message: &Message) -> bool {
    let Some(log) = logs.get(place.partition) else {
        return false;
    };
    let Some(entry) = log.entries.get(place.index) else {
        return false;
    };
    match message_of(entry) {
        Some(sent) => sent.bytes() == message.bytes(),
        None => false,
    }
}

/// The message that the partition receives next from the port, before it clears it again.
pub(crate) fn received_next(logs: &[OwnLog], place: CallPlace, id: u32) -> Option<&Message> {
    let log = logs.get(place.partition)?;
    for index in place.index.saturating_add(1)..log.entries.len() {
        let entry = &log.entries[index];
        match &entry.call {
            Call::ReceiveQueuing { id: other } => {
                if *other == id && matches!(&entry.reply, Reply::Received(_)) {
                    return received(entry);
                }
            }
            Call::ClearQueuing { id: other } => {
                if *other == id {
                    return None;
                }
            }
            _ => {}
        }
    }
    None
}

fn received(entry: &Entry) -> Option<&Message> {
    match &entry.reply {
        Reply::Received(message) => Some(message),
        _ => None,
    }
}
