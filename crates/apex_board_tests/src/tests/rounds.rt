//! A long history of a module at the limits, by rounds.
//!
//! In the first round each partition creates its ports and goes to NORMAL. In each of the next 1,725 rounds every
//! channel is used. For 1,213 of them each source sends or writes. From the 513th on, when the queues are full, a send
//! is refused, the destination receives the oldest message, and the send is repeated. In 512 more rounds the queues are
//! emptied: an even channel by receiving, and an odd channel by one clearing. In the last round every further
//! destination reads, at another moment than the writes, and each port reports its status and its identifier. Then
//! every partition goes to IDLE.
use crate::tests::module::Module;
use apex_board::Request;
use apex_types::{Call, Direction, Message, Moment, Name, Reply, ReturnCode, Validity};

pub(crate) const PARTITIONS: u32 = 32;

pub(crate) const CHANNELS: u32 = 64;

pub(crate) const DEPTH: u32 = 512;

pub(crate) const SIZE: u32 = 1024;

pub(crate) const REFRESH: u64 = 9223372036854775807;

/// The rounds in which queuing messages are sent.
pub(crate) const SENDING: u32 = 1213;

/// The rounds in which every channel is used.
pub(crate) const USING: u32 = 1725;

/// The number of all rounds.
pub(crate) const ROUNDS: u32 = 1727;

/// The places of a round. Not all of them have a call.
pub(crate) const PLACES: u32 = 3136;

const NO_ERROR: Reply = Reply::Code(ReturnCode::NoError);

const NOT_AVAILABLE: Reply = Reply::Code(ReturnCode::NotAvailable);

/// A call and its reply.
#[derive(Drop)]
pub(crate) struct Row {
    pub(crate) request: Request,
    pub(crate) reply: Reply,
}

fn row_of(partition: u32, at: u64, call: Call, reply: Reply) -> Option<Row> {
    Some(Row {
        request: Request {
            partition: partition as usize,
            at: Moment(at),
            call,
        },
        reply,
    })
}

/// The channel of a port, by the port's index from 0. Indexes 0 and 1 are the sources of two channels, 2 and 3 the
/// destinations of the next partition's two, and the others further destinations of the last 32 channels.
pub(crate) fn channel_at(partition: u32, index: u32) -> u32 {
    let (partition, index) = (partition % 32, index % 32);
    if index < 4 {
        (2 * partition + index) % CHANNELS
    } else {
        32 + (28 * partition + index) % 32
    }
}

// The partition of a channel's source.
fn source_of(channel: u32) -> u32 {
    channel / 2
}

// The identifier of a channel's source.
fn source_id(channel: u32) -> u32 {
    1 + channel % 2
}

// The partition before the source's has the channel's destination, or one destination of many.
fn destination_of(channel: u32) -> u32 {
    (channel / 2 + 31) % PARTITIONS
}

// The identifier of that destination.
fn destination_id(channel: u32) -> u32 {
    3 + channel % 2
}

/// The message of a channel's round: both numbers in four bytes each, and padding to 1,024 bytes.
pub(crate) fn message_of(channel: u32, round: u32) -> Message {
    let mut bytes = [b'M'; 1024];
    bytes[..4].copy_from_slice(&channel.to_be_bytes());
    bytes[1020..].copy_from_slice(&round.to_be_bytes());
    match Message::from_bytes(&bytes) {
        Ok(message) => message,
        Err(_) => Message::empty(),
    }
}

fn direction_at(index: u32) -> Direction {
    if index < 2 {
        Direction::Source
    } else {
        Direction::Destination
    }
}

fn queuing_status(waiting: u32, index: u32) -> Reply {
    Reply::QueuingStatus {
        waiting,
        depth: DEPTH,
        size: SIZE,
        direction: direction_at(index),
    }
}

// The name of the port at an index from 0.
fn port_name(index: u32) -> Option<Name> {
    let mut bytes = *b"PORT_OF_TWENTY_EIGHT_LETTERS10";
    bytes[28] = b'1' + (index / 10 % 4) as u8;
    bytes[29] = b'0' + (index % 10) as u8;
    Name::from_bytes(&bytes).ok()
}

impl Module {
    /// The call at a place of a round, if it has one, and its reply.
    pub(crate) fn row(self, round: u32, place: u32) -> Option<Row> {
        if round == 0 {
            return self.first_row(place / 33, place % 33);
        }
        if round > USING {
            return self.last_row(place / 98, place % 98);
        }
        let channel = place / 3;
        if channel >= CHANNELS {
            None
        } else if self.is_queuing(channel) {
            self.queuing_row(channel, round, place % 3)
        } else {
            self.sampling_row(channel, round, place % 3)
        }
    }

    fn first_row(self, partition: u32, index: u32) -> Option<Row> {
        if partition >= PARTITIONS {
            return None;
        }
        if index == 32 {
            return row_of(partition, self.at, Call::SetMode { mode: 3 }, NO_ERROR);
        }
        if index >= self.ports() {
            return None;
        }
        let call = self.creation(partition, index)?;
        row_of(partition, self.at, call, Reply::Id(index + 1))
    }

    fn creation(self, partition: u32, index: u32) -> Option<Call> {
        let name = port_name(index)?;
        let direction = if index < 2 { 0 } else { 1 };
        Some(if self.is_queuing(channel_at(partition, index)) {
            Call::CreateQueuing {
                name,
                size: SIZE,
                depth: DEPTH,
                direction,
                discipline: 0,
            }
        } else {
            Call::CreateSampling {
                name,
                size: SIZE,
                direction,
                refresh: REFRESH,
            }
        })
    }

    fn sent(self, channel: u32, round: u32, reply: Reply) -> Option<Row> {
        let call = Call::SendQueuing {
            id: source_id(channel),
            message: message_of(channel, round),
        };
        row_of(source_of(channel), self.at, call, reply)
    }

    fn received(self, channel: u32, reply: Reply) -> Option<Row> {
        let id = destination_id(channel);
        row_of(
            destination_of(channel),
            self.at,
            Call::ReceiveQueuing { id },
            reply,
        )
    }

    // The oldest message is received once the queue is full.
    fn oldest_received(self, channel: u32, round: u32) -> Option<Row> {
        let message = message_of(channel, round.saturating_sub(DEPTH));
        self.received(channel, Reply::Received(message))
    }

    fn queuing_row(self, channel: u32, round: u32, step: u32) -> Option<Row> {
        if round > SENDING {
            return self.emptying_row(channel, round, step);
        }
        match step {
            2 => self.sent(channel, round, NO_ERROR),
            _ if round <= DEPTH => None,
            0 => self.sent(channel, round, NOT_AVAILABLE),
            _ => self.oldest_received(channel, round),
        }
    }

    fn emptying_row(self, channel: u32, round: u32, step: u32) -> Option<Row> {
        let is_first = round == SENDING + 1;
        match step {
            0 if is_first => {
                let id = source_id(channel);
                let call = Call::QueuingStatus { id };
                row_of(source_of(channel), self.at, call, queuing_status(DEPTH, 0))
            }
            1 if channel % 2 == 0 => self.oldest_received(channel, round),
            1 if is_first => {
                let id = destination_id(channel);
                row_of(
                    destination_of(channel),
                    self.at,
                    Call::ClearQueuing { id },
                    NO_ERROR,
                )
            }
            1 => self.received(channel, NOT_AVAILABLE),
            _ => None,
        }
    }

    fn sampling_row(self, channel: u32, round: u32, step: u32) -> Option<Row> {
        let message = message_of(channel, round);
        if step == 0 {
            let id = source_id(channel);
            let call = Call::WriteSampling { id, message };
            return row_of(source_of(channel), self.at, call, NO_ERROR);
        }
        if step == 1 {
            let id = destination_id(channel);
            let validity = Validity::Valid;
            let reply = Reply::Read { message, validity };
            return row_of(
                destination_of(channel),
                self.at,
                Call::ReadSampling { id },
                reply,
            );
        }
        None
    }

    fn last_row(self, partition: u32, step: u32) -> Option<Row> {
        if partition >= PARTITIONS {
            return None;
        }
        match step {
            96 => row_of(partition, self.at, Call::SetMode { mode: 0 }, NO_ERROR),
            97 => row_of(
                partition,
                self.at,
                Call::SetMode { mode: 3 },
                Reply::NotMade,
            ),
            _ if step / 3 >= self.ports() => None,
            _ if step % 3 == 2 => self.identifier(partition, step / 3),
            _ if self.is_queuing(channel_at(partition, step / 3)) => {
                self.last_of_queuing(partition, step / 3, step % 3)
            }
            _ => self.last_of_sampling(partition, step / 3, step % 3),
        }
    }

    // A port reports the identifier of its name.
    fn identifier(self, partition: u32, index: u32) -> Option<Row> {
        let id = index.saturating_add(1);
        let name = port_name(index)?;
        if self.is_queuing(channel_at(partition, index)) {
            return row_of(partition, self.at, Call::QueuingId { name }, Reply::Id(id));
        }
        row_of(partition, self.at, Call::SamplingId { name }, Reply::Id(id))
    }

    fn last_of_queuing(self, partition: u32, index: u32, step: u32) -> Option<Row> {
        if step == 0 {
            return None;
        }
        let id = index.saturating_add(1);
        row_of(
            partition,
            self.at,
            Call::QueuingStatus { id },
            queuing_status(0, index),
        )
    }

    // The history is written at moment 0 and read at the greatest moment; or the other way round, so that a message is
    // never too old.
    fn last_validity(self, index: u32) -> Validity {
        if index < 2 || self.at == 0 {
            Validity::Invalid
        } else {
            Validity::Valid
        }
    }

    fn last_of_sampling(self, partition: u32, index: u32, step: u32) -> Option<Row> {
        let id = index.saturating_add(1);
        let last = self.last_validity(index);
        if step == 1 {
            let reply = Reply::SamplingStatus {
                refresh: REFRESH,
                size: SIZE,
                direction: direction_at(index),
                last,
            };
            return row_of(partition, self.at, Call::SamplingStatus { id }, reply);
        }
        if index < 2 {
            return None;
        }
        let message = message_of(channel_at(partition, index), USING);
        let reply = Reply::Read {
            message,
            validity: last,
        };
        row_of(
            partition,
            u64::MAX - self.at,
            Call::ReadSampling { id },
            reply,
        )
    }
}
