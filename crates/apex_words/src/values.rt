//! The values that the words of a row name.
ghost use Rattle.std.specs.Prelude.{◌<◌, length, IfSome};

use apex_module::{Channel, Config, Port, PortKind};
use apex_ports::CallRef;
use apex_texts::Service;
use apex_types::{Direction, Name};
use std::fmt;

/// A value of a call or of a port. It is `Absent` if the call or the configuration has no such value.
#[derive(Clone, Copy, Default)]
pub(crate) enum Value<'a> {
    #[default]
    Absent,
    Text(&'a str),
    Number(u64),
    /// The number of messages in a full queue.
    Waiting(u32),
    /// A direction, as its number and its word.
    Direction(Direction),
}

impl Value<'_> {
    fn of(number: u32) -> Value<'static> {
        Value::Number(u64::from(number))
    }
}

impl fmt::Display for Value<'_> {
    fn fmt<W: fmt::Write>(&self, f: &mut fmt::Formatter<W>) -> fmt::Result {
        match self {
            Value::Absent => Ok(()),
            Value::Text(text) => f.write_str(text),
            Value::Number(number) => write!(f, "{number}"),
            Value::Waiting(1) => f.write_str("1 message waits"),
            Value::Waiting(count) => write!(f, "{count} messages wait"),
            Value::Direction(direction) => {
                write!(f, "{} for {}", direction.number(), direction.word())
            }
        }
    }
}

/// The values that the words of a row name.
#[derive(Clone, Copy)]
pub(crate) struct Values<'a> {
    /// The name of the calling partition.
    pub(crate) partition: &'a str,
    /// The kind of ports that the service is for.
    pub(crate) kind: &'static str,
    pub(crate) call: CallValues<'a>,
    pub(crate) port: PortValues<'a>,
}

impl<'a> Values<'a> {
    /// The values of a call of partition `p`, and of the port that it names, as configured.
    pub(crate) fn of(config: &'a Config, p: usize, call: CallRef<'a>) -> Values<'a>
        requires { p < length config.now.partitions }
    {
        Values {
            partition: config.partition_name(p).text(),
            kind: kind_of(Service::of(call)),
            call: CallValues::of(call),
            port: match port_called(config, p, call) {
                Some(port) => PortValues::of(port, config.channel(port.channel)),
                None => PortValues::default(),
            },
        }
    }

    /// Upper-case words instead of the values, for any call of the service.
    pub(crate) fn placeholders(service: Service) -> Values<'a> {
        Values {
            partition: "PARTITION",
            kind: kind_of(service),
            call: CallValues::PLACEHOLDERS,
            port: PortValues::PLACEHOLDERS,
        }
    }
}

/// The kind of ports that a service is for. SET_PARTITION_MODE has none.
pub(crate) fn kind_of(service: Service) -> &'static str {
    match service {
        Service::CreateSampling
        | Service::WriteSampling
        | Service::ReadSampling
        | Service::SamplingId
        | Service::SamplingStatus => "sampling",
        Service::CreateQueuing
        | Service::SendQueuing
        | Service::ReceiveQueuing
        | Service::QueuingId
        | Service::QueuingStatus
        | Service::ClearQueuing => "queuing",
        Service::SetMode => "",
    }
}

/// The values that a call is made with.
#[derive(Clone, Copy, Default)]
pub(crate) struct CallValues<'a> {
    pub(crate) name: Value<'a>,
    pub(crate) id: Value<'a>,
    /// The length of the message in bytes.
    pub(crate) length: Value<'a>,
    pub(crate) size: Value<'a>,
    pub(crate) depth: Value<'a>,
    pub(crate) direction: Value<'a>,
    pub(crate) refresh: Value<'a>,
    pub(crate) discipline: Value<'a>,
    pub(crate) mode: Value<'a>,
}

impl<'a> CallValues<'a> {
    const PLACEHOLDERS: CallValues<'static> = CallValues {
        name: Value::Text("NAME"),
        id: Value::Text("ID"),
        length: Value::Text("LENGTH"),
        size: Value::Text("SIZE"),
        depth: Value::Text("DEPTH"),
        direction: Value::Text("DIRECTION"),
        refresh: Value::Text("REFRESH"),
        discipline: Value::Text("DISCIPLINE"),
        mode: Value::Text("MODE"),
    };

    fn of(call: CallRef<'a>) -> CallValues<'a> {
        let mut values = CallValues::default();
        match call {
            CallRef::CreateSampling {
                name,
                size,
                direction,
                refresh,
            } => {
                values = CallValues::of_creation(name, size, direction);
                values.refresh = Value::Number(refresh);
            }
            CallRef::CreateQueuing {
                name,
                size,
                depth,
                direction,
                discipline,
            } => {
                values = CallValues::of_creation(name, size, direction);
                values.depth = Value::of(depth);
                values.discipline = Value::of(discipline);
            }
            CallRef::WriteSampling { id, message } | CallRef::SendQueuing { id, message } => {
                values.id = Value::of(id);
                values.length = Value::Number(message.len() as u64);
            }
            CallRef::SamplingId { name } | CallRef::QueuingId { name } => {
                values.name = Value::Text(name.text());
            }
            CallRef::ReadSampling { id }
            | CallRef::SamplingStatus { id }
            | CallRef::ReceiveQueuing { id }
            | CallRef::QueuingStatus { id }
            | CallRef::ClearQueuing { id } => values.id = Value::of(id),
            CallRef::SetMode { mode } => values.mode = Value::of(mode),
        }
        values
    }

    /// The values that both kinds of creation have.
    fn of_creation(name: &'a Name, size: u32, direction: u32) -> CallValues<'a> {
        let mut values = CallValues::default();
        values.name = Value::Text(name.text());
        values.size = Value::of(size);
        values.direction = Value::of(direction);
        values
    }
}

/// The values of a configured port and its channel.
#[derive(Clone, Copy, Default)]
pub(crate) struct PortValues<'a> {
    pub(crate) name: Value<'a>,
    /// The kind of the port; empty if there is none.
    pub(crate) kind: &'static str,
    pub(crate) channel: Value<'a>,
    pub(crate) size: Value<'a>,
    pub(crate) depth: Value<'a>,
    /// The number of messages that wait if the queue is full.
    pub(crate) waiting: Value<'a>,
    pub(crate) direction: Value<'a>,
    pub(crate) refresh: Value<'a>,
}

impl<'a> PortValues<'a> {
    const PLACEHOLDERS: PortValues<'static> = PortValues {
        name: Value::Text("PORT"),
        kind: "",
        channel: Value::Text("CHANNEL"),
        size: Value::Text("CHANNEL_SIZE"),
        depth: Value::Text("CHANNEL_DEPTH"),
        waiting: Value::Text("CHANNEL_DEPTH messages wait"),
        direction: Value::Text("PORT_DIRECTION"),
        refresh: Value::Text("PORT_REFRESH"),
    };

    fn of(port: &'a Port, channel: &'a Channel) -> PortValues<'a> {
        PortValues {
            name: Value::Text(port.name.text()),
            kind: match port.kind {
                PortKind::Queuing => "queuing",
                PortKind::Sampling { .. } => "sampling",
            },
            channel: Value::Text(channel.name.text()),
            size: Value::of(channel.size),
            depth: Value::of(channel.kind.depth()),
            waiting: Value::Waiting(channel.kind.depth()),
            direction: Value::Direction(port.direction),
            refresh: Value::Number(port.kind.refresh()),
        }
    }
}

/// The port that a call of partition `p` names, created or not.
fn port_called<'a>(config: &'a Config, p: usize, call: CallRef<'_>) -> Option<&'a Port>
    requires { p < length config.now.partitions }
    ensures { IfSome result (λ port. port.now.channel < length config.now.channels) }
{
    let id = match call {
        CallRef::CreateSampling { name, .. }
        | CallRef::CreateQueuing { name, .. }
        | CallRef::SamplingId { name }
        | CallRef::QueuingId { name } => config.port_named(p, name)?,
        CallRef::WriteSampling { id, .. }
        | CallRef::ReadSampling { id }
        | CallRef::SamplingStatus { id }
        | CallRef::SendQueuing { id, .. }
        | CallRef::ReceiveQueuing { id }
        | CallRef::QueuingStatus { id }
        | CallRef::ClearQueuing { id } => id,
        CallRef::SetMode { .. } => return None,
    };
    config.port(p, id)
}
