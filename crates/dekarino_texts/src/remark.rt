//! What is worth a look when a trace has ended.
use apex_types::{Moment, Name};
use std::fmt;

/// A remark on a trace. Lines are numbered from 1.
#[derive(Debug, Drop, PartialEq, Eq)]
pub enum Remark {
    /// The moment of the call in the line is before that of the call before it.
    MomentBefore {
        line: usize,
        at: Moment,
        last: Moment,
    },
    /// The call in the line was not made.
    CallNotMade {
        line: usize,
        partition: Name,
    },
    /// No call created the port.
    PortNotCreated {
        partition: Name,
        port: Name,
    },
    /// A restart of the partition lost the port, and no call created it again.
    PortLost {
        partition: Name,
        port: Name,
    },
    /// A sample was written into the port's channel, and no read at the port showed one.
    NoSampleRead {
        partition: Name,
        port: Name,
    },
    /// Messages wait on the channel in the end.
    MessagesWaiting {
        channel: Name,
        count: usize,
    },
}

impl fmt::Display for Remark {
    fn fmt<W: fmt::Write>(&self, f: &mut fmt::Formatter<W>) -> fmt::Result {
        match self {
            Remark::MomentBefore { line, at, last } => {
                let (Moment(at), Moment(last)) = (*at, *last);
                write!(f, "line {line}: moment {at} is before {last}")
            }
            Remark::CallNotMade { line, partition } => {
                write!(
                    f,
                    "line {line}: not made, since {} is in IDLE",
                    partition.text()
                )
            }
            Remark::PortNotCreated { partition, port } => {
                write!(
                    f,
                    "port {}.{}: never created",
                    partition.text(),
                    port.text()
                )
            }
            Remark::PortLost { partition, port } => {
                write!(
                    f,
                    "port {}.{}: lost by a restart, not created again",
                    partition.text(),
                    port.text()
                )
            }
            Remark::NoSampleRead { partition, port } => {
                write!(
                    f,
                    "port {}.{}: no sample was read",
                    partition.text(),
                    port.text()
                )
            }
            Remark::MessagesWaiting { channel, count } => {
                write!(f, "channel {}: messages waiting {count}", channel.text())
            }
        }
    }
}
