//! Ports.
ghost use Rattle.std.specs.Prelude.{◌≡◌};

use apex_types::{Direction, Name};

/// The kind of a port.
#[derive(Clone, Copy, Debug, PartialEq, Eq)]
pub enum PortKind {
    /// An end of a queue.
    Queuing,
    /// An end of a sampling channel, with its REFRESH_PERIOD in nanoseconds.
    Sampling { refresh: u64 },
}

impl PortKind {
    ghost use Rattle.apex_module.specs.Configuration.{is_queuing_port, refresh_of_kind};

    /// Whether the port is a queuing port.
    pub fn is_queuing(self) -> bool
        ensures { result ≡ is_queuing_port self }
    {
        match self {
            PortKind::Queuing => true,
            PortKind::Sampling { .. } => false,
        }
    }

    /// The REFRESH_PERIOD of the port, in nanoseconds; 0 for a queuing port.
    pub fn refresh(self) -> u64
        ensures { result ≡ refresh_of_kind self }
    {
        match self {
            PortKind::Queuing => 0,
            PortKind::Sampling { refresh } => refresh,
        }
    }
}

/// A port of a partition. `channel` is the number of its channel, from 0.
#[derive(Debug, Drop, PartialEq, Eq)]
pub struct Port {
    pub name: Name,
    pub kind: PortKind,
    pub direction: Direction,
    pub channel: usize,
}

impl Port {
    /// A copy of the port.
    pub fn copy(&self) -> Port
        ensures { result ≡ self.now }
    {
        Port {
            name: self.name.copy(),
            kind: self.kind,
            direction: self.direction,
            channel: self.channel,
        }
    }
}
