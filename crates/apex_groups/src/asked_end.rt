//! A question about what a channel counts after all calls.
ghost use Rattle.std.specs.Prelude.{◌≡◌, ◌<◌, ◌↔◌, length, IsTrue};
ghost use Rattle.apex_groups.specs.Ends.{Compares, IsSuchEnd, count_after};

use apex_ports::Ports;

/// A count of a channel's messages.
#[derive(Clone, Copy, Debug, PartialEq, Eq)]
pub enum Count {
    Accepted,
    Received,
    Cleared,
    Waiting,
}

/// How a number compares with another.
#[derive(Clone, Copy, Debug, PartialEq, Eq)]
pub enum Comparison {
    Equal,
    AtMost,
    AtLeast,
    Less,
    More,
}

/// A question: whether a channel's count can compare so with a number after all calls.
#[derive(Clone, Copy, Debug, PartialEq, Eq)]
pub struct AskedEnd {
    /// The channel's number, from 0.
    pub channel: usize,
    pub count: Count,
    pub comparison: Comparison,
    pub number: u64,
}

impl Count {
    /// The count of a channel after the calls.
    fn of(self, ports: &Ports, c: usize) -> u64
        requires { c < length ports.now.config.channels }
        ensures { result ≡ count_after ports.now.config ports.now.history c self }
    {
        match self {
            Count::Accepted => ports.accepted_count(c),
            Count::Received => ports.received_count(c),
            Count::Cleared => ports.cleared_count(c),
            Count::Waiting => ports.waiting_count(c) as u64,
        }
    }
}

impl Comparison {
    /// Whether a number compares so with another.
    fn holds(self, a: u64, b: u64) -> bool
        ensures { IsTrue result ↔ Compares self a b }
    {
        match self {
            Comparison::Equal => a == b,
            Comparison::AtMost => a <= b,
            Comparison::AtLeast => a >= b,
            Comparison::Less => a < b,
            Comparison::More => a > b,
        }
    }
}

impl AskedEnd {
    /// Whether the calls have the end that is asked for.
    pub(crate) fn is_reached(&self, ports: &Ports) -> bool
        requires { self.now.channel < length ports.now.config.channels }
        ensures { IsTrue result ↔ IsSuchEnd ports.now.config self.now ports.now.history }
    {
        let count = self.count.of(ports, self.channel);
        self.comparison.holds(count, self.number)
    }
}
