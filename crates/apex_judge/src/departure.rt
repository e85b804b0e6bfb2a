//! Departures of a log from the standard.
use apex_ports::Row;
use apex_types::Reply;

/// What the standard has for a call: the row of the reply table, and its reply.
#[derive(Debug, Drop, PartialEq, Eq)]
pub struct Expected {
    pub row: Row,
    pub reply: Reply,
}

/// An entry of a log whose reply isn't the standard's.
#[derive(Debug, Drop, PartialEq, Eq)]
pub struct Departure {
    /// The entry's index in the log, from 0.
    pub index: usize,
    /// What the standard has there.
    pub expected: Expected,
}
