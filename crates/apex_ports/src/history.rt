//! Requests, and the entries of a log.
use apex_types::{Call, Moment, Reply};

/// A call of a partition at a moment.
#[derive(Debug, Drop, PartialEq, Eq)]
pub struct Request {
    /// The partition's number, from 0.
    pub partition: usize,
    pub at: Moment,
    pub call: Call,
}

/// A call with the reply that it got.
#[derive(Debug, Drop, PartialEq, Eq)]
pub struct Entry {
    /// The partition's number, from 0.
    pub partition: usize,
    pub at: Moment,
    pub call: Call,
    pub reply: Reply,
}
