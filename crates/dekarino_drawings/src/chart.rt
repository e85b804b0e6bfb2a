//! What a trace's chart shows.
use crate::arrow::Arrow;
use apex_ports::{Entry, Row};

/// The maximum number of calls that are drawn.
pub const CALL_LIMIT: usize = 2000;

/// The calls of a trace, and what happened to their messages.
#[derive(Debug, Drop)]
pub struct Chart {
    /// The calls with their replies, in the trace's order.
    pub calls: Vec<Entry>,
    /// The row of the reply table that each call got.
    pub rows: Vec<Row>,
    /// The arrows, in the order of the calls that they lead to.
    pub arrows: Vec<Arrow>,
    /// The indexes of the sends whose messages wait at the end: channel by channel, oldest first.
    pub waiting: Vec<usize>,
}
