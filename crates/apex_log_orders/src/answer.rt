//! What is found for logs that partitions kept separately.
use apex_ports::Entry;
use std::marker::Model;

/// The entries that one partition logged, in order.
#[derive(Debug, Drop)]
pub struct OwnLog {
    pub entries: Vec<Entry>,
}

impl Model for OwnLog {
    ghost use Rattle.apex_log_orders.specs.Prelude.{List, Entry};

    ghost Value = { List Entry };

    ghost view = { λ log. log.entries.items };
}

/// An entry of a partition's log.
#[derive(Clone, Copy, Debug, PartialEq, Eq)]
pub struct CallPlace {
    /// The partition's number, from 0.
    pub partition: usize,
    /// The entry's number in the partition's log, from 0.
    pub index: usize,
}

/// Whether there is an order of all entries in which each reply is the standard's.
#[derive(Debug, Drop)]
pub enum Answer {
    /// Yes: this one.
    Order(Vec<CallPlace>),
    /// No. The longest beginning that was found.
    NoOrder(Vec<CallPlace>),
    /// Neither was found within the steps. The longest beginning that was found.
    Undecided(Vec<CallPlace>),
}
