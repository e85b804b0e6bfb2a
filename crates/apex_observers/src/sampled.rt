//! What an observer shows.
use apex_types::{Message, Moment, Validity};

/// What a read of an observer shows.
#[derive(Debug, Drop, PartialEq, Eq)]
pub enum Sampled {
    /// Nothing was written.
    Empty,
    /// The last message written, when it was written, and its validity at the moment of the read.
    Sample {
        message: Message,
        at: Moment,
        validity: Validity,
    },
    /// The channel's publisher has ended.
    Gone,
}
