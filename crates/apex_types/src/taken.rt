//! Messages taken out of a queuing channel.
use crate::message::Message;

/// A message that no longer waits on its queuing channel.
#[derive(Debug, Drop, PartialEq, Eq)]
pub struct Taken {
    pub message: Message,
    /// Whether CLEAR_QUEUING_PORT discarded it; otherwise a partition received it.
    pub cleared: bool,
}
