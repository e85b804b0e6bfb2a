//! What several workers share.
ghost use Rattle.std.specs.Prelude.{◌≤◌};
ghost use Rattle.apex_ports.specs.Noted.{call_by};
ghost use Rattle.apex_ports.specs.Services.{length_sent};

use apex_ports::CallRef;
use apex_types::{Call, MESSAGE_LIMIT, Moment, Reply};
use std::sync::Wait;
use thiserror::Error;

/// Why a shared board gives no reply.
#[derive(Clone, Copy, Debug, PartialEq, Eq, Error)]
pub enum AskFault {
    /// An allocation failed.
    #[error("out of memory")]
    OutOfMemory,
    /// The board has no such partition.
    #[error("no such partition")]
    NoPartition,
}

/// A board that several threads share.
pub trait SharedBoard: Sync {
    /// Answers one call of the partition at the moment. A refused call changes nothing.
    fn ask<R: Wait>(
        &self,
        rt: &R,
        partition: usize,
        at: Moment,
        call: &Call,
    ) -> Result<Reply, AskFault>;

    /// Answers the call as `ask` does, with the reply in `reply`. A board that can do so neither copies the call nor moves
    /// the reply.
    fn ask_into<R: Wait>(
        &self,
        rt: &R,
        partition: usize,
        at: Moment,
        call: CallRef<'_>,
        reply: &mut Reply,
    ) -> Result<(), AskFault>
        requires { length_sent (call_by call) ≤ MESSAGE_LIMIT }
    {
        *reply = self.ask(rt, partition, at, &call.to_call())?;
        Ok(())
    }
}
