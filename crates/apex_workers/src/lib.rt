//! Workers over one board behind a lock: each partition's script runs in a thread of its own, and the board's log is
//! compared with what was handed out. The crate also writes the report of a board, from its log.
#![tactic(auto)]

pub mod board_report;
mod comparison;
pub mod locked;
mod observed;
pub mod replies;
pub mod run;

pub use crate::board_report::report;
pub use crate::comparison::is_collected;
pub use crate::locked::LockedBoard;
pub use crate::replies::Replies;
pub use crate::run::{Finished, run_scripts};
pub use apex_threads::{
    AskFault, Gate, Held, OpenGate, PackedReplies, PackedScript, RunFault, Script, SharedBoard,
    pack_all, run_over,
};
