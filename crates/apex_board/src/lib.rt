//! The board: the ports of a module with the log of all calls and the journals of its queuing channels.
#![tactic(auto)]

mod asked;
pub mod board;
mod journal;
mod records;
pub mod requests;
mod samples;

pub use crate::board::Board;
pub use crate::requests::{Stopped, run_list};
pub use apex_ports::{Entry, Request};
