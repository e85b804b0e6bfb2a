//! The text of a run: its workers make the calls of their scripts on ports behind a lock. The ports record only whose
//! turn it was. After all workers have ended, the calls are served again on new ports in that order, and each reply
//! must be the one that its worker got. That second run is the report.
#![tactic(auto)]

mod observers;
mod pass;
pub mod run;
mod run_ports;

pub use crate::run::{run_order, run_packed_text, run_text};
