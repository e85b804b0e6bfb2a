//! Workers: each partition's script runs in a thread of its own, and all threads share one board. The caller chooses
//! the board. Each worker's replies are returned packed. The crate also makes the publishers of a module's sampling
//! channels, and publishes what a call writes.
#![tactic(auto)]

pub mod comparison;
pub mod fault;
pub mod gate;
pub mod packed;
pub mod packed_script;
pub mod publishing;
pub mod run;
pub mod shared;
mod steps;
mod stored;
mod worker;
mod workers;

pub use crate::comparison::are_complete;
pub use crate::fault::fault_without;
pub use crate::gate::{Gate, Held, OpenGate};
pub use crate::packed::PackedReplies;
pub use crate::packed_script::{PackedScript, pack_all, unpack_all};
pub use crate::publishing::{new_publishers, publish, publish_by};
pub use crate::run::run_over;
pub use crate::shared::{AskFault, SharedBoard};
pub use apex_ports::{RunFault, Script};
