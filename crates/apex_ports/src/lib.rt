//! The ports of a module: its modes, port tables, queues and samples, without a log of the calls. The crate also has
//! scripts and the faults of a run, which the texts and the workers above share.
#![tactic(auto)]

mod channel;
mod effects;
mod ghost_history;
pub mod history;
mod initial_state;
mod message_ring;
mod modes;
pub mod noted;
mod owned;
mod packing;
mod partition;
pub mod ports;
pub mod rows;
pub mod rules;
pub mod run_fault;
mod sample_slot;
mod saved_channel;
mod saved_partition;
pub mod script;
mod service;
mod services;
mod state;
pub mod stored_messages;
pub mod table;
mod unpacking;
pub mod view;
mod writes;

pub use crate::history::{Entry, Request};
pub use crate::noted::{CallRef, ReplyRef, SampleRef};
pub use crate::ports::Ports;
pub use crate::ports::saved::SavedPorts;
pub use crate::rows::{Refusal, Row};
pub use crate::run_fault::RunFault;
pub use crate::script::Script;
pub use crate::stored_messages::StoredMessages;
