//! Judges recorded logs: finds the replies that depart from the standard. Each entry is judged given what the entries
//! before it show. A reply that departs counts as a mistake of the log, and judging goes on as if the standard's reply
//! were logged. If the same port or mode departs again, the log is believed.
#![tactic(auto)]

mod belief;
mod channel;
pub mod departure;
pub mod departures;
mod entries;
mod evidence;
mod initial_state;
pub mod judge;
pub mod laws;
pub mod own_ids;
mod partition;
mod past;
pub mod port_ids;
mod queue;
mod replies;
mod state;
mod steps;
mod subject;
mod tally;
mod view;
mod waiting_message;

pub use crate::departure::{Departure, Expected};
pub use crate::departures::{has_partitions, judge_log};
pub use crate::judge::Judge;
pub use crate::own_ids::{OwnIds, Replaced};
pub use crate::port_ids::{KnownIds, PortId};
