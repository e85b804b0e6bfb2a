//! All that can happen to the scripts of a module, over every order of their calls; and the states that replies depend
//! on.
#![tactic(auto)]

mod answer;
pub mod asked;
mod choice;
pub mod clock_law;
mod commuting;
pub mod commuting_law;
mod found_point;
mod halving;
mod hash;
mod hash_index;
mod last_uses;
mod marks;
pub mod order;
mod orders;
pub mod orders_fault;
pub mod outcome_search;
pub mod outcomes;
mod point;
mod points;
mod progress;
pub mod replay;
mod replies;
mod rounds;
mod runs;
pub mod same_state;
mod search;
mod shared;
mod shares;
mod sizes;
mod spare;
pub mod state_law;
pub mod step;
mod threads;
mod trial;
pub mod witness;
mod worker;
mod workers;

pub use crate::asked::{Admitted, Asked};
pub use crate::choice::is_due;
pub use crate::commuting::id_in;
pub use crate::order::Order;
pub use crate::orders_fault::OrdersFault;
pub use crate::outcome_search::{OutcomeSearch, Searched};
pub use crate::outcomes::{Outcomes, all_outcomes};
pub use crate::progress::{NoProgress, Progress};
pub use crate::replay::Replayer;
pub use crate::replies::PossibleReply;
pub use crate::same_state::is_same_state;
pub use crate::witness::orders_giving;
