//! Sampling channels that observers read outside the board's lock, without ever waiting.
//!
//! A `Publisher` is the writing end of one sampling channel: observers see each write as soon as it is published. An
//! `Observer` reads the channel's last sample in any thread. A `Receipt` is a token for the writes that were published
//! when it was made; an observer that learned it shows no earlier state. `Publishers` has the publishers of all
//! sampling channels of a module.
//!
//! | Call | May wait | May fail |
//! |---|---|---|
//! | `Publisher::new`, `Publishers::add_sampling` | yes | out of memory |
//! | `Publisher::publish`, `Publishers::publish` | for reads in progress | out of memory, which `new` allocates |
//! | `Publisher::close`, `Publishers::close` | for reads in progress | no |
//! | `Publisher::observer`, `Publishers::observers` | no | no room for another observer; out of memory |
//! | `Publisher::receipt`, `Publishers::receipt`, `Publishers::tell`, `Receipt::copy`, `Observer::learn`, `Observer::read` | no | no |
//!
//! # What is published
//!
//! A channel has two copies of its last sample (the crate `left_right`): readers read one while the writer changes the
//! other, and a publication swaps them. Each copy has a receipt beside the sample, so that a reader knows which writes
//! came before. Only contracts say what a receipt means: a ghost history has each write at its index (the crate
//! `logbook`). In the program a receipt is the number of writes. Two lists of one channel are prefixes of one history,
//! so comparing their numbers finds the longer.
//!
//! # What is promised
//!
//! - A publisher's list of writes grows by exactly the write that it publishes, and no other call changes it.
//! - A receipt has the publisher's list.
//! - An observer shows the last write of some list, with the validity at the given moment, or `Empty` if the list is
//!   empty. Everything that it read or learned before is a prefix of that list. Otherwise it shows `Gone` and keeps
//!   what it knew.
//!
//! No contract says when an observer shows `Gone`, or that it shows a write that it hasn't learned. Tests show that it
//! shows `Gone` if and only if the publisher was closed, and that it sees what is published.
#![tactic(auto)]

mod history;
pub mod observer;
pub mod publisher;
pub mod publishers;
pub mod receipt;
mod rule;
pub mod sampled;
mod version;

pub use crate::observer::Observer;
pub use crate::publisher::{NoPlace, ObserverFault, Publisher};
pub use crate::publishers::Publishers;
pub use crate::receipt::Receipt;
pub use crate::sampled::Sampled;
