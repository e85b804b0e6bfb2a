//! Orders of the entries of logs that partitions kept separately: whether there is one in which each reply is the
//! standard's.
#![tactic(auto)]

mod advice;
pub mod answer;
mod bounds;
mod by_channel;
mod channel_ways;
mod choice;
mod dead_ends;
mod ends;
mod log_reader;
mod messages;
mod points;
mod progress;
mod reads;
mod replay;
mod search;
mod second_search;
mod stuck;
mod too_soon;
mod uses;
mod walk;

pub use crate::answer::{Answer, CallPlace, OwnLog};
pub use crate::progress::{NoProgress, Progress};
pub use crate::search::{find_order, find_order_with_progress};
