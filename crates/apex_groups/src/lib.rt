//! Groups of partitions that share no channel with the others, and searches for orders that take each group by itself.
#![tactic(auto)]

pub mod asked_end;
mod between;
pub mod deciding;
pub mod decision;
mod different_ends;
pub mod end_witness;
mod ends;
pub mod exchanging;
pub mod groups;
mod log_orders;
mod log_parts;
mod merging;
pub mod outcomes;
mod part_answers;
mod part_search;
mod parts;
mod pool;
mod questions;
pub mod reply_orders;
mod script_part;
mod script_parts;
mod searcher;
mod shortening;
pub mod two_orders;
pub mod witness;

pub use crate::asked_end::{AskedEnd, Comparison, Count};
pub use crate::deciding::{Reason, deciding_calls};
pub use crate::decision::Decision;
pub use crate::end_witness::orders_to_ends;
pub use crate::exchanging::exchange;
pub use crate::groups::Groups;
pub use crate::log_orders::find_order_apart;
pub use crate::outcomes::{OutcomesApart, PartCounts, all_outcomes_apart};
pub use crate::reply_orders::orders_of_replies;
pub use crate::two_orders::TwoOrders;
pub use crate::witness::{order_giving_apart, orders_giving_apart};
