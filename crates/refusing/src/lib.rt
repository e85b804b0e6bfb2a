//! Test support: an allocator that refuses requests for memory by a plan.
#![tactic(auto)]

mod plan;
mod switch;

pub use switch::Switch;
