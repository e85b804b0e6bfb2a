//! The ports of a module for programs in C. `docs/C.md` has how it is linked, and what is assumed of the caller.
#![tactic(auto)]

pub mod answer;
pub mod asked;
mod buffer;
mod calls;
pub mod configured;
pub mod counts;
pub mod fault;
mod found;
pub mod handle;
pub mod held;
pub mod held_judge;
pub mod judge_handle;
pub mod judged_line;
pub mod judging;
pub mod law;
mod lending;
pub mod modes;
pub mod names;
pub mod opening;
mod parts;
pub mod queuing;
pub mod readers;
pub mod replies;
mod rows;
pub mod sampling;
mod services;
