//! The words of the command line of `dekarino`: its commands, what each of them takes, and the help of each.
#![tactic(auto)]

mod commands;
pub mod fault;
mod files;
mod help;
mod input;
mod judge_words;
pub mod limits;
mod orders_words;
pub mod start;
pub mod task;
mod usage;
pub mod version;
mod words;
mod wrapping;

pub use crate::fault::WordsFault;
pub use crate::limits::SearchLimits;
pub use crate::start::{Origin, Start, start_given};
pub use crate::task::{Files, Form, Question, Task};
pub use crate::usage::not_text;
pub use crate::version::{VERSION, version_text};
pub use crate::words::task_of;
