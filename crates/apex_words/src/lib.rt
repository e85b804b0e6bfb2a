//! The rows of the reply table and the calls of traces and logs, in words.
#![tactic(auto)]

mod calls;
pub mod law;
mod names;
pub mod replies;
mod services;
mod table;
mod values;
mod words;

pub use crate::calls::{push_call, push_logged, push_request};
pub use crate::names::row_name;
pub use crate::replies::{can_give, can_give_code};
pub use crate::services::{accepted_words, refusals_of, standard_name};
pub use crate::table::{push_condition, push_row_pattern, push_rows, push_service_rows};
pub use crate::words::{push_note, push_words};
