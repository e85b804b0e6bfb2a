//! The questions that `dekarino` searches for answers to, `judge` and `orders`, and what all its tasks share: reading a
//! configuration and scripts with the mistakes of refused texts, JSON lines, showing how far a search is, what a task
//! answers, and why it can't.
#![tactic(auto)]

mod answers;
mod bound;
mod clock;
mod configuration;
mod end_questions;
mod file_writer;
mod input_files;
mod json;
mod json_departures;
mod json_outcomes;
mod json_reasons;
mod log_orders;
mod log_stops;
mod mistakes;
mod next_calls;
mod occurrences;
mod one_log;
mod order_answer;
mod order_log;
pub mod outcome;
mod own_logs;
mod places;
mod progress;
mod question_faults;
mod questions;
mod reason_text;
mod reasons;
mod script_outcomes;
mod scripts;
mod search_progress;
pub mod unfinished;
mod unreadable;
mod verdict;
mod witnesses;

pub use crate::bound::Bound;
pub use crate::configuration::read_config;
pub use crate::file_writer::FileWriter;
pub use crate::input_files::InputFiles;
pub use crate::json::push_object;
pub use crate::log_orders::order_of_logs;
pub use crate::log_stops::TOO_LONG;
pub use crate::mistakes::mistakes_of_trace;
pub use crate::one_log::departures_of_log;
pub use crate::outcome::Outcome;
pub use crate::progress::{Progress, ProgressLine, Reached};
pub use crate::script_outcomes::outcomes_of_scripts;
pub use crate::scripts::{Scripts, read_scripts};
pub use crate::unfinished::Unfinished;
pub use crate::unreadable::UnreadableFile;
