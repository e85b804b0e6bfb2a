//! The mistakes of traces, scripts and logs: where each faulty line is wrong and what was expected there, as data and in words.
#![tactic(auto)]

mod expected;
pub mod faulty_lines;
pub mod faulty_log;
mod faulty_log_line;
mod habits;
mod hint;
mod known;
pub mod line_place;
mod log_hint;
pub mod log_place;
mod mistakes;
mod mistakes_of_logs;
mod quoted;
mod reply_hint;
mod reply_word;
mod standard;

pub use crate::faulty_lines::{FaultyLines, script_faults, trace_faults};
pub use crate::faulty_log::{LogFaults, first_place_is_of_the_refusal, log_faults, own_log_faults};
pub use crate::line_place::LinePlace;
pub use crate::log_place::{LogPart, LogPlace};
pub use crate::mistakes::{script_mistakes, trace_mistakes};
pub use crate::mistakes_of_logs::{log_line_mistake, log_mistakes, own_log_mistakes};
