//! The exact reader of recorded logs: the calls of their lines with the replies that were logged, or
//! what is wrong with a line.
#![tactic(auto)]

pub mod line_reader;
pub mod line_source;
pub mod log;
pub mod log_fault;
pub mod log_line;
pub mod reply_words;
pub mod round_trip;
pub mod time_out;
mod timed_call;

pub use crate::line_reader::{LINE_LIMIT, LineReader};
pub use crate::line_source::{LineSource, LogStep, ReadError, StepError, TextLines, next_step};
pub use crate::log::{
    FaultyLine, LogError, LogForm, LoggedEntry, ModuleLog, PartitionLog, next_entry, read_log,
};
pub use crate::log_fault::LogFault;
pub use crate::log_line::{
    ANY_ENTRY, before_note, ends_calls, read_log_line, read_partition_log_line, sides_of,
};
pub use crate::reply_words::read_reply;
pub use crate::round_trip::reads_back;
pub use crate::time_out::{MaxWait, TimeOut};
