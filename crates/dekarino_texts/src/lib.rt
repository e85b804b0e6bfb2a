//! What `dekarino` says about configurations, traces, logs and scripts. A walk decides what there is to say and hands it to a
//! sink, and a sink puts it in words: those of a text are here. The data is proved, and the words are tested.
#![tactic(auto)]

pub mod counted;
pub mod counts;
pub mod departure_text;
pub mod departures;
pub mod explanation;
pub mod explanation_text;
pub mod judged_lines;
mod notes;
pub mod outcome_text;
pub mod outcomes;
mod port_notes;
pub mod remark;
pub mod remark_words;
mod remarks;
pub mod run_explanation;
pub mod script_lines;
pub mod standard_reply;
pub mod table;
pub mod table_words;
pub mod written_departures;

pub use crate::counted::Counted;
pub use crate::counts::{Counts, Ranges, ranges_of};
pub use crate::departure_text::{DepartureText, named_by, push_conflict, push_time_out};
pub use crate::departures::{DepartureCounts, DepartureSink, LogPlace, Reading, SinkError};
pub use crate::explanation::{
    AnsweredCall, Explained, Explanation, ExplanationSink, explain_trace,
};
pub use crate::explanation_text::ExplanationText;
pub use crate::judged_lines::{JudgeError, judge_lines};
pub use crate::outcome_text::OutcomeText;
pub use crate::outcomes::{OutcomeSink, is_to, line_at, numbers_of, replies_of, walk_outcomes};
pub use crate::remark::Remark;
pub use crate::remark_words::{Hex, MESSAGES_SHOWN, RemarkWords, channel_called, destination_of};
pub use crate::run_explanation::explain_run;
pub use crate::script_lines::{LineNumbers, call_lines};
pub use crate::standard_reply::{Conflict, StandardReply, conflict_of};
pub use crate::table::{PortPlace, TableRow, port_table};
pub use crate::table_words::{direction_word, kind_word, partition_name, table_text};
pub use crate::written_departures::{DepartureWords, WrittenDepartures};
