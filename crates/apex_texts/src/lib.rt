//! The texts of the simulator: it reads traces and scripts, writes the lines of reports and of faults, and a replay
//! does both.
#![tactic(auto)]

pub mod arguments;
mod check;
pub mod expected;
pub mod fault;
pub mod line_fault;
pub mod lines;
pub mod replay;
pub mod report_text;
pub mod script;
pub mod service;
pub mod text;
pub mod trace;

pub use crate::check::check_line;
pub use crate::expected::Expected;
pub use crate::fault::{Fault, TraceFault};
pub use crate::line_fault::LineFault;
pub use crate::replay::{replay_text, replay_trace};
pub use crate::report_text::{push_entry, push_reply, push_totals};
pub use crate::script::{read_script, read_script_line};
pub use crate::service::{SERVICES, Service};
pub use crate::text::next_line;
pub use crate::trace::{ANY_REQUEST, read_trace, read_trace_line};
pub use apex_ports::Script;
