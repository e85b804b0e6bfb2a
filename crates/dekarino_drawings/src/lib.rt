//! The drawings: a module with its channels, and the calls of a trace in their order, with an arrow from the sending of
//! each message to the call that showed it. The arrows are proved; the layout of a drawing isn't.
#![tactic(auto)]

pub mod arrow;
mod arrows;
mod call_text;
mod channel_calls;
mod channels;
pub mod chart;
pub mod chart_drawing;
pub mod fault;
mod frame;
mod legend;
pub mod module_drawing;
mod reading;
pub mod svg;

pub use crate::arrow::Arrow;
pub use crate::chart::{CALL_LIMIT, Chart};
pub use crate::chart_drawing::draw_chart;
pub use crate::fault::DrawingFault;
pub use crate::module_drawing::draw_module;
pub use crate::reading::read_chart;
pub use crate::svg::escaped;
