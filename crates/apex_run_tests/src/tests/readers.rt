//! Tests from outside, with values that were worked out by hand.
mod escapes;
mod log_caller;
mod replays;
mod same;
mod script_caller;
