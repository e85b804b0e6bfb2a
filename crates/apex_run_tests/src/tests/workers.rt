//! Runs with real threads: worked examples, orders forced by gates, many runs, and refused memory.
mod gates;
mod locked;
mod observers;
mod orders;
mod refused_memory;
mod refusing_board;
mod rings;
mod runs;
pub(crate) mod runs_left;
mod steps;
mod threads;
mod turns;
