//! Arrows between calls.

/// An arrow to the call that showed a message from the call that sent or wrote it. Calls are given by their indexes in
/// the trace's calls, from 0.
#[derive(Clone, Copy, Debug, PartialEq, Eq, Drop)]
pub struct Arrow {
    pub from: usize,
    pub to: usize,
}
