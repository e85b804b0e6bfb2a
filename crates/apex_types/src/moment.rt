//! Moments of simulated time.

/// A moment of simulated time, in nanoseconds. A call may have an earlier moment than the call before it.
#[derive(Clone, Copy, Debug, PartialEq, Eq, PartialOrd, Ord, Drop)]
pub struct Moment(pub u64);
