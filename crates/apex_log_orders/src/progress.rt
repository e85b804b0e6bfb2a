//! Reports of how far a search is, which may end it.

/// The number of steps that a search makes before it reports again.
const STEPS_BETWEEN_REPORTS: u64 = 65_536;

/// Receives reports of how far the search for an order is, and may end the search. No contract depends on what it does
/// with them.
pub trait Progress {
    /// A search begins. Each group of partitions that is searched by itself has a search of its own.
    fn begin(&mut self);

    /// The order that is being tried has `placed` calls now, and the search met this many dead ends before it. Returns
    /// whether the search is to go on.
    fn searched(&mut self, placed: usize, dead_ends: u64) -> bool;
}

/// Ignores all reports, and never ends a search.
#[derive(Clone, Copy, Debug)]
pub struct NoProgress;

impl Progress for NoProgress {
    fn begin(&mut self) {}

    fn searched(&mut self, _placed: usize, _dead_ends: u64) -> bool {
        true
    }
}

/// How far a search is, and when it reports next.
#[derive(Drop)]
pub(crate) struct Reports {
    /// The number of steps left at which the search reports next.
    next: u64,
    dead_ends: u64,
}

impl Reports {
    /// No reports yet: the next is before the first step.
    pub(crate) fn new(steps: u64) -> Reports {
        Reports {
            next: steps,
            dead_ends: 0,
        }
    }

    /// Counts one more dead end.
    pub(crate) fn meet_dead_end(&mut self) {
        self.dead_ends = self.dead_ends.saturating_add(1);
    }

    /// Reports how far the search is, if enough steps were made since the last report. Returns whether the search is to go
    /// on.
    pub(crate) fn goes_on<P: Progress>(
        &mut self,
        progress: &mut P,
        left: u64,
        placed: usize,
    ) -> bool {
        if left > self.next {
            return true;
        }
        self.next = left.saturating_sub(STEPS_BETWEEN_REPORTS);
        progress.searched(placed, self.dead_ends)
    }
}
