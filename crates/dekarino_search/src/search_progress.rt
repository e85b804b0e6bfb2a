//! Showing how far searches are, and ending them at their limits.
use crate::bound::Bound;
use crate::progress::{Progress, Reached};
use dekarino_command_line::SearchLimits;
use std::time::Instant;

/// Shows how far a search is, and ends it at its limits. If the clock can't be read, the time is not limited.
#[derive(Drop)]
pub(crate) struct SearchProgress<'a, P> {
    progress: &'a mut P,
    limits: SearchLimits,
    /// When the search began.
    began: Option<Instant>,
    /// The limit that a search met last.
    met: Option<Bound>,
}

impl<'a, P: Progress> SearchProgress<'a, P> {
    /// No search has begun.
    pub(crate) fn new(progress: &'a mut P, limits: SearchLimits) -> SearchProgress<'a, P> {
        SearchProgress {
            progress,
            limits,
            began: None,
            met: None,
        }
    }

    /// The greatest number of states that a search may find.
    pub(crate) fn states(&self) -> usize {
        self.limits.states.unwrap_or(usize::MAX)
    }

    /// The bound at which a search was ended.
    pub(crate) fn bound(&self) -> Bound {
        self.met.unwrap_or(Bound::Seconds(self.limits.seconds))
    }

    fn start(&mut self) {
        self.began = self.progress.now();
    }

    /// Whether the search that keeps this many bytes is within its limits.
    fn is_within(&mut self, bytes: usize) -> bool {
        if bytes > self.limits.bytes() {
            self.met = Some(Bound::Memory(self.limits.memory));
            return false;
        }
        if self.is_over_time() {
            self.met = Some(Bound::Seconds(self.limits.seconds));
            return false;
        }
        true
    }

    fn is_over_time(&self) -> bool {
        match (self.began, self.progress.now()) {
            (Some(began), Some(now)) => {
                now.duration_since(began).as_secs() >= self.limits.seconds as u64
            }
            _ => false,
        }
    }
}

impl<P: Progress> apex_log_orders::Progress for SearchProgress<'_, P> {
    fn begin(&mut self) {
        self.start();
    }

    fn searched(&mut self, placed: usize, dead_ends: u64) -> bool {
        self.progress.show(Reached::Calls { placed, dead_ends });
        self.is_within(0)
    }
}

impl<P: Progress> apex_orders::Progress for SearchProgress<'_, P> {
    ghost CanStop = { Unit {0} };

    fn begin(&mut self) {
        self.start();
    }

    fn level(&mut self, depth: usize, states: usize, bytes: usize) -> bool {
        self.progress.show(Reached::States {
            found: states,
            depth,
        });
        self.is_within(bytes)
    }
}
