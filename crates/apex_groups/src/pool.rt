//! What threads that search parts beside each other share.
use apex_orders::Progress;
use std::sync::atomic::{AtomicU64, Ordering};

/// How many states the threads find together before they wait for each other.
const ENOUGH: u64 = 500_000;

/// The next part, and how far the threads are together.
#[derive(Drop)]
pub(crate) struct Pool {
    /// The number of parts.
    parts: usize,
    /// How often a thread took a part, or tried to.
    taken: AtomicU64,
    /// How many parts were not taken when the threads began.
    before: Option<usize>,
    /// How many states they have found since they began.
    states: AtomicU64,
}

impl Pool {
    /// No part is taken.
    pub(crate) fn new(parts: usize) -> Pool {
        Pool {
            parts,
            taken: AtomicU64::new(0),
            before: None,
            states: AtomicU64::new(0),
        }
    }

    /// The threads begin again. Returns whether they took a part since they began last, or never began.
    pub(crate) fn begin(&mut self) -> bool {
        let left = Some(self.left());
        let is_new = left != self.before;
        self.before = left;
        self.states.store(0, Ordering::Relaxed);
        is_new
    }

    /// The next part, which is taken.
    pub(crate) fn next_part(&self) -> Option<usize> {
        if self.left() == 0 {
            return None;
        }
        let k = self.taken.fetch_add(1, Ordering::Relaxed) as usize;
        if k < self.parts { Some(k) } else { None }
    }

    /// How many parts are not taken.
    pub(crate) fn left(&self) -> usize {
        let taken = self.taken.load(Ordering::Relaxed) as usize;
        self.parts.saturating_sub(taken)
    }

    /// The threads have found enough.
    pub(crate) fn end(&self) {
        self.states.fetch_add(ENOUGH, Ordering::Relaxed);
    }

    /// A limit for a search in one of the threads.
    pub(crate) fn limit(&self) -> Limit<'_> {
        Limit {
            pool: self,
            states: None,
            has_ended: false,
        }
    }
}

/// Ends a search when the threads have found enough states together.
#[derive(Clone, Copy)]
pub(crate) struct Limit<'a> {
    pool: &'a Pool,
    /// How many states the search had found at its last report.
    states: Option<usize>,
    /// Whether it has ended the search.
    has_ended: bool,
}

impl Limit<'_> {
    /// Whether the search is not complete though the limit did not end it.
    pub(crate) fn has_lost(&self, is_complete: bool) -> bool {
        !is_complete && !self.has_ended
    }
}

impl Progress for Limit<'_> {
    ghost CanStop = { Unit {0} };

    fn begin(&mut self) {}

    fn level(&mut self, _depth: usize, states: usize, _bytes: usize) -> bool {
        let more = states.saturating_sub(self.states.unwrap_or(states)) as u64;
        self.states = Some(states);
        let before = self.pool.states.fetch_add(more, Ordering::Relaxed);
        self.has_ended = before.saturating_add(more) > ENOUGH;
        !self.has_ended
    }
}
