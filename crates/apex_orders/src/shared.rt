//! What all workers of a search read.
ghost use Rattle.std.specs.Prelude.{◌≡◌, false};

use crate::last_uses::LastUses;
use crate::replies::Replies;
use crate::shares::POINTS_SHARED;
use apex_module::Config;
use apex_ports::Script;
use std::alloc::Global;
use std::sync::atomic::{AtomicUsize, Ordering};

/// What all workers of a search read, from whichever thread.
#[derive(Clone, Copy)]
pub(crate) struct Shared<'a> {
    pub(crate) alloc: Global,
    pub(crate) config: &'a Config,
    pub(crate) scripts: &'a [Script],
    pub(crate) clock: bool,
    /// The last uses of channels by the scripts.
    pub(crate) uses: &'a [LastUses],
    /// The partitions whose next calls are always tried.
    pub(crate) from: &'a [usize],
    /// The replies that the search had found.
    pub(crate) known: &'a Replies,
    /// Whether a worker that has many points left ends as soon as another one has.
    pub(crate) stops: bool,
    /// The number of the worker that has ended last, counted from 1; 0 if none has.
    pub(crate) ended: &'a AtomicUsize,
}

impl Shared<'_> {
    /// Whether a worker that has so many points left is to end.
    pub(crate) fn is_over(&self, left: usize) -> bool
        ensures { self.now.stops ≡ false → result ≡ false }
    {
        self.stops && left >= POINTS_SHARED && self.ended.load(Ordering::Relaxed) > 0
    }

    /// Tells all workers that the one with this number has ended, if it has tried any points.
    pub(crate) fn tell(&self, number: usize, tried: usize) {
        if tried > 0 {
            self.ended.store(number.wrapping_add(1), Ordering::Relaxed);
        }
    }
}
