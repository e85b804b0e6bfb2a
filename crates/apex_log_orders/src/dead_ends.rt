//! The dead ends of a search, kept so that none is searched again.
ghost use Rattle.std.specs.Prelude.{IfOk, IsTrue};
ghost use Rattle.apex_log_orders.specs.DeadEnds.{AreDead, HasKey};
ghost use Rattle.apex_log_orders.specs.LogOrders.{Logs};
ghost use Rattle.apex_log_orders.specs.Walking.{Ends, IsWalk};

use crate::answer::OwnLog;
use crate::walk::Walk;
use apex_module::Config;
use std::alloc::{AllocError, Global};
use std::collections::BTreeSet;

/// The memory that a dead end takes besides its numbers, in bytes: its place in the set, and the allocator's part.
const PLACE: usize = 64;

/// The dead ends met so far, each as the key of the calls made there: the number of calls of each partition, and the
/// number of messages that wait on each channel. All that is to come depends only on these numbers.
#[derive(Drop)]
pub(crate) struct DeadEnds {
    pub(crate) keys: BTreeSet<Vec<usize>>,
    /// The number of dead ends that the memory has room for.
    room: usize,
    alloc: Global,
}

impl DeadEnds {
    /// No dead ends yet. Those to come may take this many bytes.
    pub(crate) fn new(alloc: Global, config: &Config, memory: usize) -> DeadEnds
        ensures { (logs : Logs) → AreDead config.now logs result.keys }
    {
        let size = numbers_of(config).saturating_mul(8).saturating_add(PLACE);
        DeadEnds {
            keys: BTreeSet::new(alloc),
            room: memory / size,
            alloc,
        }
    }

    /// Whether the calls made so far lead to a dead end that was met before.
    pub(crate) fn has(&self, config: &Config, logs: &[OwnLog], walk: &Walk) -> bool
        requires walk { IsWalk config.now logs.now walk.now }
        requires dead { AreDead config.now logs.now self.now.keys }
        ensures { IsTrue result → ¬ Ends config.now logs.now walk.now.judge.log }
    {
        if self.keys.is_empty() {
            return false;
        }
        match key_of(self.alloc, config, logs, walk) {
            Ok(key) => self.keys.contains(key.as_slice()),
            Err(AllocError) => false,
        }
    }

    /// Adds the end of the calls made so far. If there is no memory for it, nothing changes.
    pub(crate) fn add(&mut self, config: &Config, logs: &[OwnLog], walk: &Walk)
        requires walk { IsWalk config.now logs.now walk.now }
        requires dead { AreDead config.now logs.now self.old.keys }
        requires none { ¬ Ends config.now logs.now walk.now.judge.log }
        ensures { AreDead config.now logs.now self.new.keys }
    {
        if self.keys.len() >= self.room {
            return;
        }
        if let Ok(key) = key_of(self.alloc, config, logs, walk) {
            let _ = self.keys.insert(key);
        }
    }
}

/// How many numbers a key has.
fn numbers_of(config: &Config) -> usize {
    config.partitions().saturating_add(config.channels())
}

/// The key of the calls made so far.
fn key_of(
    alloc: Global,
    config: &Config,
    logs: &[OwnLog],
    walk: &Walk,
) -> Result<Vec<usize>, AllocError>
    requires { IsWalk config.now logs.now walk.now }
    ensures { IfOk result (λ key. HasKey config.now walk.now.judge.log key.items) }
{
    let mut key = Vec::with_capacity(alloc, numbers_of(config))?;
    key.extend_from_slice(walk.made.as_slice())?;
    for channel in 0..config.channels() {
        key.push(walk.judge.waiting_count(channel))?;
    }
    Ok(key)
}
