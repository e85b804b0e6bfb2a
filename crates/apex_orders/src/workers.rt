//! The workers of a search, which run in threads beside each other if there are many points.
ghost use Rattle.std.specs.Prelude.{◌≡◌, ◌<◌, ◌≤◌, ◌+◌, ℕ, length, OnOk, false};
ghost use Rattle.apex_orders.specs.Known.{IsSameLevel, IsTrialOf};
ghost use Rattle.apex_orders.specs.Searching.{HasLevel, HasTriedFrom, IsLater, IsSearch};
ghost use Rattle.apex_orders.specs.Marks.{AreAllMarked};
ghost use Rattle.apex_orders.specs.Workers.{AreUnderTrial, AreWorkers, CanAllTry, HasGivenAll, HaveInOrder, HaveTriedAll};

use crate::halving::{halve_at, slowest_of};
use crate::marks::{Marks, mark_all};
use crate::orders::Orders;
use crate::runs::try_all;
use crate::search::Search;
use crate::shares::{FIRST_WEIGHT, lighten, share_of, share_out};
use crate::threads::for_each_mut;
use crate::worker::Worker;
use apex_module::Config;
use apex_ports::{SavedPorts, Script};
use apex_types::OutOfMemory;
use std::alloc::Global;
use std::collections::VecDeque;
use std::sync::atomic::{AtomicUsize, Ordering};
use std::thread;
use std::thread::Threads;

/// For how many points a thread is worth its start.
const POINTS_EACH: usize = 128;

/// The most threads that share points: the more there are, the longer they wait for the one that adds what all found.
const MOST_THREADS: usize = 8;

/// Trying a point costs about as much as its saved bytes and this many more.
const WORK_EACH: usize = 1_000;

/// How much work one worker does before the search tells how far it is: about a sixtieth of a second.
const WORK_ALONE: usize = 8_000_000;

/// How much several workers do, which wait for each other afterwards: about an eighth of a second of two.
const WORK_TOGETHER: usize = 128_000_000;

/// The workers that a search has made.
#[derive(Drop)]
pub(crate) struct Workers {
    pub(crate) all: Vec<Worker>,
    /// For each worker the marks of what it finds.
    pub(crate) marks: Vec<Marks>,
    /// For each worker how much of a level it is given, compared with the others; the last of several is given nothing.
    pub(crate) weights: Vec<usize>,
    /// How many threads may run beside each other, this one included.
    pub(crate) threads: usize,
}

impl Workers {
    /// No workers yet, for this thread alone.
    pub(crate) fn new(alloc: Global, config: &Config) -> Workers
        ensures { AreWorkers config.now result }
    {
        Workers {
            all: Vec::new(alloc),
            marks: Vec::new(alloc),
            weights: Vec::new(alloc),
            threads: 1,
        }
    }

    /// Lets at most `threads` threads run beside each other, as far as there are processors.
    pub(crate) fn allow<R: Threads + Sync>(&mut self, rt: &R, threads: usize)
        ensures same { self.new.all ≡ self.old.all }
        ensures marks { self.new.marks ≡ self.old.marks }
        ensures weights { self.new.weights ≡ self.old.weights }
    {
        let processors = match thread::available_parallelism(rt) {
            Ok(processors) => processors.get(),
            Err(_) => 1,
        };
        self.threads = processors.min(MOST_THREADS).min(threads).max(1);
    }

    /// Gives out all points from which the search has yet to continue, to several workers if there are many points and
    /// several processors.
    pub(crate) fn give(
        &mut self,
        alloc: Global,
        config: &Config,
        scripts: &[Script],
        clock: bool,
        current: &mut Search,
    ) -> Result<(), OutOfMemory>
        requires workers { AreWorkers config.now self.old }
        requires valid { IsSearch clock config.now scripts.now current.old }
        requires whole { HasLevel current.old }
        ensures workers { OnOk result (AreWorkers config.now self.new) }
        ensures same { OnOk result (HasGivenAll current.old current.new) }
        ensures valid { OnOk result (IsSearch clock config.now scripts.now current.new) }
        ensures given { OnOk result (AreUnderTrial clock config.now scripts.now
            current.new self.new.all.items) }
        ensures points { OnOk result (HaveInOrder
            current.old.points.first current.new.points.first self.new.all.items) }
    {
        let count = current.orders.len() - current.points.first;
        let threads = self.threads.min(count / POINTS_EACH).max(1);
        self.make(alloc, config, threads, &current.orders)?;
        let workers = self.all.as_mut_slice();
        let all = self.weights.as_slice();
        let weights = all.get(..threads).unwrap_or(all);
        give_all(config, scripts, clock, count, weights, workers, current)?;
        Ok(())
    }

    /// Each worker tries the next of `parts` equal parts of its points.
    pub(crate) fn try_next<R: Threads + Sync>(
        &mut self,
        rt: &R,
        alloc: Global,
        config: &Config,
        scripts: &[Script],
        clock: bool,
        parts: usize,
        current: &Search,
    ) -> Result<(), OutOfMemory>
        requires workers { AreWorkers config.now self.old }
        requires valid { IsSearch clock config.now scripts.now current.now }
        requires given { AreUnderTrial clock config.now scripts.now
            current.now self.old.all.items }
        ensures workers { OnOk result (AreWorkers config.now self.new) }
        ensures given { OnOk result (AreUnderTrial clock config.now scripts.now
            current.now self.new.all.items) }
        ensures points { OnOk result ((from to : ℕ) → HaveInOrder from to self.old.all.items
            → HaveInOrder from to self.new.all.items) }
        ensures all { OnOk result (parts ≤ 1 → HaveTriedAll self.new.all.items) }
    {
        self.try_until_one_ends(rt, alloc, config, scripts, clock, parts, current)?;
        let ended = AtomicUsize::new(0);
        // (what is left of one part is tried in the next)
        let stops = parts > 1;
        self.run(
            rt, alloc, config, scripts, clock, parts, stops, &ended, current,
        )?;
        Ok(())
    }

    /// If the workers are to try all that they have left, and it is much: they try it until one of them has nothing left. Then
    /// the slowest one shares its rest with the last one, which had nothing.
    fn try_until_one_ends<R: Threads + Sync>(
        &mut self,
        rt: &R,
        alloc: Global,
        config: &Config,
        scripts: &[Script],
        clock: bool,
        parts: usize,
        current: &Search,
    ) -> Result<(), OutOfMemory>
        requires workers { AreWorkers config.now self.old }
        requires valid { IsSearch clock config.now scripts.now current.now }
        requires given { AreUnderTrial clock config.now scripts.now
            current.now self.old.all.items }
        ensures workers { OnOk result (AreWorkers config.now self.new) }
        ensures given { OnOk result (AreUnderTrial clock config.now scripts.now
            current.now self.new.all.items) }
        ensures points { OnOk result ((from to : ℕ) → HaveInOrder from to self.old.all.items
            → HaveInOrder from to self.new.all.items) }
    {
        let workers = self.at_once();
        if parts > 1 || workers <= 1 || self.left() / workers < POINTS_EACH {
            return Ok(());
        }
        let ended = AtomicUsize::new(0);
        self.run(rt, alloc, config, scripts, clock, 1, true, &ended, current)?;
        let last = ended.load(Ordering::Relaxed);
        let slowest = slowest_of(self.all.as_slice(), last.saturating_sub(1));
        lighten(self.weights.as_mut_slice(), slowest);
        halve_at(config, scripts, clock, current, &mut self.all, slowest)?;
        Ok(())
    }

    /// Each worker tries the next of `parts` equal parts of its points; if it `stops`, and has many, only until one of them has
    /// ended.
    fn run<R: Threads + Sync>(
        &mut self,
        rt: &R,
        alloc: Global,
        config: &Config,
        scripts: &[Script],
        clock: bool,
        parts: usize,
        stops: bool,
        ended: &AtomicUsize,
        current: &Search,
    ) -> Result<(), OutOfMemory>
        requires workers { AreWorkers config.now self.old }
        requires valid { IsSearch clock config.now scripts.now current.now }
        requires given { AreUnderTrial clock config.now scripts.now
            current.now self.old.all.items }
        ensures workers { OnOk result (AreWorkers config.now self.new) }
        ensures given { OnOk result (AreUnderTrial clock config.now scripts.now
            current.now self.new.all.items) }
        ensures points { OnOk result ((from to : ℕ) → HaveInOrder from to self.old.all.items
            → HaveInOrder from to self.new.all.items) }
        ensures all { OnOk result (stops ≡ false → parts ≤ 1
            → HaveTriedAll self.new.all.items) }
    {
        let mut short = Vec::new(alloc);
        let mut taken = 0;
        for worker in self.all.as_slice() {
            short.push(is_short(worker.points.len(), self.threads, &mut taken))?;
        }
        let workers = self.all.as_mut_slice();
        let short = short.as_slice();
        try_all(
            rt, alloc, config, scripts, clock, short, parts, stops, ended, workers, current,
        )?;
        Ok(())
    }

    /// Adds what the workers found when they tried all of their points.
    pub(crate) fn finish<R: Threads + Sync>(
        &mut self,
        rt: &R,
        alloc: Global,
        config: &Config,
        scripts: &[Script],
        clock: bool,
        current: &mut Search,
    ) -> Result<(), OutOfMemory>
        requires workers { AreWorkers config.now self.old }
        requires valid { IsSearch clock config.now scripts.now current.old }
        requires whole { HasLevel current.old }
        requires given { AreUnderTrial clock config.now scripts.now
            current.old self.old.all.items }
        requires all { HaveTriedAll self.old.all.items }
        ensures workers { OnOk result (AreWorkers config.now self.new) }
        ensures valid { OnOk result (IsSearch clock config.now scripts.now current.new) }
        ensures later { OnOk result (IsLater current.old current.new) }
        ensures level { OnOk result (IsSameLevel current.old.points current.new.points) }
        ensures tried { OnOk result ((from to : ℕ) → HaveInOrder from to self.old.all.items
            → HasTriedFrom clock config.now scripts.now
            current.new.orders current.new.replies from to) }
    {
        let mut short = Vec::new(alloc);
        let mut taken = 0;
        for worker in self.all.as_slice() {
            short.push(is_short(worker.found.len(), self.threads, &mut taken))?;
        }
        let workers = self.all.as_mut_slice();
        let marks = self.marks.as_mut_slice();
        mark_all(rt, short.as_slice(), config, workers, marks)?;
        finish_all(alloc, config, scripts, clock, workers, marks, current)?;
        Ok(())
    }

    /// How many points the workers have yet to try.
    fn left(&self) -> usize {
        let mut left: usize = 0;
        for worker in self.all.as_slice() {
            left = left.saturating_add(worker.points.len());
        }
        left
    }

    /// In how many parts the workers try what is left, so that the search can tell after each part how far it is.
    pub(crate) fn parts(&self) -> usize
        ensures { 0 < result }
    {
        let work = self
            .left()
            .saturating_mul(WORK_EACH)
            .saturating_add(self.bytes());
        if self.at_once() <= 1 {
            return work / WORK_ALONE + 1;
        }
        work / WORK_TOGETHER + 1
    }

    /// How many workers may run beside each other.
    fn at_once(&self) -> usize {
        self.threads.min(self.all.len())
    }

    /// How many points all workers have found since the search last added what they found.
    pub(crate) fn found(&self) -> usize {
        let mut found: usize = 0;
        for worker in self.all.as_slice() {
            found = found.saturating_add(worker.found.len());
        }
        found
    }

    /// About how many bytes are saved for the points that the workers have yet to try and for those that they found.
    pub(crate) fn bytes(&self) -> usize {
        let mut bytes: usize = 0;
        for worker in self.all.as_slice() {
            bytes = bytes.saturating_add(worker.bytes);
        }
        bytes
    }

    /// Frees the saved ports and those that the workers keep, a part in each thread.
    pub(crate) fn free<R: Threads + Sync>(self, rt: &R, saved: VecDeque<SavedPorts>) {
        let mut left = saved;
        let mut all = self.all;
        let workers = all.as_mut_slice();
        let threads = self.threads.min(workers.len()).min(MOST_THREADS);
        let apart = [false; MOST_THREADS];
        if left.is_empty() || share_out(&mut left, &mut workers[..threads]).is_ok() {
            for_each_mut(rt, workers, &apart[..threads], &|_, worker| worker.free());
        }
    }

    /// Makes the workers that are missing: one for each of so many threads, and a spare one if there are several.
    fn make(
        &mut self,
        alloc: Global,
        config: &Config,
        threads: usize,
        orders: &Orders,
    ) -> Result<(), OutOfMemory>
        requires { AreWorkers config.now self.old }
        ensures workers { OnOk result (AreWorkers config.now self.new) }
        ensures count { OnOk result (threads ≤ length self.new.all.items) }
    {
        for _ in self.weights.len()..threads {
            self.weights.push(FIRST_WEIGHT)?;
        }
        let more = (threads > 1) as usize;
        for _ in self.all.len()..threads.saturating_add(more) {
            self.marks.push(Marks::new(alloc, config)?)?;
            self.all.push(Worker::new(alloc, config, orders)?)?;
        }
        Ok(())
    }
}

/// Whether so many points are not worth a thread, or as many threads as may run are taken; `taken` counts them.
fn is_short(points: usize, threads: usize, taken: &mut usize) -> bool {
    if points < POINTS_EACH || *taken >= threads {
        return true;
    }
    *taken += 1;
    false
}

/// Gives each worker its share of the points, and none to those past the end of `weights`.
fn give_all(
    config: &Config,
    scripts: &[Script],
    clock: bool,
    count: usize,
    weights: &[usize],
    workers: &mut [Worker],
    current: &mut Search,
) -> Result<(), OutOfMemory>
    requires some { 0 < length workers.old }
    requires workers { CanAllTry config.now workers.old }
    requires valid { IsSearch clock config.now scripts.now current.old }
    requires all { current.old.points.first + count ≡ current.old.points.next }
    ensures same { OnOk result (HasGivenAll current.old current.new) }
    ensures valid { OnOk result (IsSearch clock config.now scripts.now current.new) }
    ensures given { OnOk result (AreUnderTrial clock config.now scripts.now
        current.new workers.new) }
    ensures points { OnOk result (HaveInOrder
        current.old.points.first current.new.points.first workers.new) }
    ensures count { length workers.new ≡ length workers.old }
{
    let mut left = count;
    for k in 0..workers.len() {
        let share = share_of(left, weights, k, workers.len());
        let worker = &mut workers[k];
        current.give(config, scripts, clock, share, worker)?;
        left -= share;
    }
    Ok(())
}

/// Adds what the workers found, in the order of their points.
fn finish_all(
    alloc: Global,
    config: &Config,
    scripts: &[Script],
    clock: bool,
    workers: &mut [Worker],
    marks: &[Marks],
    current: &mut Search,
) -> Result<(), OutOfMemory>
    requires valid { IsSearch clock config.now scripts.now current.old }
    requires whole { HasLevel current.old }
    requires each { length marks.now ≡ length workers.old }
    requires marked { AreAllMarked workers.old marks.now }
    requires given { AreUnderTrial clock config.now scripts.now current.old workers.old }
    requires all { HaveTriedAll workers.old }
    ensures valid { OnOk result (IsSearch clock config.now scripts.now current.new) }
    ensures later { OnOk result (IsLater current.old current.new) }
    ensures level { OnOk result (IsSameLevel current.old.points current.new.points) }
    ensures tried { OnOk result ((from to : ℕ) → HaveInOrder from to workers.old
        → HasTriedFrom clock config.now scripts.now
        current.new.orders current.new.replies from to) }
    ensures workers { OnOk result (CanAllTry config.now workers.new) }
    ensures count { OnOk result (length workers.new ≡ length workers.old) }
{
    for k in 0..workers.len() {
        let known = marks[k].known.as_slice();
        current.finish(alloc, config, scripts, clock, &mut workers[k], known)?;
    }
    Ok(())
}
