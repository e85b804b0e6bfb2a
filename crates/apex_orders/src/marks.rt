//! Which of the points that a worker found were found by a worker before it, too.
ghost use Rattle.std.specs.Prelude.{◌≡◌, ◌<◌, ◌≤◌, length, slice_get, Some, IfOk, OnOk, IsTrue, ◌↔◌};
ghost use Rattle.apex_orders.specs.Hashes.{hash_of};
ghost use Rattle.apex_orders.specs.Known.{IsTrialOf};
ghost use Rattle.apex_orders.specs.Workers.{AreHashed, CanAllMark, HasPoint};
ghost use Rattle.apex_orders.specs.Marks.{AreAllHashed, AreAllMarked, AreMarks, HasHashes, IsFoundBefore};
ghost use Rattle.apex_orders.specs.declared.found_point.FoundPoint.{FoundPoint};

use crate::found_point::{FoundPoint, has_found};
use crate::threads::for_each_mut;
use crate::trial::Trial;
use crate::worker::Worker;
use apex_module::Config;
use apex_types::OutOfMemory;
use std::alloc::Global;
use std::thread::Threads;

/// For each point that a worker found, whether a worker before it found it, too.
#[derive(Drop)]
pub(crate) struct Marks {
    pub(crate) known: Vec<bool>,
    /// Whether all are marked.
    pub(crate) result: Result<(), OutOfMemory>,
    /// Last and large, so that what threads write often is not side by side.
    pub(crate) trial: Trial,
}

impl Marks {
    /// No marks.
    pub(crate) fn new(alloc: Global, config: &Config) -> Result<Marks, OutOfMemory>
        ensures { IfOk result (λ marks. IsTrialOf config.now marks.trial) }
    {
        let trial = Trial::new(alloc, config)?;
        Ok(Marks {
            known: Vec::new(alloc),
            result: Ok(()),
            trial,
        })
    }

    /// Marks the points that the worker at the index found.
    pub(crate) fn mark(&mut self, config: &Config, workers: &[Worker], k: usize)
        requires trial { IsTrialOf config.now self.old.trial }
        requires hashed { AreAllHashed config.now workers.now }
        requires index { k < length workers.now }
        ensures trial { IsTrialOf config.now self.new.trial }
        ensures marks { OnOk self.new.result
            (AreMarks workers.now k self.new.known.items) }
    {
        self.result = self.mark_all(config, workers, k);
    }

    fn mark_all(&mut self, config: &Config, workers: &[Worker], k: usize) -> Result<(), OutOfMemory>
        requires trial { IsTrialOf config.now self.old.trial }
        requires hashed { AreAllHashed config.now workers.now }
        requires index { k < length workers.now }
        ensures trial { IsTrialOf config.now self.new.trial }
        ensures marks { OnOk result (AreMarks workers.now k self.new.known.items) }
    {
        self.known.clear();
        let worker = &workers[k];
        for j in 0..worker.found.len() {
            let is_known = is_known_at(config, workers, k, worker, j, &mut self.trial);
            self.known.push(is_known)?;
        }
        Ok(())
    }
}

/// Whether one of the workers before the index found the point that the worker found at `j`.
fn is_known_at(
    config: &Config,
    workers: &[Worker],
    k: usize,
    worker: &Worker,
    j: usize,
    trial: &mut Trial,
) -> bool
    requires trial { IsTrialOf config.now trial.old }
    requires hashed { AreAllHashed config.now workers.now }
    requires own { HasHashes config.now worker.now }
    requires index { k ≤ length workers.now }
    ensures found { (one : FoundPoint) → slice_get worker.now.found.items j ≡ Some one
        → (IsTrue result ↔ IsFoundBefore workers.now k one) }
    ensures trial { IsTrialOf config.now trial.new }
{
    match worker.found.get(j) {
        None => false,
        Some(one) => is_found_before(config, workers, k, one, trial),
    }
}

/// Whether one of the workers before the index found the point.
fn is_found_before(
    config: &Config,
    workers: &[Worker],
    k: usize,
    one: &FoundPoint,
    trial: &mut Trial,
) -> bool
    requires trial { IsTrialOf config.now trial.old }
    requires hashed { AreAllHashed config.now workers.now }
    requires index { k ≤ length workers.now }
    requires hash { one.now.hash ≡ hash_of config.now one.now.saved.history }
    requires configured { one.now.saved.config ≡ config.now }
    ensures found { IsTrue result ↔ IsFoundBefore workers.now k one.now }
    ensures trial { IsTrialOf config.now trial.new }
{
    for i in 0..k {
        if has_point(config, &workers[i], one, trial) {
            return true;
        }
    }
    false
}

/// Whether the worker found the point.
fn has_point(config: &Config, worker: &Worker, one: &FoundPoint, trial: &mut Trial) -> bool
    requires trial { IsTrialOf config.now trial.old }
    requires hashed { AreHashed config.now worker.now.found.items worker.now.hashes }
    requires hash { one.now.hash ≡ hash_of config.now one.now.saved.history }
    requires configured { one.now.saved.config ≡ config.now }
    ensures found { IsTrue result ↔ HasPoint worker.now.found.items one.now.saved }
    ensures trial { IsTrialOf config.now trial.new }
{
    if worker.hashes.up_to_last(one.hash) == 0 {
        return false;
    }
    trial.ports.restore(&one.saved);
    has_found(&worker.found, &worker.hashes, &one.saved, trial, one.hash)
}

/// Marks what several workers found, for those that are not `short` in threads of their own.
pub(crate) fn mark_all<R: Threads + Sync>(
    rt: &R,
    short: &[bool],
    config: &Config,
    workers: &[Worker],
    marks: &mut [Marks],
) -> Result<(), OutOfMemory>
    requires hashed { AreAllHashed config.now workers.now }
    requires marks { CanAllMark config.now marks.old }
    requires each { length marks.old ≡ length workers.now }
    ensures marks { OnOk result (CanAllMark config.now marks.new) }
    ensures each { OnOk result (length marks.new ≡ length marks.old) }
    ensures marked { OnOk result (AreAllMarked workers.now marks.new) }
{
    for_each_mut(
        rt,
        marks,
        short,
        &|k: usize, one: &mut Marks|
            requires { IsTrialOf config.now one.old.trial × AreAllHashed config.now workers.now
                × (k < length workers.now) }
            ensures { IsTrialOf config.entry.now one.new.trial
                × OnOk one.new.result (AreMarks workers.entry.now k one.new.known.items) }
        { one.mark(config, workers, k) },
    );
    for k in 0..marks.len() {
        if marks[k].result.is_err() {
            return Err(OutOfMemory);
        }
    }
    Ok(())
}
