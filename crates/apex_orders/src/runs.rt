//! What workers try beside each other.
ghost use Rattle.std.specs.Prelude.{◌≡◌, ◌<◌, ◌≤◌, ℕ, length, slice_get, slice_index_or, Some, OnOk, IsTrue, is_err, false};
ghost use Rattle.apex_orders.specs.Searching.{IsSearch};
ghost use Rattle.apex_orders.specs.Workers.{AreUnderTrial, CanAllTry, CanRun, HasRun, HaveInOrder, HaveTriedAll, IsShared};
ghost use Rattle.apex_orders.specs.declared.worker.Worker.{Worker};

use crate::search::Search;
use crate::shared::Shared;
use crate::threads::for_each_mut;
use crate::worker::Worker;
use apex_module::Config;
use apex_ports::Script;
use apex_types::OutOfMemory;
use std::alloc::Global;
use std::sync::atomic::AtomicUsize;
use std::thread::Threads;

/// Each worker tries the next of `parts` equal parts of its points; if it `stops`, and has many, only until one of them has
/// ended. `ended` becomes the number of the one that ends last, counted from 1. Those that are not `short` run in threads of
/// their own.
pub(crate) fn try_all<R: Threads + Sync>(
    rt: &R,
    alloc: Global,
    config: &Config,
    scripts: &[Script],
    clock: bool,
    short: &[bool],
    parts: usize,
    stops: bool,
    ended: &AtomicUsize,
    workers: &mut [Worker],
    current: &Search,
) -> Result<(), OutOfMemory>
    requires valid { IsSearch clock config.now scripts.now current.now }
    requires given { AreUnderTrial clock config.now scripts.now current.now workers.old }
    ensures given { OnOk result (AreUnderTrial clock config.now scripts.now
        current.now workers.new) }
    ensures workers { OnOk result (CanAllTry config.now workers.new) }
    ensures count { length workers.new ≡ length workers.old }
    ensures points { OnOk result ((from to : ℕ) → HaveInOrder from to workers.old
        → HaveInOrder from to workers.new) }
    ensures all { OnOk result (stops ≡ false → parts ≤ 1 → HaveTriedAll workers.new) }
{
    let shared = Shared {
        alloc,
        config,
        scripts,
        clock,
        uses: current.uses.as_slice(),
        from: current.from.as_slice(),
        known: &current.replies,
        stops,
        ended,
    };
    run_all(rt, short, &shared, parts, workers);
    if !have_run(workers) {
        return Err(OutOfMemory);
    }
    Ok(())
}

/// Runs the workers, those that are not `short` in threads of their own.
fn run_all<R: Threads + Sync>(
    rt: &R,
    short: &[bool],
    shared: &Shared<'_>,
    parts: usize,
    workers: &mut [Worker],
)
    requires shared { IsShared shared.now }
    requires workers { (k : ℕ) (worker : Worker) → slice_get workers.old k ≡ Some worker
        → CanRun shared.now worker }
    ensures count { length workers.new ≡ length workers.old }
    ensures ran { (k : ℕ) (d : Worker) → k < length workers.old → HasRun shared.now parts
        (slice_index_or workers.old k d) (slice_index_or workers.new k d) }
{
    for_each_mut(
        rt,
        workers,
        short,
        &|k, worker| worker.run(shared, k, parts),
    );
}

/// Whether there was memory for what the workers tried.
fn have_run(workers: &[Worker]) -> bool
    ensures { IsTrue result → (k : ℕ) (worker : Worker) → slice_get workers.now k ≡ Some worker
        → is_err worker.result ≡ false }
{
    for k in 0..workers.len() {
        if workers[k].result.is_err() {
            return false;
        }
    }
    true
}
