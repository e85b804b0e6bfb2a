//! Half of what the slowest worker has yet to try goes to a worker that has nothing.
ghost use Rattle.std.specs.Prelude.{◌≡◌, ◌+◌, ℕ, length, OnOk};
ghost use Rattle.apex_orders.specs.Known.{IsTrialOf};
ghost use Rattle.apex_orders.specs.Searching.{IsSearch};
ghost use Rattle.apex_orders.specs.Workers.{AreUnderTrial, HaveInOrder, IsRange, IsUnderTrial, reach};

use crate::search::Search;
use crate::shares::POINTS_SHARED;
use crate::worker::Worker;
use apex_module::Config;
use apex_ports::Script;
use apex_types::OutOfMemory;

/// The index of the worker that has the most points left, or of the last one to end if none has any.
pub(crate) fn slowest_of(workers: &[Worker], last: usize) -> usize {
    let mut slowest = last;
    let mut most = 0;
    for k in 0..workers.len() {
        let left = workers[k].points.len();
        if left > most {
            slowest = k;
            most = left;
        }
    }
    slowest
}

/// Gives half of what the worker at the index has yet to try to the last worker, which then stands behind it. Does nothing if
/// that worker was given points, too, or if there are few to share.
pub(crate) fn halve_at(
    config: &Config,
    scripts: &[Script],
    clock: bool,
    current: &Search,
    workers: &mut Vec<Worker>,
    k: usize,
) -> Result<(), OutOfMemory>
    requires valid { IsSearch clock config.now scripts.now current.now }
    requires given { AreUnderTrial clock config.now scripts.now current.now workers.old.items }
    ensures given { OnOk result
        (AreUnderTrial clock config.now scripts.now current.now workers.new.items) }
    ensures points { OnOk result ((from to : ℕ) → HaveInOrder from to workers.old.items
        → HaveInOrder from to workers.new.items) }
    ensures count { OnOk result (length workers.new.items ≡ length workers.old.items) }
{
    let Some(mut other) = workers.pop() else {
        return Ok(());
    };
    if k >= workers.len() || workers[k].points.len() < POINTS_SHARED || !other.is_idle() {
        workers.push(other)?;
        return Ok(());
    }
    let all = workers.as_mut_slice();
    halve(config, scripts, clock, current, &mut all[k], &mut other)?;
    workers.insert(k + 1, other)?;
    Ok(())
}

/// Gives the second half of what the worker has yet to try to another one.
fn halve(
    config: &Config,
    scripts: &[Script],
    clock: bool,
    current: &Search,
    worker: &mut Worker,
    other: &mut Worker,
) -> Result<(), OutOfMemory>
    requires valid { IsSearch clock config.now scripts.now current.now }
    requires given { IsUnderTrial clock config.now scripts.now current.now worker.old }
    requires other { IsTrialOf config.now other.old.trial }
    ensures first { OnOk result
        (IsUnderTrial clock config.now scripts.now current.now worker.new) }
    ensures second { OnOk result
        (IsUnderTrial clock config.now scripts.now current.now other.new) }
    ensures kept { OnOk result (IsRange worker.old.first other.new.first worker.new) }
    ensures rest { OnOk result
        (IsRange other.new.first (worker.old.first + reach worker.old) other.new) }
{
    let kept = worker.points.len() / 2;
    let rest = worker.points.split_off(kept)?;
    let bytes = worker.bytes / 2;
    worker.bytes -= bytes;
    let first = worker.first + worker.tried + kept;
    other.start(&current.orders, first, rest, bytes);
    Ok(())
}
