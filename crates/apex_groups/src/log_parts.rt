//! The logs of one group.
ghost use Rattle.std.specs.Prelude.{◌≡◌, ◌++◌, ℕ, [], length, filter, replicate, IfOk, OnOk};
ghost use Rattle.apex_groups.specs.Groups.{in_group};
ghost use Rattle.apex_groups.specs.LogParts.{IsAnswerOf};

use crate::exchanging::exchange;
use crate::groups::Groups;
use apex_log_orders::{Answer, CallPlace, OwnLog, Progress, find_order_with_progress};
use apex_module::Config;
use apex_types::OutOfMemory;
use std::alloc::{AllocError, Global};

/// `count` empty logs.
fn no_logs(alloc: Global, count: usize) -> Result<Vec<OwnLog>, AllocError>
    ensures { IfOk result (λ logs. logs.items ≡ replicate count []) }
{
    let mut logs = Vec::with_capacity(alloc, count)?;
    for _ in 0..count {
        logs.push(OwnLog {
            entries: Vec::new(alloc),
        })?;
    }
    Ok(logs)
}

/// Searches for an order of the logs of one group's partitions, and leaves the logs as they were.
pub(crate) fn find_order_of<P: Progress>(
    alloc: Global,
    config: &Config,
    groups: &Groups,
    group: usize,
    logs: &mut [OwnLog],
    steps: u64,
    memory: usize,
    progress: &mut P,
) -> Result<Answer, OutOfMemory>
    requires { length logs.old ≡ length config.now.partitions }
    ensures logs { logs.new ≡ logs.old }
    ensures answer { IfOk result
        (IsAnswerOf config.now (in_group groups.now.of_partitions.items group) logs.old) }
{
    let mut part = no_logs(alloc, config.partitions())?;
    let part = part.as_mut_slice();
    exchange(groups, group, logs, part);
    let answer = find_order_with_progress(alloc, config, part, steps, memory, progress);
    exchange(groups, group, logs, part);
    answer
}

/// Adds the places of the group's partitions.
pub(crate) fn add_places(
    all: &mut Vec<CallPlace>,
    places: &[CallPlace],
    groups: &Groups,
    group: usize,
) -> Result<(), AllocError>
    ensures { OnOk result (all.new.items ≡ all.old.items ++ filter
        (λ place. in_group groups.now.of_partitions.items group place.partition) places.now) }
{
    for place in places {
        if groups.of_partition(place.partition) == group {
            all.push(*place)?;
        }
    }
    Ok(())
}
