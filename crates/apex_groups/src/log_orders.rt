//! The search for an order, group by group.
ghost use Rattle.std.specs.Prelude.{◌≡◌, length, IfOk};
ghost use Rattle.apex_groups.specs.Prelude.{IsAnswer};
ghost use Rattle.apex_groups.specs.Groups.{AreApart};

use crate::groups::Groups;
use crate::log_parts::{add_places, find_order_of};
use apex_log_orders::{Answer, OwnLog, Progress, find_order_with_progress};
use apex_module::Config;
use apex_types::OutOfMemory;
use std::alloc::Global;

/// Searches for an order of all entries of the logs as `find_order` does, but searches each group of partitions that
/// share no channel with the others by itself, and puts the groups' orders one after another. Each group may take
/// `steps` steps, and `memory` bytes for dead ends. The logs change only while a group is searched. `progress` receives
/// from time to time how far the search of a group is, and may end it.
pub fn find_order_apart<P: Progress>(
    alloc: Global,
    config: &Config,
    logs: &mut [OwnLog],
    steps: u64,
    memory: usize,
    progress: &mut P,
) -> Result<Answer, OutOfMemory>
    requires { length logs.old ≡ length config.now.partitions }
    ensures same { logs.new ≡ logs.old }
    ensures answer { IfOk result (λ answer. IsAnswer config.now logs.old answer) }
{
    let groups = Groups::new(alloc, config)?;
    if !groups.are_one() && groups.are_apart(config) {
        return find_by_groups(alloc, config, &groups, logs, steps, memory, progress);
    }
    find_order_with_progress(alloc, config, logs, steps, memory, progress)
}

/// Searches one group after the other.
fn find_by_groups<P: Progress>(
    alloc: Global,
    config: &Config,
    groups: &Groups,
    logs: &mut [OwnLog],
    steps: u64,
    memory: usize,
    progress: &mut P,
) -> Result<Answer, OutOfMemory>
    requires count { length logs.old ≡ length config.now.partitions }
    requires apart { AreApart config.now groups.now.of_partitions.items }
    ensures same { logs.new ≡ logs.old }
    ensures answer { IfOk result (λ answer. IsAnswer config.now logs.old answer) }
{
    let mut all = Vec::new(alloc);
    let mut is_whole = true;
    for group in 0..config.partitions() {
        if !groups.have(config, group) {
            continue;
        }
        match find_order_of(alloc, config, groups, group, logs, steps, memory, progress)? {
            Answer::Order(order) => add_places(&mut all, order.as_slice(), groups, group)?,
            Answer::NoOrder(longest) => {
                add_places(&mut all, longest.as_slice(), groups, group)?;
                return Ok(Answer::NoOrder(all));
            }
            Answer::Undecided(longest) => {
                add_places(&mut all, longest.as_slice(), groups, group)?;
                is_whole = false;
            }
        }
    }
    if is_whole {
        Ok(Answer::Order(all))
    } else {
        Ok(Answer::Undecided(all))
    }
}
