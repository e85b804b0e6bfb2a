//! The search for an order.
ghost use Rattle.std.specs.Prelude.{◌≡◌, length, IfOk, OnOk};
ghost use Rattle.apex_log_orders.specs.DeadEnds.{AreDead};
ghost use Rattle.apex_log_orders.specs.LogOrders.{IsAnswer};
ghost use Rattle.apex_log_orders.specs.Walking.{IsWalk, IsStep, IsOneOf};

use crate::advice::Advice;
use crate::answer::{Answer, CallPlace, OwnLog};
use crate::dead_ends::DeadEnds;
use crate::progress::{NoProgress, Progress, Reports};
use crate::second_search::search_again;
use crate::stuck::{have_no_clear, is_stuck};
use crate::walk::Walk;
use apex_module::Config;
use apex_types::OutOfMemory;
use std::alloc::{AllocError, Global};

/// The steps of a first search. If it decides nothing, what each channel shows is looked at.
const FIRST_STEPS: u64 = 1_000_000;

/// Searches for an order of all entries of the logs in which each reply is the reply table's. Each partition's entries
/// keep their order; their moments don't restrict the order. A step is a call that is tried, or one that is looked at
/// again because no call is advised or the search went back. The search keeps dead ends in at most `memory` bytes: beyond
/// that it goes on without keeping more.
pub fn find_order(
    alloc: Global,
    config: &Config,
    logs: &[OwnLog],
    steps: u64,
    memory: usize,
) -> Result<Answer, OutOfMemory>
    requires { length logs.now ≡ length config.now.partitions }
    ensures { IfOk result (λ answer. IsAnswer config.now logs.now answer) }
{
    find_order_with_progress(alloc, config, logs, steps, memory, &mut NoProgress)
}

/// Answers like `find_order`. `progress` receives from time to time how far the search is, and may end it.
pub fn find_order_with_progress<P: Progress>(
    alloc: Global,
    config: &Config,
    logs: &[OwnLog],
    steps: u64,
    memory: usize,
    progress: &mut P,
) -> Result<Answer, OutOfMemory>
    requires { length logs.now ≡ length config.now.partitions }
    ensures { IfOk result (λ answer. IsAnswer config.now logs.now answer) }
{
    progress.begin();
    let mut advice = Advice::new(alloc, config, logs)?;
    let few = steps.min(FIRST_STEPS);
    let first = search(alloc, config, logs, &advice, few, memory, progress)?;
    match first {
        Answer::Undecided(longest) => {
            if steps == few || !progress.searched(longest.len(), 0) {
                return Ok(Answer::Undecided(longest));
            }
            let left = steps - few;
            search_again(
                alloc,
                config,
                logs,
                &mut advice,
                left,
                memory,
                longest,
                progress,
            )
        }
        decided => Ok(decided),
    }
}

/// Searches for an order, advised which partition to try first.
pub(crate) fn search<P: Progress>(
    alloc: Global,
    config: &Config,
    logs: &[OwnLog],
    advice: &Advice,
    steps: u64,
    memory: usize,
    progress: &mut P,
) -> Result<Answer, OutOfMemory>
    requires { length logs.now ≡ length config.now.partitions }
    ensures { IfOk result (λ answer. IsAnswer config.now logs.now answer) }
{
    let mut walk = Walk::new(alloc, config, logs, advice)?;
    let mut dead_ends = DeadEnds::new(alloc, config, memory);
    let mut longest = Vec::new(alloc);
    let is_clear_free = have_no_clear(logs);
    let mut left = steps;
    let mut reports = Reports::new(steps);
    while left > 0 && reports.goes_on(progress, left, walk.path.len()) {
        left -= 1;
        if is_clear_free && !walk.follows(advice, logs) {
            left = left.saturating_sub(walk.path.len() as u64);
            if is_stuck(config, logs, advice, &walk) {
                keep_longest(alloc, &mut longest, walk.path.as_slice())?;
                return Ok(Answer::NoOrder(longest));
            }
        }
        match try_next(config, logs, advice, &mut walk, &mut dead_ends)? {
            Step::On => {}
            Step::Whole => return Ok(Answer::Order(walk.path)),
            Step::Back => {
                reports.meet_dead_end();
                keep_longest(alloc, &mut longest, walk.path.as_slice())?;
                left = left.saturating_sub(walk.path.len() as u64);
                if !walk.go_back(alloc, config, logs)? {
                    return Ok(Answer::NoOrder(longest));
                }
            }
        }
    }
    keep_longest(alloc, &mut longest, walk.path.as_slice())?;
    Ok(Answer::Undecided(longest))
}

/// The result of one step of a search.
enum Step {
    /// The search continues.
    On,
    /// All calls are made.
    Whole,
    /// No partition can continue to an order.
    Back,
}

/// Tries the next partition, unless it is known that none can continue to an order.
fn try_next(
    config: &Config,
    logs: &[OwnLog],
    advice: &Advice,
    walk: &mut Walk,
    dead_ends: &mut DeadEnds,
) -> Result<Step, OutOfMemory>
    requires walk { IsWalk config.now logs.now walk.old }
    requires dead { AreDead config.now logs.now dead_ends.old.keys }
    ensures walk { OnOk result (IsWalk config.now logs.now walk.new) }
    ensures dead { OnOk result (AreDead config.now logs.now dead_ends.new.keys) }
    ensures step { IfOk result (λ step. IsStep config.now logs.now walk.new step) }
{
    if walk.has_made_all(config, logs) {
        return Ok(Step::Whole);
    }
    if walk.is_untried() && dead_ends.has(config, logs, walk) {
        return Ok(Step::Back);
    }
    let Some(p) = walk.candidate(config) else {
        dead_ends.add(config, logs, walk);
        return Ok(Step::Back);
    };
    if walk.can_go_on(config, logs, p) {
        walk.go_on(config, logs, advice, p)?;
    } else {
        walk.pass(config, logs);
    }
    Ok(Step::On)
}

/// Keeps the calls if they are more than those kept before.
fn keep_longest(
    alloc: Global,
    longest: &mut Vec<CallPlace>,
    path: &[CallPlace],
) -> Result<(), AllocError>
    ensures { OnOk result (IsOneOf longest.old.items path.now longest.new.items) }
{
    if path.len() > longest.len() {
        *longest = Vec::from_slice(alloc, path)?;
    }
    Ok(())
}
