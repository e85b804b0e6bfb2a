//! All that can happen to scripts, part by part.
ghost use Rattle.std.specs.Prelude.{◌≡◌, ◌++◌, length, filter, IfOk, OnOk};
ghost use Rattle.apex_groups.specs.Prelude.{AreRepliesWith, IsUndecidedWith};
ghost use Rattle.apex_groups.specs.Groups.{in_group};
ghost use Rattle.apex_groups.specs.Parts.{AreBelow, is_of_part};
ghost use Rattle.apex_groups.specs.Counts.{ShowAllCounts};
ghost use Rattle.apex_groups.specs.Merging.{AreEndsAdded};
ghost use Rattle.apex_groups.specs.ScriptParts.{IsFoundOf, IsUndecidedApart};

use crate::ends::add_ends;
use crate::groups::Groups;
use crate::part_search::{outcomes_of, searchers_of};
use crate::parts::Parts;
use crate::script_part::{all_parts, have_calls};
use crate::script_parts::different_outcomes;
use crate::searcher::search_beside;
use apex_module::Config;
use apex_orders::{Order, OrdersFault, Outcomes, PossibleReply, Progress};
use apex_ports::Script;
use std::alloc::{AllocError, Global};
use std::thread::Threads;

/// What can happen to a part of the scripts by itself: to the partitions at the ends of a channel.
#[derive(Debug, Drop)]
pub struct PartCounts {
    /// The part's partitions, ascending.
    pub partitions: Vec<usize>,
    /// The number of states that its calls can lead to, including those on the way.
    pub states: usize,
    /// The number of ends after all of its calls that differ in a count of a channel.
    pub ends: usize,
}

/// All that can happen to scripts, with each part searched by itself.
#[derive(Debug, Drop)]
pub struct OutcomesApart {
    /// The replies that the calls can get, each once.
    pub replies: Vec<PossibleReply>,
    /// Orders of all calls: whatever counts of a channel some order leads to, one of these does.
    pub ends: Vec<Order>,
    /// The parts that have calls, or one of all partitions if all are searched together.
    pub parts: Vec<PartCounts>,
}

/// All that can happen to the partitions' scripts, as `all_outcomes` of `apex_orders` finds it, but the partitions at the
/// ends of each channel are searched by themselves: what the others call makes no difference to the channel. With `clock`,
/// the moments of all partitions are of one clock. It is undecided if a part leads to more states than the bound, or
/// `progress` ends a search. With `clock`, such a part leads to a search of all partitions together, which then decides.
/// `progress` receives from time to time how far a search is.
pub fn all_outcomes_apart<R: Threads + Sync, P: Progress>(
    rt: &R,
    alloc: Global,
    config: &Config,
    scripts: &[Script],
    clock: bool,
    bound: usize,
    progress: &mut P,
) -> Result<OutcomesApart, OrdersFault>
    requires { length scripts.now ≡ length config.now.partitions }
    ensures replies { IfOk result
        (λ found. AreRepliesWith clock config.now scripts.now found.replies.items) }
    ensures ends { IfOk result
        (λ found. ShowAllCounts clock config.now scripts.now found.ends.items) }
    ensures undecided { IsUndecidedWith clock P.CanStop config.now scripts.now bound result }
{
    let parts = Parts::new(alloc, config)?;
    if have_calls(scripts) && parts.are_below() {
        match outcomes_by_parts(rt, alloc, config, &parts, scripts, clock, bound, progress) {
            Err(OrdersFault::TooManyStates) if clock => {}
            found => return found,
        }
    }
    outcomes_together(rt, alloc, config, scripts, clock, bound, progress)
}

/// Searches all partitions together.
fn outcomes_together<R: Threads + Sync, P: Progress>(
    rt: &R,
    alloc: Global,
    config: &Config,
    scripts: &[Script],
    clock: bool,
    bound: usize,
    progress: &mut P,
) -> Result<OutcomesApart, OrdersFault>
    requires { length scripts.now ≡ length config.now.partitions }
    ensures replies { IfOk result
        (λ found. AreRepliesWith clock config.now scripts.now found.replies.items) }
    ensures ends { IfOk result
        (λ found. ShowAllCounts clock config.now scripts.now found.ends.items) }
    ensures undecided { IsUndecidedWith clock P.CanStop config.now scripts.now bound result }
{
    let found = match different_outcomes(rt, alloc, config, scripts, clock, bound, progress) {
        Err(fault) => return Err(fault),
        Ok(found) => found,
    };
    let parts = one_part(alloc, config, found.states, found.ends.len())?;
    Ok(OutcomesApart {
        replies: found.replies,
        ends: found.ends,
        parts,
    })
}

/// One part of all partitions.
fn one_part(
    alloc: Global,
    config: &Config,
    states: usize,
    ends: usize,
) -> Result<Vec<PartCounts>, AllocError> {
    let mut partitions = Vec::with_capacity(alloc, config.partitions())?;
    for p in 0..config.partitions() {
        partitions.push(p)?;
    }
    let mut parts = Vec::new(alloc);
    parts.push(PartCounts {
        partitions,
        states,
        ends,
    })?;
    Ok(parts)
}

/// Searches each part by itself.
fn outcomes_by_parts<R: Threads + Sync, P: Progress>(
    rt: &R,
    alloc: Global,
    config: &Config,
    parts: &Parts,
    scripts: &[Script],
    clock: bool,
    bound: usize,
    progress: &mut P,
) -> Result<OutcomesApart, OrdersFault>
    requires count { length scripts.now ≡ length config.now.partitions }
    requires below { AreBelow parts.now }
    ensures replies { IfOk result
        (λ found. AreRepliesWith clock config.now scripts.now found.replies.items) }
    ensures ends { IfOk result
        (λ found. ShowAllCounts clock config.now scripts.now found.ends.items) }
    ensures undecided { IsUndecidedApart clock P.CanStop config.now scripts.now bound result }
{
    let own = all_parts(alloc, config, parts, scripts)?;
    let own = own.as_slice();
    let mut searchers = searchers_of(rt, alloc, own)?;
    let searchers = searchers.as_mut_slice();
    if !search_beside(rt, alloc, config, own, clock, bound, progress, searchers) {
        return Err(OrdersFault::Stopped);
    }
    let mut all = OutcomesApart {
        replies: Vec::new(alloc),
        ends: Vec::new(alloc),
        parts: Vec::new(alloc),
    };
    for part in 0..parts.count {
        let members = &own[part].members;
        if !parts.hold(config, part, members) {
            return outcomes_together(rt, alloc, config, scripts, clock, bound, progress);
        }
        if !members.have(config, 1) {
            continue;
        }
        let found = match outcomes_of(
            rt, alloc, config, own, part, searchers, clock, bound, progress,
        ) {
            Err(fault) => return Err(fault),
            Ok(found) => found,
        };
        add_part(
            alloc, config, parts, part, members, scripts, clock, &mut all, found,
        )?;
    }
    Ok(all)
}

/// Adds what was found for the part: the replies to its calls, and its ends.
fn add_part(
    alloc: Global,
    config: &Config,
    parts: &Parts,
    part: usize,
    members: &Groups,
    scripts: &[Script],
    clock: bool,
    all: &mut OutcomesApart,
    found: Outcomes,
) -> Result<(), AllocError>
    requires count { length scripts.now ≡ length config.now.partitions }
    requires found { IsFoundOf clock config.now
        (in_group members.now.of_partitions.items 1) scripts.now found }
    ensures replies { OnOk result (all.new.replies.items ≡ all.old.replies.items
        ++ filter (is_of_part config.now parts.now scripts.now part) found.replies.items) }
    ensures ends { OnOk result (AreEndsAdded clock config.now
        (in_group members.now.of_partitions.items 1) scripts.now
        found.ends.items all.old.ends.items all.new.ends.items) }
{
    let ends = found.ends.as_slice();
    let replies = found.replies.as_slice();
    let known = all.replies.len();
    add_replies(config, parts, part, scripts, &mut all.replies, replies)?;
    if all.replies.len() > known {
        all.parts.push(PartCounts {
            partitions: partitions_of(alloc, config, members)?,
            states: found.states,
            ends: ends.len(),
        })?;
    }
    add_ends(alloc, config, members, scripts, clock, &mut all.ends, ends)
}

/// Adds those of the replies that are to calls of the part.
fn add_replies(
    config: &Config,
    parts: &Parts,
    part: usize,
    scripts: &[Script],
    all: &mut Vec<PossibleReply>,
    found: &[PossibleReply],
) -> Result<(), AllocError>
    ensures { OnOk result (all.new.items ≡ all.old.items
        ++ filter (is_of_part config.now parts.now scripts.now part) found.now) }
{
    for one in found {
        if parts.of_index(config, scripts, one.partition, one.index) == part {
            all.push(one.copy())?;
        }
    }
    Ok(())
}

/// The part's partitions.
fn partitions_of(
    alloc: Global,
    config: &Config,
    members: &Groups,
) -> Result<Vec<usize>, AllocError> {
    let mut partitions = Vec::new(alloc);
    for p in 0..config.partitions() {
        if members.of_partition(p) == 1 {
            partitions.push(p)?;
        }
    }
    Ok(partitions)
}
