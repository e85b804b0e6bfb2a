//! What can happen to scripts, and to those of one group.
ghost use Rattle.std.specs.Prelude.{◌≡◌, [], length, replicate, if◌then◌else◌, IfOk};
ghost use Rattle.apex_orders.specs.Searches.{IsOutcomeSearch};
ghost use Rattle.apex_groups.specs.Prelude.{IsUndecidedWith};
ghost use Rattle.apex_groups.specs.PartSearches.{IsFarEnough, SaysAll};
ghost use Rattle.apex_groups.specs.Groups.{IsPart, in_group};
ghost use Rattle.apex_groups.specs.Answers.{AreAnswersOf};

use crate::different_ends::different_ends;
use crate::exchanging::exchange;
use crate::groups::Groups;
use crate::questions::Found;
use apex_module::Config;
use apex_orders::{Asked, OrdersFault, OutcomeSearch, Outcomes, Progress, Searched, orders_giving};
use apex_ports::Script;
use apex_types::OutOfMemory;
use std::alloc::{AllocError, Global};
use std::thread::Threads;

/// `count` empty scripts.
fn no_scripts(alloc: Global, count: usize) -> Result<Vec<Script>, AllocError>
    ensures { IfOk result (λ scripts. scripts.items ≡ replicate count []) }
{
    let mut scripts = Vec::with_capacity(alloc, count)?;
    for _ in 0..count {
        scripts.push(Script {
            calls: Vec::new(alloc),
        })?;
    }
    Ok(scripts)
}

/// All that can happen to the scripts, as `all_outcomes` of `apex_orders` finds it. Of the ends that agree in every count of
/// every channel only the first is kept, whichever messages wait.
pub(crate) fn different_outcomes<R: Threads + Sync, P: Progress>(
    rt: &R,
    alloc: Global,
    config: &Config,
    scripts: &[Script],
    clock: bool,
    bound: usize,
    progress: &mut P,
) -> Result<Outcomes, OrdersFault>
    requires { length scripts.now ≡ length config.now.partitions }
    ensures found { IfOk result (SaysAll clock config.now scripts.now) }
    ensures undecided { IsUndecidedWith clock P.CanStop config.now scripts.now bound result }
{
    progress.begin();
    let search = OutcomeSearch::new(alloc, config, scripts)?;
    outcomes_by(rt, alloc, config, scripts, clock, bound, progress, search)
}

/// What a search finds that goes on to the end.
pub(crate) fn outcomes_by<R: Threads + Sync, P: Progress>(
    rt: &R,
    alloc: Global,
    config: &Config,
    scripts: &[Script],
    clock: bool,
    bound: usize,
    progress: &mut P,
    search: OutcomeSearch,
) -> Result<Outcomes, OrdersFault>
    requires count { length scripts.now ≡ length config.now.partitions }
    requires search { IsOutcomeSearch clock config.now scripts.now search }
    ensures found { IfOk result (SaysAll clock config.now scripts.now) }
    ensures undecided { IsUndecidedWith clock P.CanStop config.now scripts.now bound result }
{
    let searched = search_on(
        rt,
        usize::MAX,
        alloc,
        config,
        scripts,
        clock,
        bound,
        progress,
        search,
    )?;
    match searched {
        Searched::All(found) => Ok(found),
        Searched::GivenUp(search, fault) => {
            search.free(rt);
            Err(fault)
        }
    }
}

/// Goes on with a search, in at most `threads` threads. Of the ends that agree in every count of every channel only the
/// first is kept.
pub(crate) fn search_on<R: Threads + Sync, P: Progress>(
    rt: &R,
    threads: usize,
    alloc: Global,
    config: &Config,
    scripts: &[Script],
    clock: bool,
    bound: usize,
    progress: &mut P,
    search: OutcomeSearch,
) -> Result<Searched, OutOfMemory>
    requires count { length scripts.now ≡ length config.now.partitions }
    requires search { IsOutcomeSearch clock config.now scripts.now search }
    ensures { IfOk result
        (IsFarEnough clock P.CanStop config.now scripts.now bound) }
{
    let searched = search.run(rt, threads, alloc, config, scripts, clock, bound, progress)?;
    let found = match searched {
        Searched::GivenUp(search, fault) => return Ok(Searched::GivenUp(search, fault)),
        Searched::All(found) => found,
    };
    let ends = different_ends(alloc, config, scripts, found.ends)?;
    Ok(Searched::All(Outcomes {
        replies: found.replies,
        ends,
        states: found.states,
    }))
}

/// Copies of the scripts of the group's partitions, and an empty script for each other one.
pub(crate) fn scripts_of(
    alloc: Global,
    groups: &Groups,
    group: usize,
    scripts: &[Script],
) -> Result<Vec<Script>, AllocError>
    ensures count { IfOk result (λ part. length part.items ≡ length scripts.now) }
    ensures part { IfOk result (λ part.
        IsPart (in_group groups.now.of_partitions.items group) scripts.now part.items) }
{
    let mut part = Vec::with_capacity(alloc, scripts.len())?;
    for p in 0..scripts.len() {
        part.push(script_inside(alloc, groups, group, p, &scripts[p])?)?;
    }
    Ok(part)
}

/// A copy of the partition's script; an empty one if the partition is not in the group.
fn script_inside(
    alloc: Global,
    groups: &Groups,
    group: usize,
    p: usize,
    script: &Script,
) -> Result<Script, AllocError>
    ensures { IfOk result (λ own. own ≡
        (if in_group groups.now.of_partitions.items group p then script.now else [])) }
{
    if groups.of_partition(p) == group {
        return copy_of(alloc, script);
    }
    Ok(Script {
        calls: Vec::new(alloc),
    })
}

/// A copy of the script.
fn copy_of(alloc: Global, script: &Script) -> Result<Script, AllocError>
    ensures { IfOk result (λ own. own ≡ script.now) }
{
    let mut calls = Vec::with_capacity(alloc, script.calls.len())?;
    for k in 0..script.calls.len() {
        let (at, call) = &script.calls[k];
        calls.push((*at, call.copy()))?;
    }
    Ok(Script { calls })
}

/// The answers to questions about the calls of one group, from one search. The scripts stay as they were.
pub(crate) fn orders_of<R: Threads + Sync, P: Progress>(
    rt: &R,
    alloc: Global,
    config: &Config,
    groups: &Groups,
    group: usize,
    scripts: &mut [Script],
    clock: bool,
    asked: &[Asked],
    bound: usize,
    progress: &mut P,
) -> Result<Vec<Found>, OutOfMemory>
    requires { length scripts.old ≡ length config.now.partitions }
    ensures scripts { scripts.new ≡ scripts.old }
    ensures answers { let inside = in_group groups.now.of_partitions.items group in
        IfOk result (λ answers. AreAnswersOf clock P.CanStop
        config.now inside scripts.old bound asked.now answers.items) }
{
    let mut part = no_scripts(alloc, config.partitions())?;
    let part = part.as_mut_slice();
    exchange(groups, group, scripts, part);
    let found = orders_giving(rt, alloc, config, part, clock, asked, bound, progress);
    exchange(groups, group, scripts, part);
    found
}
