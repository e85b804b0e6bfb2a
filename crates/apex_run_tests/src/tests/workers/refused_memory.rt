//! Every allocation of a run refused in turn: the run ends because memory ran out or a worker wasn't started, or it
//! ends as with ample memory. The configuration is copied with memory of its own, which this sweep doesn't reach.
use crate::tests::texts::{BASE, THREE};
use crate::tests::workers::runs_left::{config_of, end, holds, is_left_by_three, run, scripts_of};
use apex_module::Config;
use apex_workers::{OpenGate, RunFault, Script};
use refusing::Switch;
use std::alloc::AllocGlobal;
use std::process::Abort;
use std::sync::Wait;
use std::test::Fail;
use std::thread::Threads;

/// More allocations than a run of these scripts makes.
const ALLOCATION_LIMIT: u64 = 200;

// A run with `refuse` allocations refused after `granted` others. Returns whether one was refused.
fn run_refused_after<R: Threads + Wait + Sync + Abort + AllocGlobal>(
    rt: &R,
    config: &Config,
    scripts: &[Script],
    granted: u64,
    refuse: u64,
) -> Result<bool, Fail> {
    let switch = Switch::new(rt.alloc());
    switch.refuse_after(granted, refuse);
    let answered = run(rt, &switch, config, scripts, &OpenGate);
    let is_refused = switch.refused() > 0;
    switch.allow_all();
    match answered {
        Ok(finished) => {
            let checked = is_left_by_three(rt, config, &finished);
            end(rt, finished);
            checked?;
        }
        Err(RunFault::OutOfMemory) => holds(rt, is_refused, 0),
        Err(fault) => holds(rt, fault == RunFault::WorkerNotStarted, 1),
    }
    Ok(is_refused)
}

// A sweep over all numbers of granted allocations.
fn run_refused_in_turn<R: Threads + Wait + Sync + Abort + AllocGlobal>(
    rt: &R,
    refuse: u64,
) -> Result<(), Fail> {
    let config = config_of(rt, BASE)?;
    let scripts = scripts_of(rt.alloc(), THREE)?;
    for granted in 0..ALLOCATION_LIMIT {
        if !run_refused_after(rt, &config, &scripts, granted, refuse)? {
            holds(rt, granted > 0, 2);
            return Ok(());
        }
    }
    panic!(rt; "the sweep does not end");
}

#[test]
fn a_run_with_one_refusal(rt: HostRuntime) -> Result<(), Fail> {
    run_refused_in_turn(&rt, 1)
}

#[test]
fn a_run_without_memory(rt: HostRuntime) -> Result<(), Fail> {
    run_refused_in_turn(&rt, u64::MAX)
}
