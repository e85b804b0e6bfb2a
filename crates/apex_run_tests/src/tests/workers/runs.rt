//! Runs of one, two, three, sixteen and thirty-two workers.
use crate::tests::texts::{BASE, LEFT_BY_THREE, RECEIVER, REDUCED, SENDER, THREE, without_ports};
use crate::tests::workers::gates::{Refuses, Together, TwoFlags};
use crate::tests::workers::runs_left::{
    DSP, FMS, Left, config_of, end, holds, run, run_leaves, scripts_of,
};
use apex_module::Config;
use apex_workers::{Gate, OpenGate, RunFault, Script};
use std::alloc::AllocGlobal;
use std::process::Abort;
use std::sync::Wait;
use std::test::Fail;
use std::thread::Threads;

// Each of the two workers reaches its first call before the other makes it, and its second after the other's first was
// answered. So both run at the same time.
#[test]
fn two_workers_between_two_flags(rt: HostRuntime) -> Result<(), Fail> {
    let left = Left {
        replies: &[
            "NO_ERROR id 1\nNO_ERROR\nNO_ERROR\n",
            "NO_ERROR id 1\nNO_ERROR\n",
        ],
        totals: "partition FMS mode NORMAL calls 3
partition DSP mode NORMAL calls 2
queuing NAV accepted 1 received 0 waiting 1 01
",
    };
    run_leaves(&rt, REDUCED, &[SENDER, RECEIVER], &TwoFlags::new(), left)
}

// A worker that runs alone doesn't get past the flags.
#[test]
fn a_worker_alone_is_held(rt: HostRuntime) {
    holds(&rt, TwoFlags::new().pass(FMS, 1).is_err(), 0);
    holds(&rt, TwoFlags::new().pass(DSP, 2).is_err(), 1);
}

#[test]
fn three_workers_under_the_open_gate(rt: HostRuntime) -> Result<(), Fail> {
    run_leaves(&rt, BASE, THREE, &OpenGate, LEFT_BY_THREE)
}

/// Each of the workers that wait for each other goes to NORMAL twice.
const TWICE: &str = "1 mode 3\n2 mode 3\n";

const NORMAL_ONCE: &str = "NO_ERROR\nNO_ACTION\n";

// All workers run at the same time: each looks for the flags of all others before its first call.
fn wait_for_each_other<R: Abort + AllocGlobal + Sync + Threads + Wait>(
    rt: &R,
    scripts: &[&str],
    replies: &[&str],
) -> Result<(), Fail> {
    let text = without_ports(rt.alloc(), scripts.len())?;
    let mut totals = String::new(rt.alloc());
    for number in 0..scripts.len() {
        let line = format!(in rt.alloc(); "partition P{number} mode NORMAL calls 2\n")?;
        totals.push_str(line.as_str())?;
    }
    let gate = Together::new(rt.alloc(), scripts.len())?;
    let left = Left {
        replies,
        totals: totals.as_str(),
    };
    run_leaves(rt, text.as_str(), scripts, &gate, left)
}

#[test]
fn sixteen_workers_wait_for_each_other(rt: HostRuntime) -> Result<(), Fail> {
    wait_for_each_other(&rt, &[TWICE; 16], &[NORMAL_ONCE; 16])
}

#[test]
fn thirty_two_workers_wait_for_each_other(rt: HostRuntime) -> Result<(), Fail> {
    wait_for_each_other(&rt, &[TWICE; 32], &[NORMAL_ONCE; 32])
}

#[test]
fn one_worker_with_an_empty_script(rt: HostRuntime) -> Result<(), Fail> {
    let left = Left {
        replies: &[""],
        totals: "partition P0 mode COLD_START calls 0\n",
    };
    run_leaves(
        &rt,
        "[[partition]]\nname = \"P0\"\n",
        &[""],
        &OpenGate,
        left,
    )
}

// Makes a run and closes its board.
fn run_and_end<R: Threads + Wait + Sync + Abort + AllocGlobal, G: Gate>(
    rt: &R,
    config: &Config,
    scripts: &[Script],
    gate: &G,
) -> Result<(), RunFault> {
    let finished = run(rt, rt.alloc(), config, scripts, gate)?;
    end(rt, finished);
    Ok(())
}

/// The calls that a gate refuses, each a partition and the number of a call, and the one at which a worker is then
/// held.
const REFUSED: &[((usize, usize), (usize, usize), Option<(usize, usize)>)] = &[
    ((DSP, 2), (2, 1), Some((DSP, 2))),
    ((FMS, 3), (DSP, 1), Some((FMS, 3))),
    ((DSP, 2), (DSP, 1), Some((DSP, 1))),
    // No worker reaches these calls.
    ((FMS, 4), (DSP, 3), None),
];

// The run ended like this.
fn is_held(ended: Result<(), RunFault>, wanted: Option<(usize, usize)>) -> bool {
    match (ended, wanted) {
        (Ok(()), None) => true,
        (Err(RunFault::Held { partition, n }), Some(call)) => (partition, n) == call,
        _ => false,
    }
}

#[test]
fn a_gate_that_refuses(rt: HostRuntime) -> Result<(), Fail> {
    let config = config_of(&rt, REDUCED)?;
    let scripts = scripts_of(rt.alloc(), &[SENDER, RECEIVER])?;
    for (one, other, wanted) in REFUSED {
        let gate = Refuses {
            one: *one,
            other: *other,
        };
        let ended = run_and_end(&rt, &config, &scripts, &gate);
        holds(&rt, is_held(ended, *wanted), one.1);
    }
    Ok(())
}

const FAULTS: &[(RunFault, u32, &str)] = &[
    (RunFault::OutOfMemory, 1, "out of memory"),
    (
        RunFault::Held { partition: 1, n: 2 },
        2,
        "partition 1 held at call 2",
    ),
    (RunFault::WorkerNotStarted, 3, "worker not started"),
    (RunFault::ResultsDiffer, 4, "collected results do not match"),
    (RunFault::NoObserver, 5, "no observer"),
];

#[test]
fn words_and_numbers_of_faults(rt: HostRuntime) -> Result<(), Fail> {
    for (fault, number, words) in FAULTS {
        let text = format!(in rt.alloc(); "{fault}")?;
        holds(&rt, fault.number() == *number && text.as_str() == *words, 0);
    }
    Ok(())
}
