//! Runs of workers in a ring: many runs of eight workers, and one of thirty-two with five thousand calls each. The log
//! of each has the calls of the scripts with the replies of the ports, in the log's order.
use crate::tests::texts::ring_text;
use crate::tests::workers::runs_left::{config_of, end, holds, is_collected, run};
use apex_board::Entry;
use apex_module::Config;
use apex_ports::Ports;
use apex_texts::read_script;
use apex_workers::{OpenGate, Script};
use std::alloc::{AllocError, AllocGlobal, Global};
use std::process::Abort;
use std::sync::Wait;
use std::test::Fail;
use std::thread::Threads;

/// A ring of partitions, each with a queuing channel to the next, and each with `calls` calls. After the first three
/// calls a partition makes one receive and two sends in each period of calls, and requests its port's status otherwise.
#[derive(Clone, Copy)]
struct Ring {
    partitions: usize,
    calls: u32,
    period: u32,
}

/// Each partition creates its ports and goes to NORMAL.
const FIRST_CALLS: &str = "9223372036854775807 create-queuing OUT 4 4 0 0
9223372036854775806 create-queuing IN 4 4 1 0
9223372036854775805 mode 3
";

// A partition's call, whose message has the numbers of both in its digits. Later calls have smaller moments.
fn line_of(alloc: Global, ring: Ring, partition: usize, n: u32) -> Result<String, AllocError> {
    let at = u32::MAX - n;
    let message = (partition % 64)
        .saturating_mul(100_000)
        .saturating_add(n as usize + 10_000_000);
    match n.checked_rem(ring.period) {
        Some(0) => format!(in alloc; "{at} receive 2\n"),
        Some(1 | 2) => format!(in alloc; "{at} send 1 {message}\n"),
        _ => format!(in alloc; "{at} queuing-status 1\n"),
    }
}

fn script_of(alloc: Global, ring: Ring, partition: usize) -> Result<Script, Fail> {
    let mut text = String::new(alloc);
    text.push_str(FIRST_CALLS)?;
    for n in 3..ring.calls {
        let line = line_of(alloc, ring, partition, n)?;
        text.push_str(line.as_str())?;
    }
    Ok(read_script(alloc, text.as_bytes())?)
}

fn scripts_of(alloc: Global, ring: Ring) -> Result<Vec<Script>, Fail> {
    let mut scripts = Vec::new(alloc);
    for partition in 0..ring.partitions {
        scripts.push(script_of(alloc, ring, partition)?)?;
    }
    Ok(scripts)
}

// The ports answer the calls of the log with the replies of the log.
fn is_answered(rt: &impl Abort, ports: &mut Ports, log: &[Entry]) {
    for entry in log {
        assert!(rt; entry.partition < ports.config().partitions());
        let reply = ports.call(entry.partition, entry.at, &entry.call);
        holds(rt, reply == entry.reply, entry.partition);
    }
}

// A run of the scripts.
fn is_run<R: Threads + Wait + Sync + Abort + AllocGlobal>(
    rt: &R,
    config: &Config,
    scripts: &[Script],
) -> Result<(), Fail> {
    let mut ports = Ports::new(rt.alloc(), config.copy()?)?;
    let finished = run(rt, rt.alloc(), config, scripts, &OpenGate)?;
    let collected = is_collected(rt, scripts, &finished);
    is_answered(rt, &mut ports, finished.board.log());
    end(rt, finished);
    collected
}

// Makes this number of runs of the ring.
fn runs_of<R: Threads + Wait + Sync + Abort + AllocGlobal>(
    rt: &R,
    ring: Ring,
    runs: u32,
) -> Result<(), Fail> {
    let text = ring_text(rt.alloc(), ring.partitions)?;
    let config = config_of(rt, text.as_str())?;
    let scripts = scripts_of(rt.alloc(), ring)?;
    for _ in 0..runs {
        is_run(rt, &config, &scripts)?;
    }
    Ok(())
}

#[test]
fn two_hundred_runs_of_eight_workers(rt: HostRuntime) -> Result<(), Fail> {
    let ring = Ring {
        partitions: 8,
        calls: 50,
        period: 3,
    };
    runs_of(&rt, ring, 200)
}

#[test]
fn thirty_two_workers_of_five_thousand_calls(rt: HostRuntime) -> Result<(), Fail> {
    let ring = Ring {
        partitions: 32,
        calls: 5_000,
        period: 25,
    };
    runs_of(&rt, ring, 1)
}
