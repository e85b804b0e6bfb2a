//! A run: it takes one script for each partition and gives a report.
ghost use Rattle.std.specs.Prelude.{◌≡◌, Err, length, vec_len, IfOk, IfErr, string_bytes};
ghost use Rattle.std.specs.Thread.{IsSync, IsSend};
ghost use Rattle.apex_runs.specs.Run.{IsRun, IsRunOrder, IsRunReport, IsReported, IsReportFault};
ghost use Rattle.apex_threads.specs.Held.{NamesHeldCall};

use crate::pass::push_calls;
use crate::run_ports::{RunPorts, SharedPorts};
use apex_module::Config;
use apex_ports::{Ports, RunFault, Script};
use apex_texts::{Fault, push_totals};
use apex_threads::{Gate, PackedReplies, PackedScript, pack_all, run_over};
use std::alloc::{Allocator, Global};
use std::sync::Wait;
use std::thread::Threads;

/// The number of bytes that are reserved for each line of the report.
const LINE_BYTES: usize = 64;

/// The report of `run_packed_text` for scripts that are packed first.
pub fn run_text<R: Threads + Wait + Sync, G: Gate>(
    rt: &R,
    alloc: Global,
    config: &Config,
    scripts: &[Script],
    gate: &G,
) -> Result<String, Fault>
    requires { length scripts.now ≡ length config.now.partitions }
    ensures { IsRun (G.may_refuse gate.now) config.now scripts.now result }
{
    let packed = pack_all(alloc, scripts)?;
    run_packed_text(rt, alloc, config, packed.as_slice(), gate)
}

/// The report of a run on new ports of the configuration, in which a worker for each partition makes the calls of its
/// script. It waits for all workers.
///
/// Before the report, each observer of the run learns all that was written on its channel and is read. `Fault::Gone`
/// means that one shows the end of its channel; `RunFault::ResultsDiffer` is also the answer if one shows another
/// sample than the report.
pub fn run_packed_text<R: Threads + Wait + Sync, G: Gate>(
    rt: &R,
    alloc: Global,
    config: &Config,
    scripts: &[PackedScript],
    gate: &G,
) -> Result<String, Fault>
    requires { length scripts.now ≡ length config.now.partitions }
    ensures { IsRun (G.may_refuse gate.now) config.now scripts.now result }
{
    let (text, _) = run_reported(rt, alloc, config, scripts, gate)?;
    Ok(text)
}

/// The order of the calls of a run that has a report: the partition of each call.
pub fn run_order<R: Threads + Wait + Sync, G: Gate>(
    rt: &R,
    alloc: Global,
    config: &Config,
    scripts: &[PackedScript],
    gate: &G,
) -> Result<Vec<u8>, Fault>
    requires { length scripts.now ≡ length config.now.partitions }
    ensures order { IfOk result (λ order. IsRunOrder config.now scripts.now order.items) }
{
    let (_, order) = run_reported(rt, alloc, config, scripts, gate)?;
    Ok(order)
}

/// The report of a run, and the order of its calls.
fn run_reported<R: Threads + Wait + Sync, G: Gate>(
    rt: &R,
    alloc: Global,
    config: &Config,
    scripts: &[PackedScript],
    gate: &G,
) -> Result<(String, Vec<u8>), Fault>
    requires { length scripts.now ≡ length config.now.partitions }
    ensures report { IfOk result
        (λ run. IsRunReport config.now scripts.now (string_bytes run.0)) }
    ensures order { IfOk result (λ run. IsRunOrder config.now scripts.now run.1.items) }
    ensures fault { IfErr result (λ fault.
        IsRun (G.may_refuse gate.now) config.now scripts.now (Err fault)) }
{
    match run_workers(rt, alloc, config, scripts, gate) {
        Ok((mut run_ports, replies)) => {
            let reported = report(alloc, config, scripts, replies.as_slice(), &mut run_ports);
            run_ports.close(rt);
            reported
        }
        Err(RunFault::OutOfMemory) => Err(Fault::Memory),
        Err(RunFault::Held { partition, n }) => {
            let partition = config.partition_name(partition).copy();
            Err(Fault::Held { partition, n })
        }
        Err(fault) => Err(Fault::Run(fault)),
    }
}

/// Runs the workers to their ends, and returns their ports and the replies that each got. On a fault the ports are
/// closed.
fn run_workers<R: Threads + Wait + Sync, G: Gate, A: Allocator + Copy + Send + Sync>(
    rt: &R,
    alloc: A,
    config: &Config,
    scripts: &[PackedScript<A>],
    gate: &G,
) -> Result<(RunPorts<A>, Vec<PackedReplies<A>, A>), RunFault>
    ensures count { IfOk result (λ ended. vec_len ended.1 ≡ length scripts.now) }
    ensures held { IfErr result (NamesHeldCall (G.may_refuse gate.now) scripts.now) }
{
    let run_ports = RunPorts::new(rt, alloc, config, calls_in(scripts))?;
    let shared = SharedPorts::new(run_ports);
    let answered = run_over(rt, alloc, &shared, gate, scripts);
    let run_ports = shared.into_ports();
    match answered {
        Ok(replies) => Ok((run_ports, replies)),
        Err(fault) => {
            run_ports.close(rt);
            Err(fault)
        }
    }
}

/// The number of calls that the scripts have; at most `usize::MAX`.
fn calls_in<A: Allocator>(scripts: &[PackedScript<A>]) -> usize {
    let mut calls: usize = 0;
    for script in scripts {
        calls = calls.saturating_add(script.len());
    }
    calls
}

/// The report of a run whose workers have ended, and the order of its calls.
fn report(
    alloc: Global,
    config: &Config,
    scripts: &[PackedScript],
    replies: &[PackedReplies],
    run_ports: &mut RunPorts<Global>,
) -> Result<(String, Vec<u8>), Fault>
    requires scripts { length scripts.now ≡ length config.now.partitions }
    requires each { length replies.now ≡ length scripts.now }
    ensures text { IfOk result (λ run. IsReported
        config.now scripts.now replies.now run_ports.new.observers (string_bytes run.0)) }
    ensures order { IfOk result (λ run. IsRunOrder config.now scripts.now run.1.items) }
    ensures fault { IfErr result IsReportFault }
{
    let order = run_ports.take_order(alloc);
    let mut ports = Ports::new(alloc, config.copy()?)?;
    let mut counts = vec![in alloc; 0usize; scripts.len()]?;
    let bytes = order.len().saturating_mul(LINE_BYTES);
    let mut text = String::with_capacity(alloc, bytes)?;
    push_calls(
        &mut text,
        &mut ports,
        scripts,
        replies,
        order.as_slice(),
        counts.as_mut_slice(),
    )?;
    run_ports.compare(&ports)?;
    push_totals(&mut text, &ports)?;
    Ok((text, order))
}
