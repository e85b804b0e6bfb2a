//! The calls of a run, served once more on new ports in the order in which they were made.
ghost use Rattle.std.specs.Prelude.{◌≡◌, ◌<◌, ◌≤◌, ◌^◌, ◌∷◌, ◌++◌, [], length, map, replicate, string_bytes, OnOk, IfErr};
ghost use Rattle.apex_ports.specs.History.{entry_of};
ghost use Rattle.apex_ports.specs.Noted.{call_by};
ghost use Rattle.apex_ports.specs.Sound.{IsSound};
ghost use Rattle.apex_runs.specs.Run.{IsReportFault};
ghost use Rattle.apex_texts.specs.Report.{line_of, entry_lines};
ghost use Rattle.apex_threads.specs.Collected.{IsCollected};

use apex_ports::{CallRef, Ports, RunFault};
use apex_texts::{Fault, push_entry};
use apex_threads::{PackedReplies, PackedScript, are_complete};
use apex_types::{MESSAGE_LIMIT, Moment, Reply};
use std::alloc::AllocError;

/// Serves the calls of all scripts on new ports, each time the next one of the partition that the order names, and
/// writes a line for each. The order must name each partition as many times as it has calls, and each reply must be its
/// worker's.
///
/// It counts each partition's calls in `counts`, which are 0 before.
pub(crate) fn push_calls(
    text: &mut String,
    ports: &mut Ports,
    scripts: &[PackedScript],
    replies: &[PackedReplies],
    order: &[u8],
    counts: &mut [usize],
) -> Result<(), Fault>
    requires fresh { ports.old.history ≡ [] }
    requires sound { IsSound ports.old.config ports.old.history }
    requires scripts { length scripts.now ≡ length ports.old.config.partitions }
    requires each { length replies.now ≡ length scripts.now }
    requires none { counts.old ≡ replicate (length scripts.now) 0 }
    ensures config { ports.new.config ≡ ports.old.config }
    ensures sound { IsSound ports.new.config ports.new.history }
    ensures collected { OnOk result (IsCollected ports.new.history scripts.now replies.now) }
    ensures written { OnOk result (string_bytes text.new ≡
        string_bytes text.old ++ entry_lines ports.old.config 1 ports.new.history) }
    ensures ordered { OnOk result (order.now ≡ map (λ entry. entry.partition) ports.new.history) }
    ensures short { length ports.new.history < 2 ^ 64 }
    ensures fault { IfErr result IsReportFault }
{
    let mut reply = Reply::NotMade;
    let mut buffer = [0; MESSAGE_LIMIT];
    let mut number: u64 = 0;
    for byte in order {
        let partition = usize::from(*byte);
        if partition >= counts.len() {
            return Err(Fault::Run(RunFault::ResultsDiffer));
        }
        let index = counts[partition];
        let script = &scripts[partition];
        let Some((at, call)) = script.get(index) else {
            return Err(Fault::Run(RunFault::ResultsDiffer));
        };
        number += 1;
        push_call(
            text,
            ports,
            number,
            partition,
            at,
            call,
            &mut buffer,
            &mut reply,
        )?;
        let worker = &replies[partition];
        if !worker.is_at(index, &reply) {
            return Err(Fault::Run(RunFault::ResultsDiffer));
        }
        counts[partition] = index + 1;
    }
    if !are_complete(scripts, replies, counts) {
        return Err(Fault::Run(RunFault::ResultsDiffer));
    }
    Ok(())
}

/// Serves a call, with its reply in `reply`, and writes its line.
fn push_call(
    text: &mut String,
    ports: &mut Ports,
    number: u64,
    partition: usize,
    at: Moment,
    call: CallRef<'_>,
    buffer: &mut [u8],
    reply: &mut Reply,
) -> Result<(), AllocError>
    requires partition { partition < length ports.old.config.partitions }
    requires room { MESSAGE_LIMIT ≤ length buffer.old }
    ensures config { ports.new.config ≡ ports.old.config }
    ensures sound { IsSound ports.new.config ports.new.history }
    ensures history { ports.new.history
        ≡ ports.old.history ++ entry_of partition at (call_by call.entry) reply.new ∷ [] }
    ensures written { let entry = entry_of partition at (call_by call.entry) reply.new in
        OnOk result (string_bytes text.new ≡
        string_bytes text.old ++ line_of ports.old.config number entry) }
{
    let lent = ports.answer(partition, at, call, buffer);
    lent.copy_to(reply);
    let name = ports.config().partition_name(partition).text();
    push_entry(text, number, name, at, call, lent)
}
