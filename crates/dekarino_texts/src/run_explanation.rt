//! The explanation of a run: the calls of its scripts, in the order in which they were made.
ghost use Rattle.std.specs.Prelude.{◌≡◌, ◌<◌, [], length, IfErr, IsTrue};
ghost use Rattle.dekarino_texts.specs.Prelude.{IsSound};
ghost use Rattle.apex_texts.specs.declared.fault.Fault.TheVariants as faults;

use crate::explanation::{Explained, Explanation, ExplanationSink, explain_call};
use crate::notes::Notes;
use crate::remarks::remarks_of;
use apex_module::Config;
use apex_ports::{Ports, Request};
use apex_texts::Fault;
use apex_texts::trace::ANY_REQUEST;
use apex_threads::PackedScript;
use apex_words::push_request;
use std::alloc::{AllocError, Global};

/// Explains a run: new ports serve the calls of the scripts, each time the next one of the partition that the order names.
/// The sink takes each call with the line that it would have in a trace. The run ends when the order names no next call.
pub fn explain_run<S: ExplanationSink>(
    alloc: Global,
    config: Config,
    scripts: &[PackedScript],
    order: &[u8],
    sink: &mut S,
) -> Result<Explained, Fault>
    requires { length scripts.now ≡ length config.partitions }
    ensures refused { IfErr result (λ why. why ≡ faults.Memory) }
{
    let mut ports = Ports::new(alloc, config)?;
    let explanation = explain_order(alloc, &mut ports, scripts, order, sink)?;
    Ok(Explained { explanation, ports })
}

fn explain_order<S: ExplanationSink>(
    alloc: Global,
    ports: &mut Ports,
    scripts: &[PackedScript],
    order: &[u8],
    sink: &mut S,
) -> Result<Explanation, AllocError>
    requires fresh { ports.old.history ≡ [] }
    requires sound { IsSound ports.old.config ports.old.history }
    requires scripts { length scripts.now ≡ length ports.old.config.partitions }
{
    let mut notes = Notes::new(alloc);
    let mut counts = vec![in alloc; 0usize; scripts.len()]?;
    let counts = counts.as_mut_slice();
    let mut line = String::new(alloc);
    let mut request = ANY_REQUEST;
    let mut number: usize = 0;
    for byte in order {
        request.partition = usize::from(*byte);
        if !read_next(scripts, counts, &mut request) {
            break;
        }
        number += 1;
        line.clear();
        push_request(
            &mut line,
            ports.config(),
            request.partition,
            request.at,
            &request.call,
        )?;
        explain_call(ports, &mut notes, number, line.as_bytes(), &request, sink)?;
    }
    let calls = notes.calls;
    let remarks = remarks_of(ports, notes)?;
    Ok(Explanation {
        calls,
        fault: None,
        remarks,
    })
}

/// Reads the next call of the request's partition into the request, and counts it. Answers whether there is one.
fn read_next(scripts: &[PackedScript], counts: &mut [usize], request: &mut Request) -> bool
    requires { length counts.old ≡ length scripts.now }
    ensures partition { request.new.partition ≡ request.old.partition }
    ensures known { IsTrue result → request.old.partition < length scripts.now }
    ensures count { length counts.new ≡ length counts.old }
{
    let p = request.partition;
    if p >= scripts.len() {
        return false;
    }
    let index = counts[p];
    let Some((at, call)) = scripts[p].get(index) else {
        return false;
    };
    request.at = at;
    request.call = call.to_call();
    counts[p] = index + 1;
    true
}
