//! A replay: it reads a configuration and a trace, and writes a report.
ghost use Rattle.std.specs.Prelude.{◌≡◌, ◌<◌, ◌≤◌, ◌^◌, ◌∷◌, ◌++◌, [], length, string_bytes, OnOk, IfErr};
ghost use Rattle.apex_ports.specs.Sound.{IsSound};
ghost use Rattle.apex_texts.specs.Replay.{entry_after, IsServed, IsTraceReplay, IsReplay};
ghost use Rattle.apex_texts.specs.Report.{line_of, entry_lines};
ghost use Rattle.apex_texts.specs.Trace.{IsTraceRead, trace_of};

use crate::fault::{Fault, TraceFault};
use crate::report_text::{push_entry, push_totals};
use crate::text::next_line;
use crate::trace::{ANY_REQUEST, read_trace_line};
use apex_config::ReadConfig;
use apex_module::Config;
use apex_ports::{CallRef, Ports, Request};
use apex_types::MESSAGE_LIMIT;
use std::alloc::{AllocError, Global};

/// The report of a trace's calls on new ports of a configuration, from the two texts.
pub fn replay_text(alloc: Global, config: &[u8], trace: &[u8]) -> Result<String, Fault>
    ensures { IsReplay result config.now trace.now }
{
    let config = Config::read(alloc, config)?;
    replay_trace(alloc, config, trace)
}

/// The report of a trace's calls on new ports of a configuration, from the trace's text.
///
/// Each line is read, served and written before the next one. At a faulty line the ports and the text so far are
/// dropped, so that none of it is visible.
pub fn replay_trace(alloc: Global, config: Config, trace: &[u8]) -> Result<String, Fault>
    ensures { IsTraceReplay result config trace.now }
{
    let mut ports = Ports::new(alloc, config)?;
    replay_on(alloc, &mut ports, trace)
}

/// The report of a trace's calls on new ports.
fn replay_on(alloc: Global, ports: &mut Ports, trace: &[u8]) -> Result<String, Fault>
    requires fresh { ports.old.history ≡ [] }
    requires sound { IsSound ports.old.config ports.old.history }
    ensures { IsTraceReplay result ports.old.config trace.now }
{
    // Most lines of a report are about as long as two lines of the trace.
    let mut text = String::with_capacity(alloc, trace.len().saturating_mul(2))?;
    push_calls(&mut text, ports, trace)?;
    push_totals(&mut text, ports)?;
    Ok(text)
}

/// Serves the calls of a trace's lines in order, and writes a line for each.
fn push_calls(text: &mut String, ports: &mut Ports, trace: &[u8]) -> Result<(), TraceFault>
    requires fresh { ports.old.history ≡ [] }
    requires sound { IsSound ports.old.config ports.old.history }
    ensures config { ports.new.config ≡ ports.old.config }
    ensures served { OnOk result (IsServed ports.old.config trace.now ports.new.history) }
    ensures written { OnOk result (string_bytes text.new ≡
        string_bytes text.old ++ entry_lines ports.old.config 1 ports.new.history) }
    ensures short { OnOk result (length ports.new.history < 2 ^ 64) }
    ensures refused { IfErr result
        (λ fault. IsTraceRead (Err fault) (trace_of ports.old.config trace.now)) }
{
    let mut rest = trace;
    let mut request = ANY_REQUEST;
    let mut buffer = [0; MESSAGE_LIMIT];
    let mut line_number: usize = 0;
    let mut number: u64 = 0;
    while let Some((line, after)) = next_line(rest) {
        line_number += 1;
        match read_trace_line(ports.config(), line, &mut request) {
            Ok(true) => {
                number += 1;
                push_call(text, ports, number, &request, &mut buffer)?;
            }
            Ok(false) => {}
            Err(fault) => return Err(TraceFault::at(line_number, fault)),
        }
        rest = after;
    }
    Ok(())
}

/// Serves a request, and writes its line. The message of the reply is in the buffer.
fn push_call(
    text: &mut String,
    ports: &mut Ports,
    number: u64,
    request: &Request,
    buffer: &mut [u8],
) -> Result<(), AllocError>
    requires partition { request.now.partition < length ports.old.config.partitions }
    requires room { MESSAGE_LIMIT ≤ length buffer.old }
    ensures config { ports.new.config ≡ ports.old.config }
    ensures sound { IsSound ports.new.config ports.new.history }
    ensures history { let entry = entry_after ports.old.config ports.old.history request.now in
        ports.new.history ≡ ports.old.history ++ entry ∷ [] }
    ensures written { let entry = entry_after ports.old.config ports.old.history request.now in
        OnOk result (string_bytes text.new ≡
        string_bytes text.old ++ line_of ports.old.config number entry) }
{
    let call = CallRef::of(&request.call);
    let reply = ports.answer(request.partition, request.at, call, buffer);
    let name = ports.config().partition_name(request.partition).text();
    push_entry(text, number, name, request.at, call, reply)
}
