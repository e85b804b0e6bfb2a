//! Reads what a trace's chart shows.
ghost use Rattle.std.specs.Prelude.{◌≡◌, ◌<◌, ◌++◌, [], ◌∷◌, length, IfOk, MatchResult};
ghost use Rattle.dekarino_drawings.specs.Prelude.{request_of, Answers};
ghost use Rattle.apex_ports.specs.Sound.{IsSound};
ghost use Rattle.apex_texts.specs.Trace.{HavePartitions};
ghost use Rattle.dekarino_drawings.specs.Chart.{IsChart, IsChartOf, IsDrawn, IsNotDrawn, IsNotRead};

use crate::arrows::arrows_and_waiting;
use crate::chart::{CALL_LIMIT, Chart};
use crate::fault::DrawingFault;
use apex_module::Config;
use apex_ports::{CallRef, Entry, Ports, Request, Row};
use apex_texts::Fault;
use apex_texts::trace::read_trace;
use apex_types::OutOfMemory;
use std::alloc::{AllocError, Global};

/// What a trace's chart shows: its calls on new ports of the configuration with their replies, and what happened to
/// their messages.
pub fn read_chart(alloc: Global, config: Config, trace: &[u8]) -> Result<Chart, Fault>
    ensures { MatchResult result
        (IsChart config trace.now) (IsNotRead config trace.now) }
{
    let requests = read_trace(alloc, &config, trace)?;
    Ok(chart_of(alloc, config, requests.as_slice())?)
}

/// The same, for a trace with no more calls than are drawn.
pub(crate) fn read_drawn_chart(
    alloc: Global,
    config: Config,
    trace: &[u8],
) -> Result<Chart, DrawingFault>
    ensures drawn { MatchResult result
        (λ _. IsDrawn config trace.now) (IsNotDrawn config trace.now) }
    ensures chart { IfOk result (IsChart config trace.now) }
{
    let requests = read_trace(alloc, &config, trace)?;
    if requests.len() > CALL_LIMIT {
        return Err(DrawingFault::TooManyCalls {
            calls: requests.len(),
        });
    }
    Ok(chart_of(alloc, config, requests.as_slice())?)
}

/// What the chart of these requests shows.
fn chart_of(alloc: Global, config: Config, requests: &[Request]) -> Result<Chart, OutOfMemory>
    requires { HavePartitions config requests.now }
    ensures { IfOk result (IsChartOf config requests.now) }
{
    let mut ports = Ports::new(alloc, config)?;
    let mut rows = Vec::new(alloc);
    let calls = serve(alloc, &mut ports, requests, &mut rows)?;
    let (arrows, waiting) = arrows_and_waiting(alloc, ports.config(), calls.as_slice())?;
    Ok(Chart {
        calls,
        rows,
        arrows,
        waiting,
    })
}

/// The requests with the replies of new ports. Their rows are added.
fn serve(
    alloc: Global,
    ports: &mut Ports,
    requests: &[Request],
    rows: &mut Vec<Row>,
) -> Result<Vec<Entry>, AllocError>
    requires fresh { ports.old.history ≡ [] }
    requires sound { IsSound ports.old.config ports.old.history }
    requires known { HavePartitions ports.old.config requests.now }
    ensures config { ports.new.config ≡ ports.old.config }
    ensures served { IfOk result
        (λ calls. Answers ports.old.config requests.now calls.items) }
{
    let mut calls = Vec::with_capacity(alloc, requests.len())?;
    for request in requests {
        let call = CallRef::of(&request.call);
        rows.push(ports.row(request.partition, request.at, call))?;
        calls.push(served(ports, request))?;
    }
    Ok(calls)
}

/// A request with its reply.
fn served(ports: &mut Ports, request: &Request) -> Entry
    requires { request.now.partition < length ports.old.config.partitions }
    ensures config { ports.new.config ≡ ports.old.config }
    ensures sound { IsSound ports.new.config ports.new.history }
    ensures history { ports.new.history ≡ ports.old.history ++ result ∷ [] }
    ensures request { request_of result ≡ request.now }
{
    let reply = ports.call(request.partition, request.at, &request.call);
    Entry {
        partition: request.partition,
        at: request.at,
        call: request.call.copy(),
        reply,
    }
}
