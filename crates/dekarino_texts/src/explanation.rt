//! The explanation of a trace: each line with what comes of it, and then the remarks.
ghost use Rattle.std.specs.Prelude.{◌≡◌, ◌<◌, ◌∷◌, ◌++◌, [], List, length, position, Some, IfOk, IfErr, OnOk};
ghost use Rattle.dekarino_texts.specs.Prelude.{before_first, IsSound, entry_after, is_line_feed, trace_of};
ghost use Rattle.apex_texts.specs.declared.fault.Fault.TheVariants as faults;
ghost use Rattle.apex_texts.specs.declared.fault.TraceFault.TheVariants as traces;
ghost use Rattle.apex_texts.specs.LineFault.{number_of};
ghost use Rattle.dekarino_texts.specs.Explained.{IsExplained, AreAfter};
ghost use Rattle.dekarino_texts.specs.Explanation.{IsFaultOf, explanation_of, answered_after};
ghost use Rattle.dekarino_texts.specs.Handed.{IsHanded};
ghost use Rattle.dekarino_texts.specs.Notes.{AreNoted};
ghost use Rattle.dekarino_texts.specs.Remarks.{LineEntry};

use crate::notes::Notes;
use crate::remark::Remark;
use crate::remarks::remarks_of;
use apex_module::Config;
use apex_ports::{CallRef, Ports, Request, Row};
use apex_texts::trace::{ANY_REQUEST, read_trace_line};
use apex_texts::{Fault, LineFault, TraceFault, next_line};
use apex_types::Reply;
use std::alloc::{AllocError, Global};

/// A line of a trace with a call, and the row of the reply table and the reply that the call got.
#[derive(Debug, Drop)]
pub struct AnsweredCall<'a> {
    /// The number of the line, from 1.
    pub number: usize,
    /// The line, without the line feed.
    pub line: &'a [u8],
    pub request: &'a Request,
    pub row: Row,
    pub reply: &'a Reply,
}

/// Takes the lines of an explained trace, in order.
pub trait ExplanationSink {
    ghost use Rattle.std.specs.Prelude.{◌<◌, length, OnOk};
    ghost use Rattle.dekarino_texts.specs.Explanation.{ExplainedLine, line_answered, line_without_call, line_faulty};

    /// How the sink is before and after it takes a line.
    ghost takes: { Self → ExplainedLine → Self → Type 0 };

    /// Takes a line with a call.
    fn call(&mut self, config: &Config, call: &AnsweredCall<'_>) -> Result<(), AllocError>
        requires { call.now.request.now.partition < length config.now.partitions }
        ensures { OnOk result (takes self.old (line_answered call.now) self.new) };

    /// Takes a line without a call.
    fn line_without_call(&mut self, number: usize, line: &[u8]) -> Result<(), AllocError>
        ensures { OnOk result (takes self.old (line_without_call number line.now) self.new) };

    /// Takes the first faulty line. No line follows it.
    fn faulty_line(
        &mut self,
        number: usize,
        line: &[u8],
        fault: LineFault,
    ) -> Result<(), AllocError>
        ensures { OnOk result (takes self.old (line_faulty number line.now fault) self.new) };

    /// Takes the number of calls, the remarks, and the ports after the calls, after the last line of a trace without a
    /// fault.
    fn end(&mut self, calls: usize, remarks: &[Remark], ports: &Ports) -> Result<(), AllocError>;
}

/// The end of an explanation, after its lines.
#[derive(Debug, Drop)]
pub struct Explanation {
    /// The number of calls up to the fault.
    pub calls: usize,
    /// The fault of the trace, at whose line the explanation ends.
    pub fault: Option<TraceFault>,
    /// The remarks; none if the trace has a fault.
    pub remarks: Vec<Remark>,
}

/// An explanation, and the ports as its calls left them.
#[derive(Drop)]
pub struct Explained {
    pub explanation: Explanation,
    pub ports: Ports,
}

/// Explains a trace: the sink takes each line up to the first faulty one. Each line is read, served, noted and handed on
/// before the next one.
pub fn explain_trace<S: ExplanationSink>(
    alloc: Global,
    config: Config,
    trace: &[u8],
    sink: &mut S,
) -> Result<Explained, Fault>
    ensures lines { let lines = explanation_of config trace.now in
        OnOk result (IsHanded S.takes sink.old lines sink.new) }
    ensures ending { let lines = explanation_of config trace.now in
        IfOk result (λ ended. IsExplained config lines ended.explanation) }
    ensures fault { IfOk result
        (λ ended. IsFaultOf (trace_of config trace.now) ended.explanation.fault) }
    ensures ports { let lines = explanation_of config trace.now in
        IfOk result (λ ended. AreAfter config lines ended.ports) }
    ensures refused { IfErr result (λ why. why ≡ faults.Memory) }
{
    let mut ports = Ports::new(alloc, config)?;
    let explanation = explain_lines(alloc, &mut ports, trace, sink)?;
    Ok(Explained { explanation, ports })
}

/// Explains a trace whose calls new ports serve.
fn explain_lines<S: ExplanationSink>(
    alloc: Global,
    ports: &mut Ports,
    trace: &[u8],
    sink: &mut S,
) -> Result<Explanation, AllocError>
    requires fresh { ports.old.history ≡ [] }
    requires sound { IsSound ports.old.config ports.old.history }
    ensures lines { let lines = explanation_of ports.old.config trace.now in
        OnOk result (IsHanded S.takes sink.old lines sink.new) }
    ensures ending { let config = ports.old.config in
        IfOk result (IsExplained config (explanation_of config trace.now)) }
    ensures fault { let config = ports.old.config in
        IfOk result (λ ended. IsFaultOf (trace_of config trace.now) ended.fault) }
    ensures ports { let lines = explanation_of ports.old.config trace.now in
        OnOk result (AreAfter ports.old.config lines ports.new) }
{
    let mut notes = Notes::new(alloc);
    let mut request = ANY_REQUEST;
    let mut rest = trace;
    let mut number: usize = 0;
    while let Some((line, after)) = next_line(rest) {
        number += 1;
        match read_trace_line(ports.config(), line, &mut request) {
            Ok(true) => explain_call(ports, &mut notes, number, line, &request, sink)?,
            Ok(false) => sink.line_without_call(number, line)?,
            Err(fault) => {
                sink.faulty_line(number, first_line(rest), fault)?;
                return Ok(ended_by(alloc, notes.calls, number, fault));
            }
        }
        rest = after;
    }
    let calls = notes.calls;
    let remarks = remarks_of(ports, notes)?;
    Ok(Explanation {
        calls,
        fault: None,
        remarks,
    })
}

/// The end of an explanation at a faulty line.
fn ended_by(alloc: Global, calls: usize, line: usize, fault: LineFault) -> Explanation
    ensures calls { result.calls ≡ calls }
    ensures fault { result.fault ≡ Some (traces.Line line (number_of fault)) }
    ensures remarks { result.remarks.items ≡ [] }
{
    Explanation {
        calls,
        fault: Some(TraceFault::Line {
            line,
            fault: fault.number(),
        }),
        remarks: Vec::new(alloc),
    }
}

/// The bytes up to the first line feed.
fn first_line(text: &[u8]) -> &[u8]
    ensures { result.now ≡ before_first is_line_feed text.now }
{
    match line_feed_in(text) {
        Some(end) => &text[..end],
        None => text,
    }
}

fn line_feed_in(text: &[u8]) -> Option<usize>
    ensures { result ≡ position is_line_feed text.now }
{
    text.iter().position(|byte| *byte == b'\n')
}

/// Serves the request of a line, notes it, and hands it on with its row and its reply.
pub(crate) fn explain_call<S: ExplanationSink>(
    ports: &mut Ports,
    notes: &mut Notes,
    number: usize,
    line: &[u8],
    request: &Request,
    sink: &mut S,
) -> Result<(), AllocError>
    requires known { request.now.partition < length ports.old.config.partitions }
    requires room { notes.old.calls < number }
    ensures config { ports.new.config ≡ ports.old.config }
    ensures sound { IsSound ports.new.config ports.new.history }
    ensures history { let entry = entry_after ports.old.config ports.old.history request.now in
        ports.new.history ≡ ports.old.history ++ entry ∷ [] }
    ensures handed { let answered = answered_after
        ports.old.config ports.old.history number line.now request.now in
        OnOk result (S.takes sink.old answered sink.new) }
    ensures noted { let entry = entry_after ports.old.config ports.old.history request.now in
        let one : LineEntry = record { line = number; entry = entry } in
        OnOk result ((log : List LineEntry) → AreNoted ports.old.config log notes.old →
        AreNoted ports.old.config (log ++ one ∷ []) notes.new) }
{
    let (p, at, call) = (request.partition, request.at, &request.call);
    let row = ports.row(p, at, CallRef::of(call));
    let reply = ports.call(p, at, call);
    notes.note(ports.config(), number, request, &reply)?;
    let answered = AnsweredCall {
        number,
        line,
        request,
        row,
        reply: &reply,
    };
    sink.call(ports.config(), &answered)
}
