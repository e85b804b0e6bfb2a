//! The calls of a trace or of a run, each beside its reply.
ghost use Rattle.std.specs.Prelude.{IfOk, IfSome};
ghost use Rattle.dekarino_tasks.specs.Contents.{IsExplanationOf};

use crate::json_explanation::ExplanationObjects;
use apex_files::{Opener, Refusal, read_file};
use apex_runs::run_order;
use apex_texts::Fault;
use apex_threads::OpenGate;
use dekarino_command_line::Form;
use dekarino_search::{Outcome, Scripts, Unfinished, mistakes_of_trace, read_config, read_scripts};
use dekarino_texts::{Explained, ExplanationSink, ExplanationText, explain_run, explain_trace};
use std::alloc::{AllocError, Global};
use std::sync::Wait;
use std::thread::Threads;

/// Explains the calls of the trace in a file, on the configuration in a file.
pub(crate) fn explain_trace_file<'a, O: Opener>(
    alloc: Global,
    opener: &O,
    config: &'a str,
    trace: &'a str,
    form: Form,
) -> Result<Outcome, Unfinished<'a>> {
    let (mut text, read) = match form {
        Form::Text => {
            let mut sink = ExplanationText::new(alloc, 0)?;
            let read = explain_file(alloc, opener, config, trace, form, &mut sink)?;
            end_explanation(&read.explained, &mut sink)?;
            (sink.into_bytes(), read)
        }
        Form::Json => {
            let mut sink = ExplanationObjects::new(alloc);
            let read = explain_file(alloc, opener, config, trace, form, &mut sink)?;
            end_explanation(&read.explained, &mut sink)?;
            (sink.into_bytes(), read)
        }
    };
    let Explained { explanation, ports } = &read.explained;
    let Some(fault) = explanation.fault else {
        return Ok(Outcome::Done(text));
    };
    let bytes = read.trace.as_slice();
    let mistakes = mistakes_of_trace(alloc, trace, ports.config(), bytes, form)?;
    push_mistakes(&mut text, mistakes.as_str(), form)?;
    Err(Unfinished::RefusedWithText {
        text,
        refusal: Refusal::Text(Fault::from(fault)),
    })
}

/// The explanation of a trace, with its text.
#[derive(Drop)]
struct ExplainedFile {
    explained: Explained,
    trace: Vec<u8>,
}

/// Hands the explanation of the trace in a file, on the configuration in a file, to a sink, but not its end.
fn explain_file<'a, O: Opener, S: ExplanationSink>(
    alloc: Global,
    opener: &O,
    config: &'a str,
    trace: &'a str,
    form: Form,
    sink: &mut S,
) -> Result<ExplainedFile, Unfinished<'a>>
    ensures { IfOk result (λ read. IfSome (O.bytes_at opener.now config.now)
        (λ bytes. IfSome (O.bytes_at opener.now trace.now)
        (IsExplanationOf S.takes sink.old sink.new read.explained.explanation bytes))) }
{
    let config = read_config(alloc, opener, config, form)?;
    let trace = read_file(alloc, opener, trace)?;
    let explained = explain_trace(alloc, config, trace.as_slice(), sink)?;
    Ok(ExplainedFile { explained, trace })
}

/// Hands the end of an explanation without a fault to the sink.
fn end_explanation<S: ExplanationSink>(
    explained: &Explained,
    sink: &mut S,
) -> Result<(), AllocError> {
    let Explained { explanation, ports } = explained;
    match explanation.fault {
        None => sink.end(explanation.calls, explanation.remarks.as_slice(), ports),
        Some(_) => Ok(()),
    }
}

/// Adds the mistakes after an explanation; in a text, after an empty line.
fn push_mistakes(text: &mut Vec<u8>, mistakes: &str, form: Form) -> Result<(), AllocError> {
    if let (Form::Text, false) = (form, mistakes.is_empty()) {
        text.push(b'\n')?;
    }
    text.extend_from_slice(mistakes.as_bytes())
}

/// Explains the calls of a run of the scripts that the arguments name, in the order in which they were made.
pub(crate) fn explain_scripts<'a, R: Threads + Wait + Sync, O: Opener>(
    rt: &R,
    alloc: Global,
    opener: &O,
    config: &'a str,
    arguments: &[&'a str],
    form: Form,
) -> Result<Outcome, Unfinished<'a>> {
    let config = read_config(alloc, opener, config, form)?;
    let Scripts { scripts, lines: _ } = read_scripts(alloc, opener, &config, arguments, form)?;
    let scripts = scripts.as_slice();
    let order = run_order(rt, alloc, &config, scripts, &OpenGate)?;
    match form {
        Form::Text => {
            let mut sink = ExplanationText::new(alloc, 0)?;
            let explained = explain_run(alloc, config, scripts, order.as_slice(), &mut sink)?;
            end_explanation(&explained, &mut sink)?;
            Ok(Outcome::Done(sink.into_bytes()))
        }
        Form::Json => {
            let mut sink = ExplanationObjects::new(alloc);
            let explained = explain_run(alloc, config, scripts, order.as_slice(), &mut sink)?;
            end_explanation(&explained, &mut sink)?;
            Ok(Outcome::Done(sink.into_bytes()))
        }
    }
}
