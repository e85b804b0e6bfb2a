//! The drawing of a configuration, or of the calls of a trace, and the arrows between these calls.
ghost use Rattle.std.specs.Prelude.{IfOk, IfSome};
ghost use Rattle.dekarino_tasks.specs.Contents.{IsChartOf};

use crate::json_arrows::arrows_object;
use apex_files::{Opener, Refusal, read_file};
use apex_texts::lines::line_words;
use apex_texts::next_line;
use dekarino_command_line::Form;
use dekarino_drawings::{CALL_LIMIT, Chart, DrawingFault, draw_chart, draw_module, read_chart};
use dekarino_search::{Outcome, Unfinished, read_config};
use std::alloc::Global;

/// The drawing of the configuration in a file, or of the calls of the trace in another.
pub(crate) fn draw<'a, O: Opener>(
    alloc: Global,
    opener: &O,
    config: &'a str,
    trace: Option<&'a str>,
) -> Result<Outcome, Unfinished<'a>> {
    let config = read_config(alloc, opener, config, Form::Text)?;
    let Some(trace) = trace else {
        return Ok(Outcome::Done(draw_module(alloc, &config)?.into_bytes()));
    };
    let bytes = read_file(alloc, opener, trace)?;
    if has_more_calls(bytes.as_slice(), CALL_LIMIT) {
        return Err(Unfinished::TooManyCalls {
            calls: CALL_LIMIT + 1,
        });
    }
    match draw_chart(alloc, config, bytes.as_slice()) {
        Ok(chart) => Ok(Outcome::Done(chart.into_bytes())),
        Err(DrawingFault::Text(fault)) => Err(Unfinished::Refused(Refusal::Text(fault))),
        Err(DrawingFault::TooManyCalls { calls }) => Err(Unfinished::TooManyCalls { calls }),
    }
}

/// The arrows between the calls of the trace in a file, and the calls that sent what waits in the end.
pub(crate) fn arrows_of_trace<'a, O: Opener>(
    alloc: Global,
    opener: &O,
    config: &'a str,
    trace: &'a str,
) -> Result<Outcome, Unfinished<'a>> {
    let chart = chart_of_file(alloc, opener, config, trace)?;
    let text = arrows_object(alloc, &chart)?;
    Ok(Outcome::Done(text.into_bytes()))
}

/// What the chart of the trace in a file shows, on the configuration in a file.
fn chart_of_file<'a, O: Opener>(
    alloc: Global,
    opener: &O,
    config: &'a str,
    trace: &'a str,
) -> Result<Chart, Unfinished<'a>>
    ensures { IfOk result (λ chart. IfSome (O.bytes_at opener.now config.now)
        (λ bytes. IfSome (O.bytes_at opener.now trace.now) (IsChartOf chart bytes))) }
{
    let config = read_config(alloc, opener, config, Form::Json)?;
    let bytes = read_file(alloc, opener, trace)?;
    let chart = read_chart(alloc, config, bytes.as_slice())?;
    Ok(chart)
}

/// Whether a trace has more lines with a call than this number. It is read up to the line that shows it.
fn has_more_calls(trace: &[u8], most: usize) -> bool {
    let mut calls: usize = 0;
    let mut rest = trace;
    for _ in 0..trace.len() {
        let Some((line, after)) = next_line(rest) else {
            return false;
        };
        if let Ok(Some(_)) = line_words(line) {
            calls = calls.saturating_add(1);
        }
        if calls > most {
            return true;
        }
        rest = after;
    }
    false
}
