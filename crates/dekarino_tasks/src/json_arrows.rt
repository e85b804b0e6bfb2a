//! The arrows between the calls of a trace as JSON.
use apex_types::Reply;
use dekarino_drawings::{Arrow, Chart};
use dekarino_search::push_object;
use serde::Serialize;
use std::alloc::{AllocError, Global};

/// How many calls a trace has, its arrows, and the calls that sent what waits in the end. Calls are numbered from 1.
#[derive(Drop, Serialize)]
struct ArrowsLine {
    calls: usize,
    arrows: Vec<ArrowObject>,
    waiting: Vec<usize>,
}

/// An arrow from a send to the receive that took its message, or from a write to a read that showed its sample.
#[derive(Drop, Serialize)]
struct ArrowObject {
    from: usize,
    to: usize,
    kind: &'static str,
}

/// The object of a chart's arrows.
pub(crate) fn arrows_object(alloc: Global, chart: &Chart) -> Result<String, AllocError> {
    let mut arrows = Vec::with_capacity(alloc, chart.arrows.len())?;
    for arrow in &chart.arrows {
        arrows.push(arrow_object(chart, *arrow))?;
    }
    let mut waiting = Vec::with_capacity(alloc, chart.waiting.len())?;
    for index in &chart.waiting {
        waiting.push(index.saturating_add(1))?;
    }
    let object = ArrowsLine {
        calls: chart.calls.len(),
        arrows,
        waiting,
    };
    let mut text = String::new(alloc);
    push_object(alloc, &mut text, &object)?;
    Ok(text)
}

fn arrow_object(chart: &Chart, arrow: Arrow) -> ArrowObject {
    let kind = match chart.calls.get(arrow.to) {
        Some(call) if matches!(call.reply, Reply::Read { .. }) => "sample",
        _ => "message",
    };
    ArrowObject {
        from: arrow.from.saturating_add(1),
        to: arrow.to.saturating_add(1),
        kind,
    }
}
