//! The drawing of a trace's calls: at the left a text for each call, at the right a lifeline for each partition with
//! its calls from top to bottom, and an arrow to each call that showed a message from the one that sent it.
ghost use Rattle.std.specs.Prelude.{MatchResult};
ghost use Rattle.dekarino_drawings.specs.Chart.{IsDrawn, IsNotDrawn};

use crate::arrow::Arrow;
use crate::call_text::call_text;
use crate::chart::Chart;
use crate::fault::DrawingFault;
use crate::frame::{BOW, Frame, HEADINGS, ROW, end_of, frame_of, height_of, line_of};
use crate::legend::push_legend;
use crate::reading::read_drawn_chart;
use crate::svg::{
    escaped, offset, push_cross, push_end, push_ring, push_square, push_start, push_text,
};
use apex_module::Config;
use apex_ports::{CallRef, Entry};
use apex_types::{Reply, ReturnCode, Validity};
use apex_words::push_words;
use std::alloc::{AllocError, Global};

/// The drawing of a trace's calls on new ports of a configuration, as an SVG.
pub fn draw_chart(alloc: Global, config: Config, trace: &[u8]) -> Result<String, DrawingFault>
    ensures { MatchResult result
        (λ _. IsDrawn config trace.now) (IsNotDrawn config trace.now) }
{
    let names = config.copy()?;
    let chart = read_drawn_chart(alloc, config, trace)?;
    Ok(chart_text(alloc, &names, &chart)?)
}

fn chart_text(alloc: Global, config: &Config, chart: &Chart) -> Result<String, AllocError> {
    let calls = chart.calls.as_slice();
    let texts = texts_of(alloc, config, chart)?;
    let frame = frame_of(config, chart, texts.as_slice());
    let mut svg = String::new(alloc);
    push_start(&mut svg, frame.width, frame.height, "Trace", 4)?;
    push_headings(&mut svg, frame)?;
    for (index, (call, text)) in calls.iter().zip(texts.iter()).enumerate() {
        push_call_text(&mut svg, frame, index, call, text.as_str())?;
    }
    push_life_lines(&mut svg, config, frame, calls.len())?;
    for arrow in &chart.arrows {
        push_arrow(&mut svg, frame, calls, *arrow)?;
    }
    for (index, call) in calls.iter().enumerate() {
        let waits = chart.waiting.as_slice().contains(&index);
        let words = row_words(alloc, config, chart, index)?;
        push_mark(&mut svg, frame, index, call, words.as_str(), waits)?;
    }
    push_legend(&mut svg, height_of(frame, calls.len()).saturating_add(ROW))?;
    push_end(&mut svg)?;
    Ok(svg)
}

/// The words of the row that a call got; an accepted call has none.
fn row_words(
    alloc: Global,
    config: &Config,
    chart: &Chart,
    index: usize,
) -> Result<String, AllocError> {
    let mut words = String::new(alloc);
    let (Some(call), Some(row)) = (chart.calls.get(index), chart.rows.get(index)) else {
        return Ok(words);
    };
    if call.partition < config.partitions() {
        let asked = CallRef::of(&call.call);
        push_words(&mut words, config, call.partition, asked, *row)?;
    }
    Ok(words)
}

/// The text beside each call.
fn texts_of(alloc: Global, config: &Config, chart: &Chart) -> Result<Vec<String>, AllocError> {
    let mut texts = Vec::new(alloc);
    for (index, call) in chart.calls.iter().enumerate() {
        let waits = chart.waiting.as_slice().contains(&index);
        let words = row_words(alloc, config, chart, index)?;
        texts.push(call_text(alloc, config, call, words.as_str(), waits)?)?;
    }
    Ok(texts)
}

/// The lifelines with the names of their partitions.
fn push_life_lines(
    svg: &mut String,
    config: &Config,
    frame: Frame,
    calls: usize,
) -> Result<(), AllocError> {
    let end = height_of(frame, calls);
    for p in 0..config.partitions() {
        let (x, top) = (line_of(frame, p), frame.top);
        writeln!(svg, "<path class=\"life\" d=\"M{x} {top} V{end}\"/>")?;
        push_partition_name(svg, frame, x, config.partition_name(p).text())?;
    }
    Ok(())
}

/// The name above a lifeline.
fn push_partition_name(
    svg: &mut String,
    frame: Frame,
    x: usize,
    name: &str,
) -> Result<(), AllocError> {
    let y = frame.top.saturating_sub(10);
    if frame.is_slanted {
        let alloc = *svg.allocator();
        let turn = format!(in alloc; " class=\"name\" transform=\"rotate(-45 {x} {y})\"")?;
        push_text(svg, x, y, turn.as_str(), name)
    } else {
        push_text(svg, x, y, " class=\"name\" text-anchor=\"middle\"", name)
    }
}

/// The headings of the columns of numbers and moments.
fn push_headings(svg: &mut String, frame: Frame) -> Result<(), AllocError> {
    let y = frame.top.saturating_sub(10);
    push_text(
        svg,
        frame.numbers,
        y,
        " class=\"dim\" text-anchor=\"end\"",
        HEADINGS.0,
    )?;
    push_text(
        svg,
        frame.moments,
        y,
        " class=\"dim\" text-anchor=\"end\"",
        HEADINGS.1,
    )
}

/// The number, the moment and the text of a call, and a thin line from them to the call.
fn push_call_text(
    svg: &mut String,
    frame: Frame,
    index: usize,
    call: &Entry,
    text: &str,
) -> Result<(), AllocError> {
    let (x, y) = (line_of(frame, call.partition), height_of(frame, index));
    let end = end_of(frame.texts, text.len());
    writeln!(svg, "<path class=\"guide\" d=\"M{end} {y} H{x}\"/>")?;
    let alloc = *svg.allocator();
    let number = format!(in alloc; "{}", offset(1, 1, index))?;
    let moment = format!(in alloc; "{}", call.at.0)?;
    let y = y.saturating_add(4);
    push_text(
        svg,
        frame.numbers,
        y,
        " text-anchor=\"end\"",
        number.as_str(),
    )?;
    push_text(
        svg,
        frame.moments,
        y,
        " text-anchor=\"end\"",
        moment.as_str(),
    )?;
    push_text(svg, frame.texts, y, "", text)
}

/// An arrow, with the printed numbers of its calls.
fn push_arrow(
    svg: &mut String,
    frame: Frame,
    calls: &[Entry],
    arrow: Arrow,
) -> Result<(), AllocError> {
    let (Some(from), Some(to)) = (calls.get(arrow.from), calls.get(arrow.to)) else {
        return Ok(());
    };
    let (class, shows) = match to.reply {
        Reply::Read {
            validity: Validity::Invalid,
            ..
        } => ("sample", "data-shows=\"INVALID\" "),
        Reply::Read { .. } => ("sample", ""),
        _ => ("message", ""),
    };
    let (sent, shown) = (offset(1, 1, arrow.from), offset(1, 1, arrow.to));
    write!(
        svg,
        "<path class=\"{class}\" data-from=\"{sent}\" data-to=\"{shown}\" {shows}"
    )?;
    write!(svg, "marker-end=\"url(#{class}-head)\" d=\"")?;
    let (start, end) = (line_of(frame, from.partition), line_of(frame, to.partition));
    push_course(
        svg,
        start,
        height_of(frame, arrow.from),
        end,
        height_of(frame, arrow.to),
    )?;
    writeln!(svg, "\"/>")
}

/// A line from a call to a later one; a bow if both are on one lifeline.
fn push_course(
    svg: &mut String,
    x: usize,
    y: usize,
    to_x: usize,
    to_y: usize,
) -> Result<(), AllocError> {
    if x == to_x {
        let bow = x.saturating_add(BOW);
        write!(svg, "M{x} {y} C{bow} {y} {bow} {to_y} {x} {to_y}")
    } else {
        write!(svg, "M{x} {y} L{to_x} {to_y}")
    }
}

/// A circle if the call got NO_ERROR, a square if a read showed an INVALID sample, and a ring if a message waits at the
/// end; a cross, with the words of the row, if the call was refused or not made.
fn push_mark(
    svg: &mut String,
    frame: Frame,
    index: usize,
    call: &Entry,
    words: &str,
    waits: bool,
) -> Result<(), AllocError> {
    let (x, y) = (line_of(frame, call.partition), height_of(frame, index));
    let number = offset(1, 1, index);
    if waits {
        push_ring(svg, x, y, number)?;
    }
    if call.reply.code() != Some(ReturnCode::NoError) {
        let code = call.reply.code().map_or("not made", |code| code.word());
        let words = escaped(*svg.allocator(), words)?;
        write!(svg, "<path class=\"refused\" data-call=\"{number}\" d=\"")?;
        push_cross(svg, x, y)?;
        return writeln!(svg, "><title>{code} ({words})</title></path>");
    }
    write!(svg, "<")?;
    match call.reply {
        Reply::Read {
            validity: Validity::Invalid,
            ..
        } => push_square(svg, x, y)?,
        _ => write!(svg, "circle cx=\"{x}\" cy=\"{y}\" r=\"4\"")?,
    }
    writeln!(svg, " class=\"call\" data-call=\"{number}\"/>")
}
