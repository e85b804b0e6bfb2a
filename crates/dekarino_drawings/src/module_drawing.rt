//! The drawing of a module: the partitions in two columns with their ports, and a lane for each channel between the
//! columns. A row of a column is a partition's name, a port or a gap. The right column is half a row lower than the
//! left one, so that no two lines coincide.
ghost use Rattle.std.specs.Prelude.{◌<◌, length};

use crate::svg::{offset, push_end, push_start, push_text};
use apex_module::{Channel, ChannelKind, Config, Port, PortKind};
use apex_types::Direction;
use std::alloc::{AllocError, Global};

/// The distance between rows.
const ROW: usize = 36;

/// The width around a drawing.
const MARGIN: usize = 16;

/// The width of a partition's box.
const BOX: usize = 252;

/// The width beside a box in which a line has its channel's name.
const LABELS: usize = 212;

/// The distance from a box to where a channel's name begins or ends.
const LABEL: usize = 13;

/// The distance between lanes.
const LANE: usize = 16;

/// The maximum width of all lanes.
const LANES: usize = 304;

/// The positions of a drawing's parts from left to right.
#[derive(Clone, Copy)]
struct Columns {
    /// The first lane.
    first_lane: usize,
    /// The distance between lanes.
    lane: usize,
    /// The inner side of the right boxes.
    right: usize,
}

/// Where a port's line begins or ends: at the inner side of its partition's box.
#[derive(Clone, Copy)]
struct End {
    x: usize,
    y: usize,
    is_left: bool,
}

/// The drawing of a module, as an SVG: the partitions with their ports, and an arrow on each channel from its source to
/// each of its destinations.
pub fn draw_module(alloc: Global, config: &Config) -> Result<String, AllocError> {
    let columns = columns_of(config);
    let count = config.partitions();
    let rows = rows_above(config, 0, count).max(rows_above(config, 1, count));
    let width = columns.right.saturating_add(BOX + MARGIN);
    let mut svg = String::new(alloc);
    push_start(&mut svg, width, offset(2 * MARGIN, ROW, rows), "Module", 0)?;
    for p in 0..count {
        push_partition(&mut svg, config, columns, p)?;
    }
    push_end(&mut svg)?;
    Ok(svg)
}

fn columns_of(config: &Config) -> Columns {
    let lane = match LANES.checked_div(config.channels()) {
        Some(lane) => lane.min(LANE),
        None => LANE,
    };
    let first_lane = MARGIN + BOX + LABELS + LANE;
    Columns {
        first_lane,
        lane,
        right: offset(first_lane + LABELS, lane, config.channels()),
    }
}

/// The number of rows of the partitions of a column below number `p`. Column 0 is the left one.
fn rows_above(config: &Config, column: usize, p: usize) -> usize {
    let mut rows: usize = 0;
    for other in 0..config.partitions() {
        if other < p && other % 2 == column {
            rows = rows.saturating_add(config.ports(other)).saturating_add(2);
        }
    }
    rows
}

/// Where the line of a port of partition `p` begins or ends. The port is given by its index, from 0.
fn end_of(config: &Config, columns: Columns, p: usize, index: usize) -> End {
    let is_left = p % 2 == 0;
    let top = if is_left { MARGIN } else { MARGIN + ROW / 2 };
    let rows = rows_above(config, p % 2, p).saturating_add(index);
    End {
        x: if is_left { MARGIN + BOX } else { columns.right },
        y: offset(top + ROW + ROW / 2, ROW, rows),
        is_left,
    }
}

/// A partition's box with its ports.
fn push_partition(
    svg: &mut String,
    config: &Config,
    columns: Columns,
    p: usize,
) -> Result<(), AllocError>
    requires { p < length config.now.partitions }
{
    let first = end_of(config, columns, p, 0);
    let x = if first.is_left { MARGIN } else { first.x };
    let y = first.y.saturating_sub(ROW + ROW / 2);
    let height = offset(ROW, ROW, config.ports(p));
    write!(svg, "<rect class=\"box\" x=\"{x}\" y=\"{y}\" ")?;
    writeln!(svg, "width=\"{BOX}\" height=\"{height}\" rx=\"4\"/>")?;
    let name = config.partition_name(p).text();
    push_text(
        svg,
        offset(x, 8, 1),
        offset(y, 23, 1),
        " class=\"name\"",
        name,
    )?;
    for index in 0..config.ports(p) {
        let port = config.port(p, index as u32 + 1).unwrap();
        push_port(svg, port, index, end_of(config, columns, p, index), x)?;
        push_channel(
            svg,
            config,
            columns,
            port,
            end_of(config, columns, p, index),
        )?;
    }
    Ok(())
}

/// A port's name with its identifier, and its kind. The box begins at `x`.
fn push_port(
    svg: &mut String,
    port: &Port,
    index: usize,
    end: End,
    x: usize,
) -> Result<(), AllocError> {
    let alloc = *svg.allocator();
    let x = offset(x, 12, 1);
    let name = format!(in alloc; "{} {}", offset(1, 1, index), port.name.text())?;
    push_text(svg, x, end.y, "", name.as_str())?;
    let kind = match port.kind {
        PortKind::Queuing => format!(in alloc; "queuing {}", word_of(port.direction))?,
        PortKind::Sampling { refresh } => { format!(in alloc; "sampling, refresh {refresh} ns")? }
    };
    push_text(
        svg,
        x,
        offset(end.y, 12, 1),
        " class=\"dim\"",
        kind.as_str(),
    )
}

fn word_of(direction: Direction) -> &'static str {
    match direction {
        Direction::Source => "source",
        Direction::Destination => "destination",
    }
}

/// The channel's name at a port's line; at the source also what the channel carries, and at a destination the arrow
/// from the source.
fn push_channel(
    svg: &mut String,
    config: &Config,
    columns: Columns,
    port: &Port,
    end: End,
) -> Result<(), AllocError>
    requires { port.now.channel < length config.now.channels }
{
    let channel = config.channel(port.channel);
    push_label(svg, end, end.y.saturating_sub(5), "", channel.name.text())?;
    match port.direction {
        Direction::Source => {
            let carries = carries(*svg.allocator(), channel)?;
            push_label(
                svg,
                end,
                offset(end.y, 12, 1),
                " class=\"dim\"",
                carries.as_str(),
            )
        }
        Direction::Destination => match source_of(config, columns, port.channel) {
            Some(source) => push_arrow(
                svg,
                channel.kind,
                source,
                offset(columns.first_lane, columns.lane, port.channel),
                end,
            ),
            None => Ok(()),
        },
    }
}

/// What a channel carries, in words.
fn carries(alloc: Global, channel: &Channel) -> Result<String, AllocError> {
    let size = channel.size;
    match channel.kind {
        ChannelKind::Queuing { depth } => {
            format!(in alloc; "queuing, size {size}, depth {depth}")
        }
        ChannelKind::Sampling => format!(in alloc; "sampling, size {size}"),
    }
}

/// A text beside a box, at the line that begins or ends there.
fn push_label(
    svg: &mut String,
    end: End,
    y: usize,
    class: &str,
    text: &str,
) -> Result<(), AllocError> {
    if end.is_left {
        push_text(svg, offset(end.x, LABEL, 1), y, class, text)
    } else {
        let alloc = *svg.allocator();
        let attributes = format!(in alloc; "{class} text-anchor=\"end\"")?;
        push_text(
            svg,
            end.x.saturating_sub(LABEL),
            y,
            attributes.as_str(),
            text,
        )
    }
}

/// Where the line of channel `c`'s source begins.
fn source_of(config: &Config, columns: Columns, c: usize) -> Option<End> {
    for p in 0..config.partitions() {
        for index in 0..config.ports(p) {
            let port = config.port(p, index as u32 + 1).unwrap();
            if port.channel == c && port.direction == Direction::Source {
                return Some(end_of(config, columns, p, index));
            }
        }
    }
    None
}

/// An arrow along a channel's lane.
fn push_arrow(
    svg: &mut String,
    kind: ChannelKind,
    source: End,
    lane: usize,
    destination: End,
) -> Result<(), AllocError> {
    let class = if kind.is_queuing() {
        "message"
    } else {
        "sample"
    };
    write!(
        svg,
        "<path class=\"{class}\" marker-end=\"url(#{class}-head)\" "
    )?;
    write!(svg, "d=\"M{} {} H{lane} ", source.x, source.y)?;
    writeln!(svg, "V{} H{}\"/>", destination.y, destination.x)
}
