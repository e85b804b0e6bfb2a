//! The positions of a chart's parts.
use crate::chart::Chart;
use crate::svg::offset;
use apex_module::Config;

/// The distance between calls.
pub(crate) const ROW: usize = 20;

/// The width around a drawing, and between columns.
pub(crate) const MARGIN: usize = 16;

/// The greatest width of a character of a call's text.
const CHARACTER: usize = 7;

/// The greatest width of a character of a partition's name.
const NAME_CHARACTER: usize = 8;

/// The width of all lifelines, if there are too many to be far apart.
const LINES: usize = 690;

/// The minimum distance between lifelines that have room.
const LINE: usize = 140;

/// Sideways offset of an arrow that starts and ends on one lifeline.
pub(crate) const BOW: usize = 40;

/// The height of what follows the calls.
const LEGEND: usize = 148;

/// The minimum width of a drawing.
const LEAST_WIDTH: usize = 480;

/// The positions of a chart's parts.
#[derive(Clone, Copy)]
pub(crate) struct Frame {
    /// Where the calls' numbers end.
    pub(crate) numbers: usize,
    /// Where the calls' moments end.
    pub(crate) moments: usize,
    /// Where the calls' texts begin.
    pub(crate) texts: usize,
    /// The first lifeline.
    first: usize,
    /// The distance between lifelines.
    line: usize,
    /// Where lifelines begin.
    pub(crate) top: usize,
    /// Whether the names of the partitions are slanted.
    pub(crate) is_slanted: bool,
    pub(crate) width: usize,
    pub(crate) height: usize,
}

/// The frame of a chart whose texts are these.
pub(crate) fn frame_of(config: &Config, chart: &Chart, texts: &[String]) -> Frame {
    let calls = chart.calls.len();
    let numbers = offset(
        MARGIN,
        CHARACTER,
        digits(calls as u64).max(HEADINGS.0.len()),
    );
    let latest = chart
        .calls
        .iter()
        .fold(0, |latest, call| call.at.0.max(latest));
    let moments = offset(
        numbers.saturating_add(MARGIN),
        CHARACTER,
        digits(latest).max(HEADINGS.1.len()),
    );
    let begin = moments.saturating_add(MARGIN);
    let name = longest_name(config).saturating_mul(NAME_CHARACTER);
    let most = LINES.checked_div(config.partitions()).unwrap_or(LINES);
    let line = name.saturating_add(MARGIN).max(LINE).min(most);
    let is_slanted = name > line;
    // (a name at 45 degrees is less than three quarters as wide and as high)
    let slanted = name.saturating_mul(3) / 4;
    let (left, right, top) = if is_slanted {
        (MARGIN, slanted, slanted)
    } else {
        (name / 2, name / 2, MARGIN)
    };
    let first = end_of(begin, longest_of(texts)).saturating_add(left.max(MARGIN));
    let last = offset(first, line, config.partitions().saturating_sub(1));
    let top = top.saturating_add(34);
    Frame {
        numbers,
        moments,
        texts: begin,
        first,
        line,
        top,
        is_slanted,
        width: last
            .saturating_add(right.max(BOW))
            .saturating_add(MARGIN)
            .max(LEAST_WIDTH),
        height: offset(top.saturating_add(ROW + LEGEND), ROW, calls),
    }
}

/// The headings above the calls' numbers and their moments.
pub(crate) const HEADINGS: (&str, &str) = ("call", "moment");

/// The end of a call's text with this length that begins here.
pub(crate) fn end_of(begin: usize, length: usize) -> usize {
    offset(begin.saturating_add(MARGIN / 2), CHARACTER, length)
}

/// The number of decimal digits.
fn digits(number: u64) -> usize {
    let mut count: usize = 1;
    let mut rest = number / 10;
    // (no number has more than 20)
    for _ in 1..20 {
        if rest > 0 {
            count = count.saturating_add(1);
            rest /= 10;
        }
    }
    count
}

/// The bytes of the longest text.
fn longest_of(texts: &[String]) -> usize {
    texts
        .iter()
        .fold(0, |longest, text| text.len().max(longest))
}

/// The bytes of the longest name of a partition.
fn longest_name(config: &Config) -> usize {
    let mut longest = 0;
    for p in 0..config.partitions() {
        longest = config.partition_name(p).text().len().max(longest);
    }
    longest
}

/// The lifeline of partition `p`.
pub(crate) fn line_of(frame: Frame, p: usize) -> usize {
    offset(frame.first, frame.line, p)
}

/// The height of a call, by its index from 0.
pub(crate) fn height_of(frame: Frame, index: usize) -> usize {
    offset(frame.top.saturating_add(ROW), ROW, index)
}
