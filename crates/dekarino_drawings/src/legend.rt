//! What the marks and the arrows of a chart mean.
use crate::svg::{offset, push_cross, push_square, push_text};
use std::alloc::AllocError;

/// The distance between the lines of the legend.
const LINE: usize = 18;

/// The middle of a mark.
const MARK: usize = 38;

/// Where the words begin.
const WORDS: usize = 76;

/// The legend, whose first line is at this height.
pub(crate) fn push_legend(svg: &mut String, y: usize) -> Result<(), AllocError> {
    writeln!(
        svg,
        "<circle class=\"call\" cx=\"{MARK}\" cy=\"{y}\" r=\"4\"/>"
    )?;
    push_words(svg, y, "a call that was answered NO_ERROR")?;
    let y = offset(y, LINE, 1);
    svg.push_str("<path class=\"refused\" d=\"")?;
    push_cross(svg, MARK, y)?;
    svg.push_str("/>\n")?;
    push_words(svg, y, "a call that was refused or not made")?;
    let y = offset(y, LINE, 1);
    push_line(svg, y, "message", "")?;
    push_circle(svg, y)?;
    push_words(svg, y, "from a send to the receive that took its message")?;
    let y = offset(y, LINE, 1);
    push_line(svg, y, "sample", "")?;
    push_circle(svg, y)?;
    push_words(
        svg,
        y,
        "from a write to a read that showed its sample as VALID",
    )?;
    let y = offset(y, LINE, 1);
    push_line(svg, y, "sample", "data-shows=\"INVALID\" ")?;
    svg.push_str("<")?;
    push_square(svg, 60, y)?;
    svg.push_str(" class=\"call\"/>\n")?;
    push_words(
        svg,
        y,
        "from a write to a read that showed its sample as INVALID",
    )?;
    let y = offset(y, LINE, 1);
    writeln!(
        svg,
        "<circle class=\"waits\" cx=\"{MARK}\" cy=\"{y}\" r=\"7\"/>"
    )?;
    push_words(svg, y, "a send whose message waits in the end")
}

/// An arrow to a mark.
fn push_line(svg: &mut String, y: usize, class: &str, shows: &str) -> Result<(), AllocError> {
    write!(
        svg,
        "<path class=\"{class}\" {shows}marker-end=\"url(#{class}-head)\" "
    )?;
    writeln!(svg, "d=\"M16 {y} H60\"/>")
}

/// The call at the end of an arrow.
fn push_circle(svg: &mut String, y: usize) -> Result<(), AllocError> {
    writeln!(svg, "<circle class=\"call\" cx=\"60\" cy=\"{y}\" r=\"4\"/>")
}

fn push_words(svg: &mut String, y: usize, words: &str) -> Result<(), AllocError> {
    push_text(svg, WORDS, y.saturating_add(4), " class=\"dim\"", words)
}
