//! What the drawings share: the frame of an SVG with its colours, and text in it.
ghost use Rattle.std.specs.Prelude.{◌≡◌, ◌+◌, ◌*◌, ◌<◌, ◌^◌, ◌++◌, string_bytes, IfOk, OnOk};
ghost use Rattle.dekarino_drawings.specs.Escaping.{escaped, escaped_char};

use std::alloc::{AllocError, Global};

/// The colours for light and dark mode. A stroke has the colour of its arrow's head.
static STYLE: [&str; 20] = [
    "<style>\n",
    ".paper{fill:#fff}.box{fill:#f6f8fa;stroke:#57606a}\n",
    "text{fill:#1f2328;font:11px ui-monospace,Menlo,Consolas,monospace}\n",
    ".name{font-size:13px;font-weight:bold}.dim{fill:#57606a;font-size:10px}\n",
    ".life{stroke:#8c959f}.guide{stroke:#d8dee4}.life,.guide{fill:none}\n",
    ".message,.sample,.refused,.waits,.call{fill:none;stroke-width:1.5}\n",
    ".message{stroke:#0969da}.message-head{fill:#0969da}\n",
    ".sample{stroke:#1a7f37;stroke-dasharray:5 3}.sample-head{fill:#1a7f37}\n",
    ".sample[data-shows]{stroke-dasharray:1 4}\n",
    ".refused{stroke:#cf222e}.waits{stroke:#bc4c00}\n",
    ".call{fill:#fff;stroke:#57606a}\n",
    "@media(prefers-color-scheme:dark){\n",
    ".paper{fill:#0d1117}.box{fill:#161b22;stroke:#8b949e}\n",
    "text{fill:#e6edf3}.dim{fill:#9198a1}\n",
    ".life{stroke:#6e7681}.guide{stroke:#21262d}\n",
    ".message{stroke:#58a6ff}.message-head{fill:#58a6ff}\n",
    ".sample{stroke:#3fb950}.sample-head{fill:#3fb950}\n",
    ".refused{stroke:#ff7b72}.waits{stroke:#f0883e}\n",
    ".call{fill:#0d1117;stroke:#8b949e}\n",
    "}</style>\n",
];

/// The text with `&amp;`, `&lt;`, `&gt;` and `&quot;` instead of the characters that they encode.
pub fn escaped(alloc: Global, text: &str) -> Result<String, AllocError>
    ensures { IfOk result (λ made. string_bytes made ≡ escaped text.now) }
{
    let mut made = String::with_capacity(alloc, text.len())?;
    for character in text.chars() {
        push_escaped(&mut made, character)?;
    }
    Ok(made)
}

/// Adds a character, or its escape.
fn push_escaped(made: &mut String, character: char) -> Result<(), AllocError>
    ensures { OnOk result
        (string_bytes made.new ≡ string_bytes made.old ++ escaped_char character) }
{
    match character {
        '&' => made.push_str("&amp;"),
        '<' => made.push_str("&lt;"),
        '>' => made.push_str("&gt;"),
        '"' => made.push_str("&quot;"),
        _ => made.push(character),
    }
}

/// The offset of the item with this number, from 0, if items are this far apart.
pub(crate) fn offset(first: usize, apart: usize, number: usize) -> usize {
    first.saturating_add(apart.saturating_mul(number))
}

/// A text at a point, with these further attributes.
pub(crate) fn push_text(
    svg: &mut String,
    x: usize,
    y: usize,
    attributes: &str,
    text: &str,
) -> Result<(), AllocError> {
    let text = escaped(*svg.allocator(), text)?;
    writeln!(svg, "<text x=\"{x}\" y=\"{y}\"{attributes}>{text}</text>")
}

/// The beginning of a drawing: its size, its style and the heads of its arrows, whose points lie this far before the
/// ends of their lines.
pub(crate) fn push_start(
    svg: &mut String,
    width: usize,
    height: usize,
    title: &str,
    gap: usize,
) -> Result<(), AllocError> {
    write!(
        svg,
        "<svg xmlns=\"http://www.w3.org/2000/svg\" width=\"{width}\" height=\"{height}\" "
    )?;
    writeln!(svg, "viewBox=\"0 0 {width} {height}\">")?;
    writeln!(svg, "<title>{title}</title>")?;
    for line in STYLE.iter() {
        svg.push_str(line)?;
    }
    svg.push_str("<defs>\n")?;
    push_arrow_head(svg, "message-head", gap)?;
    push_arrow_head(svg, "sample-head", gap)?;
    svg.push_str("</defs>\n")?;
    writeln!(
        svg,
        "<rect class=\"paper\" width=\"{width}\" height=\"{height}\"/>"
    )
}

/// The head of an arrow.
fn push_arrow_head(svg: &mut String, name: &str, gap: usize) -> Result<(), AllocError> {
    let point = offset(9, gap, 1);
    write!(
        svg,
        "<marker id=\"{name}\" markerUnits=\"userSpaceOnUse\" markerWidth=\"9\" "
    )?;
    write!(
        svg,
        "markerHeight=\"8\" refX=\"{point}\" refY=\"4\" orient=\"auto\">"
    )?;
    writeln!(
        svg,
        "<path class=\"{name}\" d=\"M0 0 L9 4 L0 8 Z\"/></marker>"
    )
}

/// The end of a drawing.
pub(crate) fn push_end(svg: &mut String) -> Result<(), AllocError> {
    svg.push_str("</svg>\n")
}

/// The ring around a call whose message waits.
pub(crate) fn push_ring(
    svg: &mut String,
    x: usize,
    y: usize,
    number: usize,
) -> Result<(), AllocError> {
    writeln!(
        svg,
        "<circle class=\"waits\" data-call=\"{number}\" cx=\"{x}\" cy=\"{y}\" r=\"7\"/>"
    )
}

/// The path of a cross around a point.
pub(crate) fn push_cross(svg: &mut String, x: usize, y: usize) -> Result<(), AllocError> {
    let (left, right) = (x.saturating_sub(4), x.saturating_add(4));
    let (top, bottom) = (y.saturating_sub(4), y.saturating_add(4));
    write!(svg, "M{left} {top} L{right} {bottom} ")?;
    write!(svg, "M{left} {bottom} L{right} {top}\"")
}

/// A square around a point.
pub(crate) fn push_square(svg: &mut String, x: usize, y: usize) -> Result<(), AllocError> {
    let (left, top) = (x.saturating_sub(4), y.saturating_sub(4));
    write!(
        svg,
        "rect x=\"{left}\" y=\"{top}\" width=\"8\" height=\"8\""
    )
}
