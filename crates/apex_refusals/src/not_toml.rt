//! The line for a text that is not TOML: where its reader stopped, and why.
use crate::header::header_at;
use std::alloc::{AllocError, Global};
use std::str;
use toml::de::Error;

/// The line and the column of an offset in a text, both from 1. A column counts characters.
fn line_and_column(text: &[u8], offset: usize) -> (usize, usize) {
    let mut line = 1usize;
    let mut column = 1usize;
    for byte in text.iter().take(offset) {
        if *byte == b'\n' {
            line = line.saturating_add(1);
            column = 1;
        } else if *byte & 0xC0 != 0x80 {
            column = column.saturating_add(1);
        }
    }
    (line, column)
}

/// The line for a text that is not TOML.
pub fn not_toml(alloc: Global, text: &[u8], error: &Error) -> Result<String, AllocError> {
    let Some(span) = error.span() else {
        return Err(AllocError);
    };
    let (line, column) = line_and_column(text, span.start);
    format!(in alloc; "line {line}, column {column}: {}\n", error.message())
}

/// The line for a file whose text is not TOML, with what was most likely meant.
pub fn not_toml_in_file(
    alloc: Global,
    file: &str,
    text: &[u8],
    error: &Error,
) -> Result<String, AllocError> {
    let Some(span) = error.span() else {
        return Err(AllocError);
    };
    let (line, column) = line_and_column(text, span.start);
    let mut lines = format!(in alloc; "{file}:{line}:{column}: not TOML: {}", error.message())?;
    if let Some(words) = advice(text, span.start) {
        write!(lines, "; {words}")?;
    }
    if let Some(header) = header_at(text, span.start) {
        write!(lines, "; write `{header}` for each")?;
    }
    lines.push('\n')?;
    Ok(lines)
}

/// What was most likely meant by a text whose reader stopped at this offset.
fn advice(text: &[u8], offset: usize) -> Option<&'static str> {
    if let Some(words) = other_form(text) {
        return Some(words);
    }
    let rest = text.get(offset..)?;
    if begins_comment(rest) {
        Some("a comment begins with `#`")
    } else if begins_quote(rest) {
        Some("a text takes straight quotes, as \"NAV\"")
    } else if rest.starts_with(b"\r") && !rest.starts_with(b"\r\n") {
        Some("a carriage return alone ends no line: end lines with a line feed")
    } else if str::from_utf8(text).is_err() {
        Some("save the file as UTF-8")
    } else {
        None
    }
}

/// Whether a text begins with what starts a comment in other languages.
fn begins_comment(text: &[u8]) -> bool {
    COMMENTS.iter().any(|mark| text.starts_with(mark))
}

const COMMENTS: [&[u8]; 4] = [b"//", b"/*", b"--", b";"];

/// Whether a text begins with a typographic quote.
fn begins_quote(text: &[u8]) -> bool {
    QUOTES
        .iter()
        .any(|quote| text.starts_with(quote.as_bytes()))
}

const QUOTES: [&str; 8] = [
    "\u{2018}", "\u{2019}", "\u{201a}", "\u{201c}", "\u{201d}", "\u{201e}", "\u{ab}", "\u{bb}",
];

/// The other form that a text seems to have, by its first bytes.
fn other_form(text: &[u8]) -> Option<&'static str> {
    if is_utf16(text) {
        return Some("this looks like UTF-16; save the file as UTF-8");
    }
    let first = text
        .strip_prefix(b"\xEF\xBB\xBF")
        .unwrap_or(text)
        .trim_ascii_start();
    if first.starts_with(b"{") {
        Some("this looks like JSON; a configuration is TOML")
    } else if first.starts_with(b"<") {
        Some("this looks like XML; a configuration is TOML")
    } else if first.starts_with(b"---") || first.starts_with(b"- ") || has_yaml_key(first) {
        Some("this looks like YAML; a configuration is TOML")
    } else {
        None
    }
}

/// Whether a text begins with a byte order mark of UTF-16, or like an ASCII character in UTF-16.
fn is_utf16(text: &[u8]) -> bool {
    if text.starts_with(b"\xFF\xFE") || text.starts_with(b"\xFE\xFF") {
        return true;
    }
    match (text.first(), text.get(1)) {
        (Some(first), Some(second)) => (*first == 0) != (*second == 0),
        _ => false,
    }
}

/// Whether a text begins with a key and a colon.
fn has_yaml_key(text: &[u8]) -> bool {
    let word = text
        .iter()
        .position(|byte| !(byte.is_ascii_alphanumeric() || *byte == b'_'));
    match word {
        Some(end) => text.get(end) == Some(&b':'),
        None => false,
    }
}
