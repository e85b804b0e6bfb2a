//! Texts of a configuration, printed so that a line stays one line of ASCII.

use apex_types::Name;
use std::fmt;

/// The maximum number of characters of a text that are printed.
const SHOWN: usize = 64;

/// A text in quotes: its first 64 characters, with escapes for those that are not printable ASCII, and `..` after the
/// quotes if the text goes on.
#[derive(Clone, Copy)]
pub struct Quoted<'a>(pub &'a str);

impl fmt::Display for Quoted<'_> {
    fn fmt<W: fmt::Write>(&self, f: &mut fmt::Formatter<W>) -> fmt::Result {
        write_quoted(f, self.0)
    }
}

fn write_quoted<W: fmt::Write>(f: &mut fmt::Formatter<W>, text: &str) -> fmt::Result {
    f.write_str("\"")?;
    for (index, character) in text.chars().enumerate() {
        if index == SHOWN {
            return f.write_str("\"..");
        }
        write_escaped(f, character)?;
    }
    f.write_str("\"")
}

fn write_escaped<W: fmt::Write>(f: &mut fmt::Formatter<W>, character: char) -> fmt::Result {
    match character {
        '"' => f.write_str("\\\""),
        '\\' => f.write_str("\\\\"),
        ' '..='~' => f.write_char(character),
        _ => write!(f, "\\u{{{:x}}}", character as u32),
    }
}

/// A name as it is, and another text in quotes.
#[derive(Clone, Copy)]
pub struct Named<'a>(pub &'a str);

impl fmt::Display for Named<'_> {
    fn fmt<W: fmt::Write>(&self, f: &mut fmt::Formatter<W>) -> fmt::Result {
        if Name::read(self.0).is_ok() {
            f.write_str(self.0)
        } else {
            write!(f, "{}", Quoted(self.0))
        }
    }
}

/// A key: in backquotes if it is a name, and otherwise in quotes.
#[derive(Clone, Copy)]
pub struct QuotedKey<'a>(pub &'a str);

impl fmt::Display for QuotedKey<'_> {
    fn fmt<W: fmt::Write>(&self, f: &mut fmt::Formatter<W>) -> fmt::Result {
        if Name::read(self.0).is_ok() {
            write!(f, "`{}`", self.0)
        } else {
            write!(f, "{}", Quoted(self.0))
        }
    }
}
