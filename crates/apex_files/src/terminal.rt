//! An output that may be a terminal, on which the control characters of a text could move the cursor or hide text.
ghost use Rattle.std.specs.Prelude.{◌≡◌, take, IfOk, OnOk};
ghost use Rattle.std.specs.Io.{WritesAtMost};
ghost use Rattle.std.specs.Io.KnownBytes.{Appends, WriteAppends};
ghost use Rattle.apex_files.specs.Terminal.{contents_of, is_control, is_second_byte, begins_second_byte, is_escaped, escape, escaped, shown};

use std::io;
use std::io::{IsTerminal, Write};

/// An output that may be a terminal. If it is one, each control character other than the tab and the newline is written
/// as `\x` and two digits for each of its bytes. Otherwise each byte is written unchanged.
#[derive(Debug, Drop)]
pub struct Shown<W> {
    output: W,
    is_terminal: bool,
}

impl<W: Write + IsTerminal> Shown<W> {
    /// Wraps an output, and finds out whether it is a terminal.
    pub fn new(output: W) -> Shown<W>
        ensures { result.output ≡ output }
    {
        let is_terminal = output.is_terminal();
        Shown {
            output,
            is_terminal,
        }
    }
}

impl<W: Write> Write for Shown<W> {
    ghost contents = { λ shown. contents_of shown.is_terminal (W.contents shown.output) };

    fn write(&mut self, buf: &[u8]) -> io::Result<usize>
        ensures bound { WritesAtMost result buf.now }
        ensures bytes { let old = contents_of self.old.is_terminal (W.contents self.old.output) in
            let new = contents_of self.new.is_terminal (W.contents self.new.output) in
            WriteAppends old new result buf.now }
        ensures shown { let old = W.contents self.old.output in
            let new = W.contents self.new.output in
            IfOk result (λ count. Appends old new
            (shown self.old.is_terminal (take count buf.now))) }
        ensures terminal { self.new.is_terminal ≡ self.old.is_terminal }
    {
        if self.is_terminal {
            write_escaped(&mut self.output, buf)?;
            return Ok(buf.len());
        }
        self.output.write(buf)
    }

    fn flush(&mut self) -> io::Result<()> {
        self.output.flush()
    }

    fn write_all(&mut self, buf: &[u8]) -> io::Result<()>
        ensures bytes { let old = contents_of self.old.is_terminal (W.contents self.old.output) in
            let new = contents_of self.new.is_terminal (W.contents self.new.output) in
            OnOk result (Appends old new buf.now) }
        ensures shown { let old = W.contents self.old.output in
            let new = W.contents self.new.output in
            OnOk result (Appends old new (shown self.old.is_terminal buf.now)) }
        ensures terminal { self.new.is_terminal ≡ self.old.is_terminal }
    {
        if self.is_terminal {
            return write_escaped(&mut self.output, buf);
        }
        self.output.write_all(buf)
    }
}

/// Writes a text with its control characters as escapes. What is between two escapes is written in one piece.
fn write_escaped<W: Write>(output: &mut W, text: &[u8]) -> io::Result<()>
    ensures { OnOk result
        (Appends (W.contents output.old) (W.contents output.new) (escaped text.now)) }
{
    let mut waiting = text;
    let mut rest = text;
    let mut before = 0;
    while let Some((byte, after)) = rest.split_first() {
        let byte = *byte;
        if is_escaped(before, byte, after) {
            output.write_all(&waiting[..waiting.len() - rest.len()])?;
            write_escape(output, byte)?;
            waiting = after;
        }
        before = byte;
        rest = after;
    }
    output.write_all(waiting)
}

/// Whether a byte between these is escaped: it is a control character, or one of the two bytes of U+0080 to U+009F. The
/// second of them is also escaped after an ASCII byte.
fn is_escaped(before: u8, byte: u8, after: &[u8]) -> bool
    ensures { result ≡ is_escaped before byte after.now }
{
    is_control(byte)
        || byte == 0xc2 && begins_second_byte(after)
        || is_second_byte(byte) && (before < 0x80 || before == 0xc2)
}

/// Whether a byte is a control character other than the tab and the newline.
fn is_control(byte: u8) -> bool
    ensures { result ≡ is_control byte }
{
    byte < 0x20 && byte != b'\t' && byte != b'\n' || byte == 0x7f
}

/// Whether a byte is the second one of U+0080 to U+009F, or of another character.
fn is_second_byte(byte: u8) -> bool
    ensures { result ≡ is_second_byte byte }
{
    0x80 <= byte && byte < 0xa0
}

/// Whether the first of these is such a byte.
fn begins_second_byte(bytes: &[u8]) -> bool
    ensures { result ≡ begins_second_byte bytes.now }
{
    match bytes.first() {
        Some(byte) => is_second_byte(*byte),
        None => false,
    }
}

/// Writes a byte as `\x` and two hexadecimal digits.
fn write_escape<W: Write>(output: &mut W, byte: u8) -> io::Result<()>
    ensures { OnOk result
        (Appends (W.contents output.old) (W.contents output.new) (escape byte)) }
{
    write!(output, "\\x{byte:02x}")
}
