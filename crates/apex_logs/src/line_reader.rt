//! The lines of what a reader gives piece by piece, in constant memory.
ghost use Rattle.std.specs.Prelude.{◌≡◌, ◌<◌, ◌≤◌, true, false, length, option_map, position, IfOk, OnOk};
ghost use Rattle.apex_logs.specs.Prelude.{lines, strip_carriage_return, is_line_feed};
ghost use Rattle.std.specs.Io.KnownBytes.{Consumes, IsAtEnd, Keeps};
ghost use Rattle.apex_logs.specs.LineSource.{IsNextLine, text_left, lines_left, IsPart};

use crate::line_source::{LineSource, ReadError};
use memchr::memchr;
use std::alloc::{AllocError, Global};
use std::io;
use std::io::{ErrorKind, Read};

/// The most bytes of a line that comes from a reader, without the end of the line.
pub const LINE_LIMIT: usize = 65_536;

/// The bytes that are asked for in one read.
const PIECE_BYTES: usize = 65_536;

/// The lines of a reader.
#[derive(Debug, Drop)]
pub struct LineReader<R> {
    reader: R,
    piece: Vec<u8>,
    start: usize,
}

impl<R: Read> LineReader<R> {
    /// The lines of what a reader has left.
    pub fn new(alloc: Global, reader: R) -> LineReader<R>
        ensures { lines_left R.remaining result ≡ option_map lines (R.remaining reader) }
    {
        LineReader {
            reader,
            piece: Vec::new(alloc),
            start: 0,
        }
    }

    /// Whether a byte is left, for which the next piece is read if this one is used up.
    fn has_more(&mut self) -> Result<bool, ReadError>
        ensures kept { OnOk result (Keeps (text_left R.remaining self.old)
            (text_left R.remaining self.new)) }
        ensures end { IfOk result (λ more. more ≡ false →
            IsAtEnd (text_left R.remaining self.new)) }
        ensures more { IfOk result (λ more. more ≡ true →
            self.new.start < length self.new.piece.items) }
    {
        if self.start < self.piece.len() {
            return Ok(true);
        }
        read_piece(&mut self.reader, &mut self.piece)?;
        self.start = 0;
        Ok(!self.piece.is_empty())
    }
}

impl<R: Read> LineSource for LineReader<R> {
    ghost left = { lines_left R.remaining };

    fn next(&mut self, line: &mut Vec<u8>) -> Result<bool, ReadError>
        ensures next { IfOk result (λ found. IsNextLine found line.new.items
            (lines_left R.remaining self.old) (lines_left R.remaining self.new)) }
        ensures within { IfOk result (λ _. length line.new.items ≤ LINE_LIMIT) }
    {
        line.clear();
        while line.len() <= LINE_LIMIT + 1 {
            if !self.has_more()? {
                return if_within(line.as_slice(), !line.is_empty());
            }
            let (taken, is_ended) = push_part(line, &self.piece[self.start..])?;
            self.start += taken;
            if is_ended {
                drop_carriage_return(line);
                return if_within(line.as_slice(), true);
            }
        }
        Err(ReadError::TooLong)
    }
}

/// Reads the next piece after the one before is used up. It is empty if the reader has ended.
fn read_piece<R: Read>(reader: &mut R, piece: &mut Vec<u8>) -> Result<(), ReadError>
    ensures bytes { OnOk result
        (Consumes (R.remaining reader.old) (R.remaining reader.new) piece.new.items) }
    ensures end { OnOk result (length piece.new.items ≡ 0 → IsAtEnd (R.remaining reader.new)) }
{
    piece.resize(PIECE_BYTES, 0)?;
    for _ in 0..usize::MAX {
        match reader.read(piece.as_mut_slice()) {
            Ok(count) => {
                piece.truncate(count);
                return Ok(());
            }
            Err(error) if error.kind() == ErrorKind::Interrupted => {}
            Err(error) => {
                piece.clear();
                return Err(ReadError::Io(error));
            }
        }
    }
    piece.clear();
    Err(ReadError::Io(io::Error::from(ErrorKind::Interrupted)))
}

/// Appends the bytes of a text to a line up to the first line feed, or all. Answers how many bytes that takes, and whether
/// a line feed is the last of them.
#[tactic(auto, using(crate::proofs::LineSourceLemmas::is_part, crate::proofs::LineSourceLemmas::has_none))]
fn push_part(line: &mut Vec<u8>, text: &[u8]) -> Result<(usize, bool), AllocError>
    ensures part { IfOk result
        (λ x. IsPart line.old.items line.new.items text.now x.0 x.1) }
    ensures taken { IfOk result (λ x. x.0 ≤ length text.now) }
{
    match line_feed_in(text) {
        Some(at) => {
            line.extend_from_slice(&text[..at])?;
            Ok((at + 1, true))
        }
        None => {
            line.extend_from_slice(text)?;
            Ok((text.len(), false))
        }
    }
}

fn line_feed_in(text: &[u8]) -> Option<usize>
    ensures { result ≡ position is_line_feed text.now }
{
    memchr(b'\n', text)
}

/// Drops the carriage return at the end of a line that a line feed ended.
fn drop_carriage_return(line: &mut Vec<u8>)
    ensures { line.new.items ≡ strip_carriage_return line.old.items }
{
    if line.last() == Some(&b'\r') {
        line.pop();
    }
}

/// Answers whether there is a line, if it isn't too long.
fn if_within(line: &[u8], is_found: bool) -> Result<bool, ReadError>
    ensures found { IfOk result (λ found. found ≡ is_found) }
    ensures within { IfOk result (λ _. length line.now ≤ LINE_LIMIT) }
{
    if line.len() > LINE_LIMIT {
        return Err(ReadError::TooLong);
    }
    Ok(is_found)
}
