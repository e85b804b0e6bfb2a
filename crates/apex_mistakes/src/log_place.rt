//! The place of the fault of a log's line.
ghost use Rattle.std.specs.Prelude.{◌≡◌, ◌+◌, ◌<◌, ◌≤◌, ◌^◌, length, position, IfOk};
ghost use Rattle.apex_mistakes.specs.Prelude.{words_of, is_bracket};
ghost use Rattle.apex_mistakes.specs.LogPlace.{call_side, reply_side, reply_text, call_alone, is_in_call, before_arrow, begins_reply, fitting, bracket_column, reply_column, log_place_in};

use crate::line_place::{
    behind_first_word, column_of, count_words, from_word_at, parameters_at, place_in,
};
use apex_logs::{ANY_ENTRY, LogFault, LogForm, before_note, read_reply, sides_of};
use apex_texts::{Expected, LineFault};
use apex_types::Reply;
use std::alloc::{AllocError, Global};

/// The part of a log's line in which its fault is.
#[derive(Clone, Copy, Debug, PartialEq, Eq)]
pub enum LogPart {
    /// No part: a byte isn't ASCII, or there is no arrow.
    Line,
    /// What is before the arrow.
    Call,
    /// What is after the arrow, before a note.
    Reply,
    /// The note.
    Note,
}

/// The place of the fault of a log's line. Line, word and column count from 1, and a column counts bytes.
#[derive(Clone, Copy, Debug, PartialEq, Eq)]
pub struct LogPlace {
    /// The line of the log.
    pub line: usize,
    /// What is wrong with the line.
    pub fault: LogFault,
    /// The part of the line that is wrong.
    pub part: LogPart,
    /// The number of the faulty word in its part. A missing word comes after the last.
    pub word: usize,
    /// The column of the line at which that word begins: the end of its part if the word is missing, the bracket of an
    /// open note, or the first byte that isn't ASCII if there is one.
    pub column: usize,
}

/// The place of a fault in the line with this number. `front` says what the words before the call word must be. The
/// only error is a failed allocation.
pub(crate) fn log_place_in<F: LogForm>(
    alloc: Global,
    form: &F,
    front: &[Expected],
    number: usize,
    fault: LogFault,
    line: &[u8],
) -> Result<LogPlace, AllocError>
    requires { length front.now ≤ 2 }
    ensures { IfOk result (λ place.
        place ≡ log_place_in (F.asked_by form.now) front.now number fault line.now) }
{
    let (part, word, column) = match fault {
        LogFault::Line(LineFault::NotAscii) => {
            let place = place_in(front, number, LineFault::NotAscii, line);
            (LogPart::Line, place.word, place.column)
        }
        LogFault::NoReply => {
            let before = before_arrow(front, line);
            (LogPart::Line, before + 1, column_of(line, before))
        }
        LogFault::OpenNote => (LogPart::Note, 1, bracket_column(line)),
        LogFault::Line(in_words) if is_in_call(alloc, form, line)? => {
            let place = place_in(front, number, in_words, call_side(line));
            (LogPart::Call, place.word, place.column)
        }
        _ => {
            let before = fitting(reply_text(line));
            (LogPart::Reply, before + 1, reply_column(line, before))
        }
    };
    Ok(LogPlace {
        line: number,
        fault,
        part,
        word,
        column,
    })
}

/// What is before the arrow of a line; the line if it has no arrow.
pub(crate) fn call_side(line: &[u8]) -> &[u8]
    ensures { result.now ≡ call_side line.now }
{
    match sides_of(line) {
        Ok((call, _)) => call,
        Err(_) => line,
    }
}

/// What is after the arrow of a line; nothing if it has no arrow.
fn reply_side(line: &[u8]) -> &[u8]
    ensures { result.now ≡ reply_side line.now }
{
    match sides_of(line) {
        Ok((_, reply)) => reply,
        Err(_) => &line[line.len()..],
    }
}

/// What is after the arrow of a line, before the note; all of it if the note is open.
pub(crate) fn reply_text(line: &[u8]) -> &[u8]
    ensures { result.now ≡ reply_text line.now }
{
    let reply = reply_side(line);
    before_note(reply).unwrap_or(reply)
}

// The number of words before the place of the arrow that a line lacks.
fn before_arrow(front: &[Expected], line: &[u8]) -> usize
    requires { length front.now ≤ 2 }
    ensures exact { result ≡ before_arrow front.now (words_of line.now) }
    ensures bound { result + 1 < 2 ^ 64 }
{
    let parameters = parameters_at(from_word_at(line, front.len()));
    if parameters.is_empty() {
        count_words(line)
    } else {
        front.len() + 1 + parameters.len()
    }
}

fn bracket_column(line: &[u8]) -> usize
    ensures { result ≡ bracket_column line.now }
{
    let reply = reply_side(line);
    let before = bracket_in(reply).unwrap_or(reply.len());
    line.len().saturating_sub(reply.len()) + before + 1
}

fn bracket_in(text: &[u8]) -> Option<usize>
    ensures { result ≡ position is_bracket text.now }
{
    text.iter().position(|byte| *byte == b'(')
}

fn reply_column(line: &[u8], before: usize) -> usize
    ensures { result ≡ reply_column before line.now }
{
    line.len().saturating_sub(reply_side(line).len()) + column_of(reply_text(line), before)
}

// Whether a line is faulty whatever its reply is.
fn is_in_call<F: LogForm>(alloc: Global, form: &F, line: &[u8]) -> Result<bool, AllocError>
    ensures { IfOk result (λ is. is ≡ is_in_call (F.asked_by form.now) line.now) }
{
    let mut entry = ANY_ENTRY;
    let alone = call_alone(alloc, line)?;
    Ok(form.read_line(alone.as_slice(), &mut entry).is_err())
}

fn call_alone(alloc: Global, line: &[u8]) -> Result<Vec<u8>, AllocError>
    ensures { IfOk result (λ alone. alone.items ≡ call_alone line.now) }
{
    let mut alone = Vec::new(alloc);
    alone.extend_from_slice(call_side(line))?;
    alone.extend_from_slice("->not made".as_bytes())?;
    Ok(alone)
}

// The number of words before the first that no reply has after those before it; of all, if a reply begins with them.
fn fitting(text: &[u8]) -> usize
    ensures exact { result ≡ fitting (words_of text.now) }
    ensures bound { result ≤ length text.now }
{
    let count = count_words(text);
    let mut rest = text;
    for before in 0..count {
        rest = behind_first_word(rest);
        let begun = &text[..text.len().saturating_sub(rest.len())];
        if !begins_reply(begun) {
            return before;
        }
    }
    count
}

// Whether words are a reply, or only lack further ones.
fn begins_reply(words: &[u8]) -> bool
    ensures { result ≡ begins_reply (words_of words.now) }
{
    let mut reply = Reply::NotMade;
    matches!(
        read_reply(words, &mut reply),
        Ok(()) | Err(LogFault::Line(LineFault::TooFewWords))
    )
}
