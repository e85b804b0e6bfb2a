//! The place of a line's fault, and what was expected there.
ghost use Rattle.std.specs.Prelude.{◌≡◌, ◌+◌, ◌<◌, ◌≤◌, ◌^◌, not, take, drop, length, [], position, slice_index_or, unwrap_or};
ghost use Rattle.apex_mistakes.specs.Prelude.{words_of, is_ascii};
ghost use Rattle.apex_texts.specs.declared.expected.Expected.TheVariants as kinds;
ghost use Rattle.apex_mistakes.specs.LinePlace.{behind_first_word, from_first_word, from_word_at, column_of, parameters_at, words_expected, misfit, words_before, place_in};

use apex_texts::text::{blank_in, next_word, word_in};
use apex_texts::{Expected, LineFault, Service};

/// The place of a line's fault. Line, word and column count from 1, and a column counts bytes.
#[derive(Clone, Copy, Debug, PartialEq, Eq)]
pub struct LinePlace {
    /// The line of the text.
    pub line: usize,
    /// What is wrong with the line.
    pub fault: LineFault,
    /// The number of the faulty word. A missing word comes after the last.
    pub word: usize,
    /// The column at which that word begins: the end of the line if the word is missing, or the first byte that isn't
    /// ASCII if there is one.
    pub column: usize,
    /// What was expected there.
    pub expected: Expected,
}

/// The place of a fault in the line with this number. `front` says what the words before the call word must be.
pub(crate) fn place_in(
    front: &[Expected],
    number: usize,
    fault: LineFault,
    line: &[u8],
) -> LinePlace
    requires { length front.now ≤ 2 }
    ensures { result ≡ place_in front.now number fault line.now }
{
    if let LineFault::NotAscii = fault {
        return not_ascii_place(number, line);
    }
    let before = words_before(front, fault, line);
    LinePlace {
        line: number,
        fault,
        word: before + 1,
        column: column_of(line, before),
        expected: expected_at(front, line, before),
    }
}

fn not_ascii_place(number: usize, line: &[u8]) -> LinePlace
    ensures { result ≡ place_in [] number LineFault.NotAscii line.now }
{
    let bytes = ascii_bytes(line);
    let with_byte = if bytes < line.len() {
        &line[..bytes + 1]
    } else {
        line
    };
    LinePlace {
        line: number,
        fault: LineFault::NotAscii,
        word: count_words(with_byte),
        column: bytes + 1,
        expected: Expected::Ascii,
    }
}

// The number of bytes before the first that isn't ASCII.
fn ascii_bytes(line: &[u8]) -> usize
    ensures { result ≡
        unwrap_or (position (λ byte. not (is_ascii byte)) line.now) (length line.now) }
{
    first_not_ascii(line).unwrap_or(line.len())
}

fn first_not_ascii(line: &[u8]) -> Option<usize>
    ensures { result ≡ position (λ byte. not (is_ascii byte)) line.now }
{
    line.iter().position(|byte| !is_ascii(*byte))
}

fn is_ascii(byte: u8) -> bool
    ensures { result ≡ is_ascii byte }
{
    byte < 128
}

pub(crate) fn count_words(line: &[u8]) -> usize
    ensures exact { result ≡ length (words_of line.now) }
    ensures bound { result ≤ length line.now }
{
    let mut rest = line;
    let mut count = 0;
    while let Some((_, after)) = next_word(rest) {
        count += 1;
        rest = after;
    }
    count
}

// A line, starting at its first word.
fn from_first_word(line: &[u8]) -> &[u8]
    ensures { result.now ≡ from_first_word line.now }
{
    match word_in(line) {
        Some(start) => &line[start..],
        None => &line[line.len()..],
    }
}

// A line after its first word.
pub(crate) fn behind_first_word(line: &[u8]) -> &[u8]
    ensures { result.now ≡ behind_first_word line.now }
{
    let word = from_first_word(line);
    match blank_in(word) {
        Some(end) => &word[end..],
        None => &word[word.len()..],
    }
}

// A line, starting at the word after `before` others.
pub(crate) fn from_word_at(line: &[u8], before: usize) -> &[u8]
    ensures { result.now ≡ from_word_at before line.now }
{
    let mut rest = line;
    for skipped in 0..before {
        rest = behind_first_word(rest);
    }
    from_first_word(rest)
}

pub(crate) fn column_of(line: &[u8], before: usize) -> usize
    ensures { result ≡ column_of before line.now }
{
    line.len().saturating_sub(from_word_at(line, before).len()) + 1
}

// What the arguments after a call word must be.
pub(crate) fn parameters_at(words: &[u8]) -> &'static [Expected]
    ensures exact { result.now ≡ parameters_at (words_of words.now) }
    ensures few { length result.now ≤ 5 }
{
    match next_word(words) {
        None => &[],
        Some((call, _)) => match Service::named(call) {
            None => &[],
            Some(service) => service.parameters(),
        },
    }
}

// The number of words before the first that isn't the argument that it must be.
fn misfit(parameters: &[Expected], words: &[u8]) -> usize
    ensures exact { result ≡ misfit parameters.now (words_of words.now) }
    ensures bound { result ≤ length parameters.now }
{
    let mut rest = words;
    for (before, parameter) in parameters.iter().enumerate() {
        let Some((word, after)) = next_word(rest) else {
            return before;
        };
        if !parameter.is_argument(word) {
            return before;
        }
        rest = after;
    }
    parameters.len()
}

// The number of words before the faulty one, in an ASCII line.
fn words_before(front: &[Expected], fault: LineFault, line: &[u8]) -> usize
    requires { length front.now ≤ 2 }
    ensures exact { result ≡ words_before front.now fault (words_of line.now) }
    ensures bound { result + 1 < 2 ^ 64 }
{
    match fault {
        LineFault::Moment => 0,
        LineFault::Partition => 1,
        LineFault::UnknownCall => front.len(),
        LineFault::TooFewWords => count_words(line),
        LineFault::TooManyWords => {
            front.len() + 1 + parameters_at(from_word_at(line, front.len())).len()
        }
        _ => {
            let parameters = parameters_at(from_word_at(line, front.len()));
            front.len() + 1 + misfit(parameters, from_word_at(line, front.len() + 1))
        }
    }
}

// What the word after `before` others must be.
#[tactic(auto, using(crate::proofs::PlaceLemmas::words_from, crate::proofs::PlaceLemmas::behind_call))]
fn expected_at(front: &[Expected], line: &[u8], before: usize) -> Expected
    requires { length front.now ≤ 2 }
    ensures { result ≡
        slice_index_or (words_expected front.now (words_of line.now)) before kinds.EndOfLine }
{
    if before < front.len() {
        return front[before];
    }
    if before == front.len() {
        return Expected::Service;
    }
    let parameters = parameters_at(from_word_at(line, front.len()));
    let parameter = parameters.get(before - front.len() - 1);
    parameter.copied().unwrap_or(Expected::EndOfLine)
}
