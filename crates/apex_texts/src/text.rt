//! Lines, words and numbers of a text, which is read as bytes.
ghost use Rattle.std.specs.Prelude.{◌≡◌, ◌-◌, ◌<◌, ◌≤◌, false, [], ◌∷◌, length, take, drop, slice_index, not, position, Some, None, IfSome, MatchOption};
ghost use Rattle.apex_texts.specs.Prelude.{after_first};
ghost use Rattle.std.specs.Str.Lines.{lines, strip_carriage_return};
ghost use Rattle.apex_texts.specs.Text.{is_line_feed, is_blank, words_of, number_up_to};

use memchr::{memchr, memchr2};

/// The first line of a text, and the text after it. A line ends at a line feed or at the end of the text; one carriage
/// return directly before a line feed is dropped.
pub fn next_line(text: &[u8]) -> Option<(&[u8], &[u8])>
    ensures line { MatchOption result (lines text.now ≡ [])
        (λ x. lines text.now ≡ x.0.now ∷ lines x.1.now) }
    ensures after { IfSome result (λ x. x.1.now ≡ after_first is_line_feed text.now) }
    ensures shorter { MatchOption result (length text.now ≡ 0)
        (λ x. length x.1.now < length text.now) }
{
    if text.is_empty() {
        return None;
    }
    match line_feed_in(text) {
        Some(end) => Some((without_carriage_return(&text[..end]), &text[end + 1..])),
        None => Some((text, &text[text.len()..])),
    }
}

fn line_feed_in(text: &[u8]) -> Option<usize>
    ensures { result ≡ position is_line_feed text.now }
{
    memchr(b'\n', text)
}

fn without_carriage_return(line: &[u8]) -> &[u8]
    ensures { result.now ≡ strip_carriage_return line.now }
{
    match line {
        [front @ .., b'\r'] => front,
        _ => line,
    }
}

// Most bytes are greater than both blanks, so one comparison decides.
fn is_blank(byte: u8) -> bool
    ensures { result ≡ is_blank byte }
{
    byte <= b' ' && (byte == b' ' || byte == b'\t')
}

/// The bytes in which a blank is looked for one by one. Most words end within them, and it takes longer than that to begin
/// a search for many bytes at once.
const NEAR_BYTES: usize = 16;

pub fn blank_in(line: &[u8]) -> Option<usize>
    ensures { result ≡ position is_blank line.now }
{
    let (near, far) = line.split_at(line.len().min(NEAR_BYTES));
    match blank_near_in(near) {
        Some(at) => Some(at),
        None => match blank_far_in(far) {
            Some(at) => Some(near.len() + at),
            None => None,
        },
    }
}

// The first blank of a line, if it is near.
fn near_blank_in(line: &[u8]) -> Option<usize>
    ensures { MatchOption result (length line.now ≤ NEAR_BYTES → position is_blank line.now ≡ None)
        (λ at. position is_blank line.now ≡ Some at) }
{
    let (near, _) = line.split_at(line.len().min(NEAR_BYTES));
    blank_near_in(near)
}

fn blank_near_in(line: &[u8]) -> Option<usize>
    ensures { result ≡ position is_blank line.now }
{
    line.iter().position(|byte| is_blank(*byte))
}

fn blank_far_in(line: &[u8]) -> Option<usize>
    ensures found { result ≡ position is_blank line.now }
    ensures within { IfSome result (λ at. at < length line.now) }
{
    memchr2(b' ', b'\t', line)
}

pub fn word_in(line: &[u8]) -> Option<usize>
    ensures { result ≡ position (λ byte. not (is_blank byte)) line.now }
{
    line.iter().position(|byte| !is_blank(*byte))
}

/// The first word of a line, and the line after it. Spaces and tabs separate words.
#[inline(always)]
pub fn next_word(line: &[u8]) -> Option<(&[u8], &[u8])>
    ensures word { MatchOption result (words_of line.now ≡ [])
        (λ x. words_of line.now ≡ x.0.now ∷ words_of x.1.now) }
    ensures shorter { IfSome result (λ x. length x.1.now < length line.now) }
{
    let (start, end) = word_bounds(line);
    if start == end {
        return None;
    }
    Some((&line[start..end], &line[end..]))
}

// Where the first word of a line starts and ends; the two are equal if it has none. A call returns two numbers in
// registers, and slices in memory.
#[inline(never)]
fn word_bounds(line: &[u8]) -> (usize, usize)
    ensures ordered { result.0 ≤ result.1 }
    ensures within { result.1 ≤ length line.now }
    ensures none { result.0 ≡ result.1 → words_of line.now ≡ [] }
    ensures word { result.0 < result.1 → words_of line.now ≡
        take (result.1 - result.0) (drop result.0 line.now) ∷ words_of (drop result.1 line.now) }
{
    let Some(start) = word_in(line) else {
        return (0, 0);
    };
    let (_, rest) = line.split_at(start);
    match near_blank_in(rest) {
        Some(length) => (start, start + length),
        None if rest.len() <= NEAR_BYTES => (start, line.len()),
        None => (start, start + long_word(rest)),
    }
}

// The length of the first word of a line that begins with it, if it may be long. It is not inlined, so that short words
// save no registers for the search in it.
#[cold]
#[inline(never)]
fn long_word(line: &[u8]) -> usize
    requires some { 0 < length line.now }
    requires word { is_blank (slice_index line.now 0) ≡ false }
    ensures some { 0 < result }
    ensures within { result ≤ length line.now }
    ensures word { words_of line.now ≡ take result line.now ∷ words_of (drop result line.now) }
{
    match blank_in(line) {
        Some(end) => end,
        None => line.len(),
    }
}

/// The number that a word of decimal digits gives, if it is at most the limit.
pub fn number_up_to(limit: u64, word: &[u8]) -> Option<u64>
    ensures { result ≡ number_up_to limit word.now }
{
    if word.is_empty() {
        return None;
    }
    let mut value: u64 = 0;
    for byte in word {
        if !byte.is_ascii_digit() {
            return None;
        }
        value = value.checked_mul(10)?.checked_add(u64::from(*byte - b'0'))?;
    }
    if value <= limit { Some(value) } else { None }
}
