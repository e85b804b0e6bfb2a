//! What was most likely meant by a faulty word of a logged reply.
use crate::faulty_log_line::FaultyLogLine;
use crate::habits::{begins_comment, is_number};
use crate::hint::{Hint, message_hint, nearest_hint};
use crate::reply_word::{ReplyWord, data_words};
use crate::standard::{CODES, DIRECTIONS, Numbered, VALIDITIES};
use apex_logs::reply_words::REFRESH_LIMIT;
use apex_texts::Expected;
use apex_texts::arguments::NUMBER_LIMIT;
use apex_texts::text::number_up_to;
use std::alloc::{AllocError, Global};

/// Other words for TIMED_OUT, ignoring case.
const TIME_OUTS: [&str; 4] = ["timeout", "time_out", "time-out", "timedout"];

/// Other words for NO_ERROR, ignoring case.
const SUCCESSES: [&str; 3] = ["ok", "success", "noerror"];

/// Other words for `not made`, ignoring case.
const NOT_MADE: [&str; 5] = ["not", "made", "not_made", "not-made", "notmade"];

/// What was most likely meant, if the reply gives a hint.
pub(crate) fn reply_hint<'a>(
    alloc: Global,
    faulty: &FaultyLogLine<'a>,
) -> Result<Option<Hint<'a>>, AllocError> {
    let Some(word) = faulty.faulty_word() else {
        return Ok(None);
    };
    match faulty.reply_word() {
        ReplyWord::Reply => first_hint(alloc, word),
        ReplyWord::Data => data_hint(alloc, word),
        ReplyWord::Word(known) if known.len() > 1 => nearest_hint(alloc, word, &[known]),
        ReplyWord::Word(_) => Ok(None),
        ReplyWord::Argument(Expected::Message) => Ok(Some(message_hint(word))),
        ReplyWord::Argument(Expected::Refresh) => Ok(limit_hint(word, REFRESH_LIMIT)),
        ReplyWord::Argument(_) | ReplyWord::Waiting => Ok(limit_hint(word, NUMBER_LIMIT)),
        ReplyWord::Direction => named_hint(alloc, &DIRECTIONS, word),
        ReplyWord::SampleValidity | ReplyWord::LastValidity => {
            named_hint(alloc, &VALIDITIES, word)
        }
        ReplyWord::End => Ok(Some(end_hint(word))),
    }
}

/// The reply that the first word most likely means.
fn first_hint<'a>(alloc: Global, word: &[u8]) -> Result<Option<Hint<'a>>, AllocError> {
    if let Some(known) = other_reply(word) {
        return Ok(Some(Hint::Word(known)));
    }
    named_hint(alloc, &CODES, word)
}

/// The word of a log for a word of other sources.
fn other_reply(word: &[u8]) -> Option<&'static str> {
    if is_one_of(&TIME_OUTS, word) {
        Some("TIMED_OUT")
    } else if is_one_of(&SUCCESSES, word) {
        Some("NO_ERROR")
    } else if is_one_of(&NOT_MADE, word) {
        Some("not made")
    } else {
        None
    }
}

/// Whether a word is one of these, ignoring case.
fn is_one_of(words: &[&str], word: &[u8]) -> bool {
    words
        .iter()
        .any(|known| known.as_bytes().eq_ignore_ascii_case(word))
}

/// The word for the number, or the nearest of these words.
fn named_hint<'a>(
    alloc: Global,
    words: &[Numbered],
    word: &[u8],
) -> Result<Option<Hint<'a>>, AllocError> {
    if let Some(number) = number_up_to(NUMBER_LIMIT, word) {
        return Ok(
            match words
                .iter()
                .copied()
                .find(|entry| u64::from(entry.1) == number)
            {
                Some((word, number)) => Some(Hint::Named { number, word }),
                None => None,
            },
        );
    }
    let mut known = Vec::new(alloc);
    for entry in words {
        known.push(entry.0)?;
    }
    nearest_hint(alloc, word, known.as_slice())
}

/// The word for the data that was meant.
fn data_hint<'a>(alloc: Global, word: &[u8]) -> Result<Option<Hint<'a>>, AllocError> {
    if begins_comment(word) {
        return Ok(Some(end_hint(word)));
    }
    let words = data_words(alloc)?;
    nearest_hint(alloc, word, words.as_slice())
}

/// The greatest number, for a word that is a number.
fn limit_hint<'a>(word: &[u8], limit: u64) -> Option<Hint<'a>> {
    if is_number(word) {
        Some(Hint::AtMost(limit))
    } else {
        None
    }
}

/// What to do with a word after a reply.
fn end_hint<'a>(word: &[u8]) -> Hint<'a> {
    if word.starts_with(b"#") || begins_comment(word) {
        Hint::Advice("a comment has a line of its own, which begins with `#`")
    } else {
        Hint::Advice("put a note in brackets")
    }
}
