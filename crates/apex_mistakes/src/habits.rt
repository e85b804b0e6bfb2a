//! Forms of other languages that a trace or a script doesn't have.
use crate::known::FaultyLine;
use apex_texts::{Expected, LineFault, Service};

/// What starts a comment in other languages.
const COMMENTS: [&str; 5] = ["//", "/*", "--", ";", "%"];

/// The advice for a reply.
const OF_LOG: &str = "only logs have replies, and `dekarino judge` reads logs";

/// The advice for the line that ends the calls of a log.
const AFTER_LOG: &str = "`after` ends the calls of a log, which `dekarino judge` reads";

/// The advice for a faulty line that has a form of another language, if it does.
pub(crate) fn advice_of(faulty: &FaultyLine<'_>) -> Option<&'static str> {
    if let LineFault::NotAscii = faulty.place.fault {
        return advice_on_bytes(faulty);
    }
    if begins_comment(faulty.first_word()?) {
        return Some("a comment begins with `#`");
    }
    let word = faulty.faulty_word()?;
    if has_arrow(word) {
        return Some(OF_LOG);
    }
    match faulty.place.expected {
        Expected::EndOfLine if has_arrow(faulty.line) => Some(OF_LOG),
        Expected::Moment if word == b"after".as_slice() => Some(AFTER_LOG),
        Expected::EndOfLine => advice_at_end(faulty, word),
        Expected::Partition if is_of_report(faulty, word) => {
            Some("this looks like a report; a line begins with the moment of its call")
        }
        _ => None,
    }
}

/// The advice for a line with a byte that isn't ASCII.
fn advice_on_bytes(faulty: &FaultyLine<'_>) -> Option<&'static str> {
    let rest = faulty.line.get(faulty.place.column.saturating_sub(1)..)?;
    if faulty.line.starts_with(b"\xEF\xBB\xBF") {
        Some("the line begins with a byte order mark: save the file without it")
    } else if faulty.line.starts_with(b"\xFF\xFE") || faulty.line.starts_with(b"\xFE\xFF") {
        Some("this looks like UTF-16; save the file as ASCII")
    } else if rest.starts_with(b"\xC2\xA0") {
        Some("it begins a no-break space: write a space")
    } else if faulty.first_word()?.starts_with(b"#") {
        Some("comments are ASCII too")
    } else {
        None
    }
}

/// The advice for a word after a call: a comment, or a time-out.
fn advice_at_end(faulty: &FaultyLine<'_>, word: &[u8]) -> Option<&'static str> {
    if word.starts_with(b"#") {
        return Some("a comment has a line of its own");
    }
    if begins_comment(word) {
        return Some("a comment has a line of its own, which begins with `#`");
    }
    match faulty.service() {
        Some(Service::SendQueuing | Service::ReceiveQueuing) if is_number(word) => {
            Some("no time-out is written: a call never waits")
        }
        _ => None,
    }
}

pub(crate) fn begins_comment(word: &[u8]) -> bool {
    COMMENTS
        .iter()
        .any(|mark| word.starts_with(mark.as_bytes()))
}

/// Whether a word has the arrow before a logged reply.
fn has_arrow(word: &[u8]) -> bool {
    word.windows(2).any(|pair| pair == b"->".as_slice())
}

/// Whether a line begins like one of a report: with the number of a call, its moment and its partition.
fn is_of_report(faulty: &FaultyLine<'_>, word: &[u8]) -> bool {
    match faulty.next_word() {
        Some(next) => is_number(word) && faulty.config.partition_called(next).is_some(),
        None => false,
    }
}

/// Whether a word has only decimal digits.
pub(crate) fn is_number(word: &[u8]) -> bool {
    word.iter().all(|byte| byte.is_ascii_digit())
}
