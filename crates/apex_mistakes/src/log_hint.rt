//! What was most likely meant at the fault of a log's line.
use crate::faulty_log_line::FaultyLogLine;
use crate::habits::{begins_comment, is_number};
use crate::hint::{Hint, hint_of, names_service};
use crate::known::{Caller, word_at};
use crate::log_place::LogPart;
use crate::reply_hint::reply_hint;
use apex_logs::LogFault;
use apex_module::Config;
use apex_texts::LineFault;
use std::alloc::{AllocError, Global};

/// Words that are used for the arrow in other places.
const OTHER_ARROWS: [&str; 11] = ["=>", "==>", "<-", ">", ">>", "-", "--", "=", ":", ":=", "|"];

/// What was most likely meant, if the line gives a hint.
pub(crate) fn log_hint_of<'a>(
    alloc: Global,
    faulty: &FaultyLogLine<'a>,
) -> Result<Option<Hint<'a>>, AllocError> {
    match faulty.place.part {
        LogPart::Line if faulty.lacks_arrow() => Ok(arrow_hint(faulty)),
        LogPart::Line => byte_hint(alloc, faulty),
        LogPart::Call => call_hint(alloc, faulty),
        LogPart::Reply => reply_hint(alloc, faulty),
        LogPart::Note => Ok(None),
    }
}

/// What was most likely meant at a byte that isn't ASCII.
fn byte_hint<'a>(
    alloc: Global,
    faulty: &FaultyLogLine<'a>,
) -> Result<Option<Hint<'a>>, AllocError> {
    match faulty.line.get(faulty.place.column.saturating_sub(1)..) {
        Some(rest) if rest.starts_with("\u{2192}".as_bytes()) => Ok(Some(Hint::Word("->"))),
        _ => hint_of(alloc, &faulty.as_line()),
    }
}

/// What was most likely meant by a line without an arrow.
fn arrow_hint<'a>(faulty: &FaultyLogLine<'a>) -> Option<Hint<'a>> {
    let first = word_at(faulty.line, 1)?;
    if begins_comment(first) {
        return Some(Hint::Advice("a comment begins with `#`"));
    }
    if first.starts_with(b"{") || first.starts_with(b"[{") {
        return Some(Hint::Advice(
            "this looks like JSON; a line has words, as `60 FMS send 1 0a -> NO_ERROR`",
        ));
    }
    if is_of_report(faulty) {
        return Some(Hint::Advice(
            "this looks like a report, which has no arguments: `dekarino explain` prints a log",
        ));
    }
    match faulty.faulty_word() {
        Some(word) => other_arrow_hint(word),
        None => form_hint(faulty, first),
    }
}

/// The arrow, if the word is another form of it.
fn other_arrow_hint<'a>(word: &[u8]) -> Option<Hint<'a>> {
    if OTHER_ARROWS.iter().any(|arrow| word == arrow.as_bytes()) {
        Some(Hint::Word("->"))
    } else {
        None
    }
}

/// What was most likely meant by a line that ends where the arrow should be.
fn form_hint<'a>(faulty: &FaultyLogLine<'_>, first: &[u8]) -> Option<Hint<'a>> {
    if first.contains(&b',') || first.contains(&b';') {
        return Some(Hint::Advice("words are separated by spaces or tabs"));
    }
    if faulty.log_has_arrow || faulty.service().is_none() {
        return None;
    }
    Some(Hint::Advice(match faulty.caller {
        Caller::Trace => "this looks like a trace: try `dekarino explain`",
        Caller::Script(_) => "this looks like a script: try `dekarino explain`",
    }))
}

/// Whether a line begins like a call's line of a report: with a number, a moment and a partition.
fn is_of_report(faulty: &FaultyLogLine<'_>) -> bool {
    match (
        word_at(faulty.line, 1),
        word_at(faulty.line, 2),
        word_at(faulty.line, 3),
    ) {
        (Some(number), Some(moment), Some(partition)) => {
            is_number(number)
                && is_number(moment)
                && faulty.config.partition_called(partition).is_some()
        }
        _ => false,
    }
}

/// What was most likely meant by a faulty call.
fn call_hint<'a>(
    alloc: Global,
    faulty: &FaultyLogLine<'a>,
) -> Result<Option<Hint<'a>>, AllocError> {
    match word_hint(faulty) {
        Some(hint) => Ok(Some(hint)),
        None => hint_of(alloc, &faulty.as_line()),
    }
}

/// What was most likely meant by a faulty word of a call, if a trace would mean something else.
fn word_hint<'a>(faulty: &FaultyLogLine<'a>) -> Option<Hint<'a>> {
    let word = faulty.faulty_word()?;
    match faulty.place.fault {
        LogFault::Line(LineFault::TooManyWords) => match other_arrow_hint(word) {
            None if is_number(word) && faulty.is_behind_arguments() => {
                Some(Hint::Advice("write `timeout` before a time-out"))
            }
            hint => hint,
        },
        LogFault::Line(LineFault::Moment) => moment_hint(word),
        _ => other_log_hint(faulty, word),
    }
}

/// How the log should be given, if the faulty word shows whose it is.
fn other_log_hint<'a>(faulty: &FaultyLogLine<'a>, word: &[u8]) -> Option<Hint<'a>> {
    let file = faulty.file;
    match (faulty.caller, faulty.place.fault) {
        (Caller::Trace, LogFault::Line(LineFault::Partition)) if names_service(word) => {
            let partition = partition_in(faulty.config, file).unwrap_or("NAME");
            Some(Hint::OwnLog { partition, file })
        }
        (Caller::Script(_), LogFault::Line(LineFault::UnknownCall))
            if faulty.config.partition_called(word).is_some() => { Some(Hint::ModuleLog { file }) }
        _ => None,
    }
}

/// The partition whose name, ignoring case, is that of the file.
fn partition_in<'a>(config: &'a Config, file: &str) -> Option<&'a str> {
    let stem = stem_of(file).as_bytes();
    for p in 0..config.partitions() {
        let name = config.partition_name(p).text();
        if name.as_bytes().eq_ignore_ascii_case(stem) {
            return Some(name);
        }
    }
    None
}

/// The name of a file without its folders, up to its first dot.
fn stem_of(file: &str) -> &str {
    let name = match file.rsplit_once('/') {
        Some((_, name)) => name,
        None => file,
    };
    match name.split_once('.') {
        Some((stem, _)) => stem,
        None => name,
    }
}

/// What was most likely meant by a word in place of a moment.
fn moment_hint<'a>(word: &[u8]) -> Option<Hint<'a>> {
    if begins_comment(word) {
        return None;
    }
    if word.starts_with(b"0x") || word.starts_with(b"0X") {
        return Some(Hint::Advice("moments have decimal digits"));
    }
    match word.first() {
        Some(byte) if byte.is_ascii_digit() || *byte == b'-' || *byte == b'+' => None,
        _ => Some(Hint::Advice("a line begins with the moment of its call")),
    }
}
