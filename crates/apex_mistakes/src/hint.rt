//! What was most likely meant at the fault of a line.
use crate::expected::{call_words, partition_names};
use crate::habits::{advice_of, is_number};
use crate::known::FaultyLine;
use crate::standard::{
    DIRECTIONS, DISCIPLINES, MODES, Numbered, OtherWord, numbered, service_of_standard,
    services_called,
};
use apex_module::Config;
use apex_refusals::nearest;
use apex_texts::arguments::{MOMENT_LIMIT, NUMBER_LIMIT, name_in};
use apex_texts::{Expected, Service};
use std::alloc::{AllocError, Global};
use std::fmt;

/// What was most likely meant.
#[derive(Clone, Copy)]
pub(crate) enum Hint<'a> {
    /// Another word.
    Word(&'a str),
    /// The word of one of two services.
    Either(Service, Service),
    /// The number of the standard's word, or the identifier of the port.
    Number { word: &'a str, number: u32 },
    /// The word of the standard's number.
    Named { number: u32, word: &'a str },
    /// The greatest number.
    AtMost(u64),
    /// The file's log is this partition's own.
    OwnLog { partition: &'a str, file: &'a str },
    /// The file's log is the module's.
    ModuleLog { file: &'a str },
    /// What to do.
    Advice(&'static str),
}

impl fmt::Display for Hint<'_> {
    fn fmt<W: fmt::Write>(&self, f: &mut fmt::Formatter<W>) -> fmt::Result {
        match self {
            Hint::Word(word) => write!(f, "did you mean `{word}`?"),
            Hint::Either(one, other) => {
                write!(f, "did you mean `{}` or `{}`?", one.word(), other.word())
            }
            Hint::Number { word, number } => write!(f, "{word} is {number}"),
            Hint::Named { number, word } => write!(f, "{number} is {word}"),
            Hint::AtMost(limit) => write!(f, "the number is too great: at most {limit}"),
            Hint::OwnLog { partition, file } => write!(
                f,
                "this looks like a partition's own log: did you mean `{partition}={file}`?"
            ),
            Hint::ModuleLog { file } => {
                write!(f, "this looks like a module's log: did you mean `{file}`?")
            }
            Hint::Advice(words) => f.write_str(words),
        }
    }
}

/// What was most likely meant, if the line gives a hint.
pub(crate) fn hint_of<'a>(
    alloc: Global,
    faulty: &FaultyLine<'a>,
) -> Result<Option<Hint<'a>>, AllocError> {
    if let Some(words) = advice_of(faulty) {
        return Ok(Some(Hint::Advice(words)));
    }
    match faulty.faulty_word() {
        Some(word) => word_hint(alloc, faulty, word),
        None => Ok(None),
    }
}

/// What was most likely meant by a faulty word.
fn word_hint<'a>(
    alloc: Global,
    faulty: &FaultyLine<'a>,
    word: &[u8],
) -> Result<Option<Hint<'a>>, AllocError> {
    if let Some(hint) = limit_hint(faulty.place.expected, word) {
        return Ok(Some(hint));
    }
    match faulty.place.expected {
        Expected::Moment => Ok(Some(moment_hint(faulty.config, word))),
        Expected::Partition => partition_hint(alloc, faulty.config, word),
        Expected::Service => service_hint(alloc, word),
        Expected::Identifier => Ok(identifier_hint(faulty, word)),
        Expected::Direction => Ok(number_hint(&DIRECTIONS, word)),
        Expected::Discipline => Ok(number_hint(&DISCIPLINES, word)),
        Expected::Mode => Ok(number_hint(&MODES, word)),
        Expected::Message => Ok(Some(message_hint(word))),
        _ => Ok(None),
    }
}

/// The greatest number that is allowed where this is expected, for a word that is a number.
fn limit_hint<'a>(expected: Expected, word: &[u8]) -> Option<Hint<'a>> {
    if !is_number(word) {
        return None;
    }
    match expected {
        Expected::Moment | Expected::Refresh => Some(Hint::AtMost(MOMENT_LIMIT)),
        Expected::Size
        | Expected::Depth
        | Expected::Direction
        | Expected::Discipline
        | Expected::Identifier
        | Expected::Mode => Some(Hint::AtMost(NUMBER_LIMIT)),
        _ => None,
    }
}

/// Whether a word is a call word, or the standard's name of a service.
pub(crate) fn names_service(word: &[u8]) -> bool {
    Service::named(word).is_some() || service_of_standard(word).is_some()
}

fn moment_hint<'a>(config: &Config, word: &[u8]) -> Hint<'a> {
    if names_service(word) || config.partition_called(word).is_some() {
        Hint::Advice("a line begins with the moment of its call")
    } else {
        Hint::Advice("as 1500 for 1,500 nanoseconds")
    }
}

fn partition_hint<'a>(
    alloc: Global,
    config: &'a Config,
    word: &[u8],
) -> Result<Option<Hint<'a>>, AllocError> {
    if names_service(word) {
        return Ok(Some(Hint::Advice(
            "the partition that makes the call goes before the call word",
        )));
    }
    let names = partition_names(alloc, config)?;
    nearest_hint(alloc, word, names.as_slice())
}

fn service_hint<'a>(alloc: Global, word: &[u8]) -> Result<Option<Hint<'a>>, AllocError> {
    if let Some(service) = service_of_standard(word) {
        return Ok(Some(Hint::Word(service.word())));
    }
    match services_called(word) {
        Some(OtherWord::One(service)) => return Ok(Some(Hint::Word(service.word()))),
        Some(OtherWord::Either(one, other)) => return Ok(Some(Hint::Either(one, other))),
        None => {}
    }
    let words = call_words(alloc)?;
    nearest_hint(alloc, word, words.as_slice())
}

/// The nearest of the known words.
pub(crate) fn nearest_hint<'a>(
    alloc: Global,
    word: &[u8],
    known: &[&'a str],
) -> Result<Option<Hint<'a>>, AllocError> {
    match nearest(alloc, word, known)? {
        Some(name) => Ok(Some(Hint::Word(name))),
        None => Ok(None),
    }
}

/// The number of the standard's word.
fn number_hint<'a>(words: &[Numbered], word: &[u8]) -> Option<Hint<'a>> {
    let (word, number) = numbered(words, word)?;
    Some(Hint::Number { word, number })
}

/// The identifier of the port with this name.
fn identifier_hint<'a>(faulty: &FaultyLine<'a>, word: &[u8]) -> Option<Hint<'a>> {
    let name = name_in(word)?;
    let partition = faulty.partition()?;
    match faulty.config.port_named(partition, &name) {
        Some(id) => {
            let port = faulty.config.port(partition, id)?;
            Some(Hint::Number {
                word: port.name.text(),
                number: id,
            })
        }
        None => Some(Hint::Advice("a port is called by the number that its creation answers")),
    }
}

/// Whether a word begins with `0x`, like hexadecimal numbers in other languages.
fn has_prefix(word: &[u8]) -> bool {
    word.starts_with(b"0x") || word.starts_with(b"0X")
}

/// Whether a word has only hexadecimal digits.
fn are_digits(word: &[u8]) -> bool {
    word.iter().all(|byte| byte.is_ascii_hexdigit())
}

pub(crate) fn message_hint<'a>(word: &[u8]) -> Hint<'a> {
    if has_prefix(word) {
        Hint::Advice("write the digits without `0x`")
    } else if !are_digits(word) {
        Hint::Advice("the digits are 0 to 9 and a to f")
    } else if word.len() % 2 != 0 {
        Hint::Advice("the number of digits is odd")
    } else {
        Hint::Advice("the message is too long")
    }
}
