//! What was expected at the fault of a line, in words.
use apex_module::Config;
use apex_texts::{Expected, SERVICES};
use std::alloc::{AllocError, Global};

/// The maximum number of known words that are listed.
const NAMES_SHOWN: usize = 12;

/// Writes what was expected.
pub(crate) fn push_expected(
    alloc: Global,
    text: &mut String,
    config: &Config,
    expected: Expected,
) -> Result<(), AllocError> {
    text.push_str(expected_words(expected))?;
    match expected {
        Expected::Partition => push_listed(text, partition_names(alloc, config)?.as_slice()),
        Expected::Service => push_listed(text, call_words(alloc)?.as_slice()),
        _ => Ok(()),
    }
}

pub(crate) fn expected_words(expected: Expected) -> &'static str {
    match expected {
        Expected::Ascii => "ASCII",
        Expected::Moment => "a moment: nanoseconds, a whole number without sign and unit",
        Expected::Partition => "the name of a partition",
        Expected::Service => "a call word",
        Expected::Name => "the name of a port: 1 to 30 ASCII letters, digits and `_`",
        Expected::Size => "the size of a message in bytes, a whole number",
        Expected::Depth => "how many messages can wait, a whole number",
        Expected::Direction => "a direction: 0 for SOURCE, 1 for DESTINATION",
        Expected::Discipline => "a queuing discipline: 0 for FIFO, 1 for PRIORITY",
        Expected::Refresh => "a refresh period in nanoseconds, a whole number without unit",
        Expected::Identifier => "the identifier of a port, a whole number",
        Expected::Message => {
            "a message of at most 1,024 bytes: two hexadecimal digits for each, or `-` for none"
        }
        Expected::Mode => "a mode: 0 for IDLE, 1 for COLD_START, 2 for WARM_START, 3 for NORMAL",
        Expected::EndOfLine => "the end of the line",
    }
}

/// The names of the partitions.
pub(crate) fn partition_names<'a>(
    alloc: Global,
    config: &'a Config,
) -> Result<Vec<&'a str>, AllocError> {
    let mut names = Vec::new(alloc);
    for p in 0..config.partitions() {
        names.push(config.partition_name(p).text())?;
    }
    Ok(names)
}

/// The call words of all services.
pub(crate) fn call_words<'a>(alloc: Global) -> Result<Vec<&'a str>, AllocError> {
    let mut words = Vec::new(alloc);
    for service in &SERVICES {
        words.push(service.word())?;
    }
    Ok(words)
}

/// Writes the first of the known words, and `..` if there are more.
fn push_listed(text: &mut String, words: &[&str]) -> Result<(), AllocError> {
    for (index, word) in words.iter().enumerate() {
        if index < NAMES_SHOWN {
            let mark = if index == 0 { ":" } else { "," };
            write!(text, "{mark} {word}")?;
        }
    }
    if words.len() > NAMES_SHOWN {
        text.push_str(", ..")?;
    }
    Ok(())
}
