//! The files that words name.
use crate::task::Files;
use clap::ArgMatches;
use std::alloc::{AllocError, Global};

/// The files that the words of an argument name: one where one word names no partition, or else those of partitions;
/// `None` where words are of both kinds.
pub(crate) fn files_in<'a>(
    alloc: Global,
    given: &ArgMatches<'a>,
    argument: &str,
) -> Result<Option<Files<'a>>, AllocError> {
    let words = given.get_strs(argument).unwrap_or(&[]);
    match words {
        [file] if !names_partition(file) => Ok(Some(Files::One(file))),
        _ if words.iter().all(|word| names_partition(word)) => {
            let mut named = Vec::new(alloc);
            named.extend_from_slice(words)?;
            Ok(Some(Files::OfPartitions(named)))
        }
        _ => Ok(None),
    }
}

/// Whether a name and `=` begin the word.
pub(crate) fn names_partition(word: &str) -> bool {
    match word.split_once('=') {
        Some((name, _)) => !name.is_empty() && name.bytes().all(is_in_name),
        None => false,
    }
}

fn is_in_name(byte: u8) -> bool {
    byte.is_ascii_alphanumeric() || byte == b'_'
}
