//! Standard input among the files that words name.
use crate::commands;
use clap::ArgMatches;

/// What is wrong with words that name standard input more than once.
pub(crate) const TWICE: &str = "- is standard input, which is read once";

/// Whether the words of a command name standard input more than once.
pub(crate) fn is_read_twice(given: &ArgMatches<'_>) -> bool {
    let mut count: usize = 0;
    for argument in [commands::CONFIG, commands::TRACE] {
        if given.get_str(argument) == Some("-") {
            count = count.saturating_add(1);
        }
    }
    for argument in [commands::CALLS, commands::LOGS, commands::SCRIPTS] {
        for word in given.get_strs(argument).unwrap_or(&[]) {
            if is_input(word) {
                count = count.saturating_add(1);
            }
        }
    }
    count > 1
}

/// Whether a word is `-` or `NAME=-`.
fn is_input(word: &str) -> bool {
    match word.split_once('=') {
        Some((_, path)) => path == "-",
        None => word == "-",
    }
}
