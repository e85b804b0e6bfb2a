//! How much a search may take.
use crate::commands;
use clap::ArgMatches;

/// The bytes of a MiB.
const MIB: usize = 1 << 20;

/// The seconds, if no number is given.
const SECONDS: usize = 60;

/// The MiB, if no number is given.
const MEMORY: usize = 1_024;

/// How much a search may take, and whether moments are of one clock in it. The partitions at the ends of each channel
/// have a search of their own.
#[derive(Clone, Copy, Debug, PartialEq, Eq)]
pub struct SearchLimits {
    pub seconds: usize,
    /// The memory that it may keep, in MiB.
    pub memory: usize,
    /// The number of states that it may find, if that is limited.
    pub states: Option<usize>,
    /// Each call comes before every call of another partition that has a greater moment.
    pub clock: bool,
}

impl SearchLimits {
    /// The memory, in bytes.
    pub fn bytes(&self) -> usize {
        self.memory.saturating_mul(MIB)
    }
}

/// The limits that the options give, or what is wrong with one of them.
pub(crate) fn limits_in(given: &ArgMatches<'_>) -> Result<SearchLimits, &'static str> {
    let seconds = number_in(given, commands::SECONDS).ok_or("--seconds takes a whole number")?;
    let memory = number_in(given, commands::MEMORY).ok_or("--memory takes a whole number")?;
    let states = number_in(given, commands::STATES).ok_or("--states takes a whole number")?;
    Ok(SearchLimits {
        seconds: seconds.unwrap_or(SECONDS),
        memory: memory.unwrap_or(MEMORY),
        states,
        clock: false,
    })
}

/// Whether a limit is given.
pub(crate) fn are_given(given: &ArgMatches<'_>) -> bool {
    given.get_str(commands::SECONDS).is_some() || given.get_str(commands::MEMORY).is_some()
}

/// The number that an option gives, if it is given; `None` where what is given is no number.
fn number_in(given: &ArgMatches<'_>, option: &str) -> Option<Option<usize>> {
    match given.get_str(option) {
        None => Some(None),
        Some(word) => match word.parse() {
            Ok(number) => Some(Some(number)),
            Err(_) => None,
        },
    }
}
