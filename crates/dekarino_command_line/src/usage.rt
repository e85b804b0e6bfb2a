//! The faults of words that a command doesn't take.
use crate::commands;
use crate::fault::WordsFault;
use clap::error::ErrorKind;
use std::alloc::{AllocError, Global};

/// The fault of words that are not UTF-8.
pub fn not_text(alloc: Global) -> WordsFault {
    fault_of(alloc, "dekarino", "a word is not UTF-8")
}

/// The fault of words that the command with this name doesn't take, or that memory ran out.
pub(crate) fn fault_of(alloc: Global, command: &str, message: &str) -> WordsFault {
    match usage_fault(alloc, command, message) {
        Ok(fault) => fault,
        Err(refused) => WordsFault::from(refused),
    }
}

fn usage_fault(alloc: Global, command: &str, message: &str) -> Result<WordsFault, AllocError> {
    let mut command = commands::alone(alloc, command)?;
    let error = command.error(ErrorKind::InvalidValue, message)?;
    Ok(WordsFault::Usage(error.to_string(alloc)?))
}
