//! What the program was started with.
use crate::fault::WordsFault;
use crate::usage::not_text;
use apex_command_line::words_given;
use std::env;
use std::env::{Env, VarError};

/// The variable of the environment by which the script of the program tells the toolchain that proved it.
const TOOLCHAIN: &str = "DEKARINO_TOOLCHAIN";

/// The variable of the environment by which the script of the program tells the commit of its checkout.
const COMMIT: &str = "DEKARINO_COMMIT";

/// The variable of the environment that has the width of the terminal.
const COLUMNS: &str = "COLUMNS";

/// The least width to which text is wrapped.
const LEAST_COLUMNS: usize = 40;

/// What the program was started with.
#[derive(Debug, Drop)]
pub struct Start {
    /// The words, the program's own name first.
    pub words: Vec<String>,
    /// Where the program comes from.
    pub origin: Origin,
    /// How many characters a line of help has at most, if it is wrapped.
    pub columns: Option<usize>,
}

/// Where the program comes from, as far as that is known.
#[derive(Debug, Drop)]
pub struct Origin {
    /// The line of the toolchain that proved the program, as `rt version` prints it.
    pub toolchain: Option<String>,
    /// The commit of the program's checkout.
    pub commit: Option<String>,
}

/// What the program was started with.
pub fn start_given<R: Env + AllocGlobal>(rt: &R) -> Result<Start, WordsFault> {
    let words = match words_given(rt) {
        Ok(words) => words,
        Err(apex_command_line::WordsFault::Usage) => return Err(not_text(rt.alloc())),
        Err(apex_command_line::WordsFault::OutOfMemory) => return Err(WordsFault::OutOfMemory),
    };
    let origin = Origin {
        toolchain: value_given(rt, TOOLCHAIN)?,
        commit: value_given(rt, COMMIT)?,
    };
    let columns = columns_in(&value_given(rt, COLUMNS)?);
    Ok(Start {
        words,
        origin,
        columns,
    })
}

/// The width that the text is, if it is a width to which text can be wrapped.
fn columns_in(value: &Option<String>) -> Option<usize> {
    let Some(text) = value else {
        return None;
    };
    match text.as_str().parse() {
        Ok(columns) if columns >= LEAST_COLUMNS => Some(columns),
        _ => None,
    }
}

/// The value of a variable of the environment, if it has one that is text.
fn value_given<R: Env + AllocGlobal>(rt: &R, name: &str) -> Result<Option<String>, WordsFault> {
    match env::var(rt, name) {
        Ok(value) => Ok(Some(value)),
        Err(VarError::OutOfMemory) => Err(WordsFault::OutOfMemory),
        Err(_) => Ok(None),
    }
}
