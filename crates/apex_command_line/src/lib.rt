//! The words of the command line. They are in a crate of their own, so that the program's proofs don't need `clap`.
#![tactic(auto)]

ghost use Rattle.std.specs.Prelude.{◌≡◌};
ghost use Rattle.std.specs.IoError.{error_kind};
ghost use Rattle.clap.specs.Words.{kind_of};
ghost use Rattle.apex_command_line.specs.Faults.{given_fault, parsed_fault};
ghost use Rattle.apex_command_line.specs.declared.WordsFault.TheVariants.{OutOfMemory};

use clap::error::ErrorKind;
use clap::{Arg, Command};
use std::alloc::{AllocError, Global};
use std::convert::AsStr;
use std::env::Env;
use std::{env, io};

/// What the program is asked to do, with the paths of the files.
#[derive(Debug, Drop, PartialEq, Eq)]
pub enum Task<'a> {
    /// Reads a configuration.
    Check {
        config: &'a str,
    },
    /// Replays a trace on a configuration.
    Replay {
        config: &'a str,
        trace: &'a str,
    },
    /// Runs the scripts that the arguments `NAME=SCRIPT` give to partitions.
    Run {
        config: &'a str,
        scripts: Vec<&'a str>,
    },
}

/// Why the words don't name a task.
#[derive(Clone, Copy, Debug, PartialEq, Eq)]
pub enum WordsFault {
    /// The words aren't those of the usage line.
    Usage,
    /// An allocation failed.
    OutOfMemory,
}

impl From<AllocError> for WordsFault {
    ghost from_gives = { λ _ given. given ≡ OutOfMemory };

    fn from(_refused: AllocError) -> WordsFault {
        WordsFault::OutOfMemory
    }
}

impl From<clap::Error> for WordsFault {
    ghost from_gives = { λ error given. given ≡ parsed_fault (kind_of error) };

    fn from(error: clap::Error) -> WordsFault {
        match error.kind() {
            ErrorKind::OutOfMemory => WordsFault::OutOfMemory,
            _ => WordsFault::Usage,
        }
    }
}

impl From<io::Error> for WordsFault {
    ghost from_gives = { λ error given. given ≡ given_fault (error_kind error) };

    fn from(error: io::Error) -> WordsFault {
        match error.kind() {
            io::ErrorKind::OutOfMemory => WordsFault::OutOfMemory,
            _ => WordsFault::Usage,
        }
    }
}

/// The words with which the program was started, its own name first.
pub fn words_given<R: Env + AllocGlobal>(rt: &R) -> Result<Vec<String>, WordsFault> {
    Ok(env::args(rt)?.collect(rt.alloc())?)
}

fn command_on_config<'a>(alloc: Global, name: &'a str) -> Result<Command<'a>, AllocError> {
    Command::new(alloc, name).arg(Arg::new(alloc, "CONFIG").required(true))
}

fn replay_command<'a>(alloc: Global) -> Result<Command<'a>, AllocError> {
    let trace = Arg::new(alloc, "TRACE").required(true);
    command_on_config(alloc, "replay")?.arg(trace)
}

fn run_command<'a>(alloc: Global) -> Result<Command<'a>, AllocError> {
    let scripts = Arg::new(alloc, "NAME=SCRIPT").num_args(0..);
    command_on_config(alloc, "run")?.arg(scripts)
}

fn command<'a>(alloc: Global) -> Result<Command<'a>, AllocError> {
    Command::new(alloc, "apexports")
        .subcommand_required(true)
        .subcommand(command_on_config(alloc, "check")?)?
        .subcommand(replay_command(alloc)?)?
        .subcommand(run_command(alloc)?)
}

/// The task that the words name. The first word is the program's own name.
pub fn task_of<'a, S: AsStr>(alloc: Global, words: &'a [S]) -> Result<Task<'a>, WordsFault> {
    let matches = command(alloc)?.try_get_matches_from(words)?;
    let (name, arguments) = matches.subcommand().ok_or(WordsFault::Usage)?;
    let config = arguments.get_str("CONFIG").ok_or(WordsFault::Usage)?;
    match name {
        "check" => Ok(Task::Check { config }),
        "replay" => {
            let trace = arguments.get_str("TRACE").ok_or(WordsFault::Usage)?;
            Ok(Task::Replay { config, trace })
        }
        _ => {
            let mut scripts = Vec::new(alloc);
            scripts.extend_from_slice(arguments.get_strs("NAME=SCRIPT").unwrap_or(&[]))?;
            Ok(Task::Run { config, scripts })
        }
    }
}
