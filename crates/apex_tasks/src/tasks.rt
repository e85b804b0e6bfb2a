//! The tasks: from the words of the command line to a status.
ghost use Rattle.std.specs.Prelude.{IfSome};
ghost use Rattle.apex_tasks.specs.Task.{IsCheck, IsFileReplay, IsFileRun};

use apex_command_line::{Task, task_of};
use apex_files::{Opener, Refusal, print, read_config, read_file, refuse, scripts_named};
use apex_runs::run_packed_text;
use apex_texts::{check_line, replay_trace};
use apex_threads::OpenGate;
use std::alloc::Global;
use std::convert::AsStr;
use std::io::Write;
use std::sync::Wait;
use std::thread::Threads;

/// Does what the words ask for, and returns the status. A refusal writes one line to `errors`, and nothing to `output`
/// unless `output` itself fails. A run waits for its workers.
pub fn program<R: Threads + Wait + Sync, S: AsStr, O: Opener, W: Write, E: Write>(
    rt: &R,
    alloc: Global,
    words: &[S],
    opener: &O,
    output: &mut W,
    errors: &mut E,
) -> u8 {
    match perform(rt, alloc, words, opener, output) {
        Ok(()) => 0,
        Err(refusal) => refuse(refusal, errors),
    }
}

fn perform<'a, R: Threads + Wait + Sync, S: AsStr, O: Opener, W: Write>(
    rt: &R,
    alloc: Global,
    words: &'a [S],
    opener: &O,
    output: &mut W,
) -> Result<(), Refusal<'a>> {
    let text = match task_of(alloc, words)? {
        Task::Check { config } => check(alloc, opener, config)?,
        Task::Replay { config, trace } => replay_files(alloc, opener, config, trace)?,
        Task::Run { config, scripts } => run_files(rt, alloc, opener, config, scripts.as_slice())?,
    };
    print(output, text.as_bytes())
}

/// The line for the configuration in a file.
fn check<'a, O: Opener>(alloc: Global, opener: &O, path: &'a str) -> Result<String, Refusal<'a>>
    ensures { IfSome (O.bytes_at opener.now path.now) (IsCheck result) }
{
    let config = read_config(alloc, opener, path)?;
    Ok(check_line(alloc, &config)?)
}

/// The report of replaying the trace in a file on the configuration in a file.
fn replay_files<'a, O: Opener>(
    alloc: Global,
    opener: &O,
    config: &'a str,
    trace: &'a str,
) -> Result<String, Refusal<'a>>
    ensures { IfSome (O.bytes_at opener.now config.now)
        (λ c. IfSome (O.bytes_at opener.now trace.now) (IsFileReplay result c)) }
{
    let config = read_config(alloc, opener, config)?;
    let text = read_file(alloc, opener, trace)?;
    match replay_trace(alloc, config, text.as_slice()) {
        Ok(report) => Ok(report),
        Err(fault) => Err(Refusal::Text(fault)),
    }
}

/// The report of a run on the configuration in a file, with the scripts that the arguments name.
#[tactic(auto, using(crate::proofs::TaskLemmas::argument_refused))]
fn run_files<'a, R: Threads + Wait + Sync, O: Opener>(
    rt: &R,
    alloc: Global,
    opener: &O,
    config: &'a str,
    arguments: &[&'a str],
) -> Result<String, Refusal<'a>>
    ensures { IfSome (O.bytes_at opener.now config.now)
        (IsFileRun (O.bytes_at opener.now) arguments.now result) }
{
    let config = read_config(alloc, opener, config)?;
    let scripts = scripts_named(alloc, opener, &config, arguments)?;
    match run_packed_text(rt, alloc, &config, scripts.as_slice(), &OpenGate) {
        Ok(report) => Ok(report),
        Err(fault) => Err(Refusal::Text(fault)),
    }
}
