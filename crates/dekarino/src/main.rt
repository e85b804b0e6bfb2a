//! The tool for people: it explains and draws traces, judges logs, and searches all orders of scripts.
#![tactic(auto)]

use dekarino_command_line::start_given;
use dekarino_tasks::{InputFiles, ProgressLine, Shown, program};
use std::process::ExitCode;

fn main(rt: HostRuntime) -> ExitCode {
    let files = InputFiles { rt: &rt };
    let (mut output, mut errors) = (Shown::new(rt.stdout()), Shown::new(rt.stderr()));
    let mut progress = ProgressLine::new(&rt, rt.stderr());
    let start = start_given(&rt);
    ExitCode::from(program(
        &rt,
        rt.alloc(),
        start,
        &files,
        &mut progress,
        &mut output,
        &mut errors,
    ))
}
