//! The simulator of the APEX port services. It reads a configuration and a trace of calls, or a script for each
//! partition, and prints the reply to each call and a report.
#![tactic(auto)]

use apex_command_line::words_given;
use apex_tasks::{Shown, SystemFiles, program, refuse};
use std::process::ExitCode;

fn main(rt: HostRuntime) -> ExitCode {
    let files = SystemFiles { rt: &rt };
    let (mut output, mut errors) = (Shown::new(rt.stdout()), Shown::new(rt.stderr()));
    ExitCode::from(match words_given(&rt) {
        Ok(words) => program(
            &rt,
            rt.alloc(),
            words.as_slice(),
            &files,
            &mut output,
            &mut errors,
        ),
        Err(fault) => refuse(fault.into(), &mut errors),
    })
}
