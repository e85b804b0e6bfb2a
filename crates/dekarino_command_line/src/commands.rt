//! The commands, as `clap` reads them.
use crate::help;
use clap::{Arg, ArgAction, Command};
use std::alloc::{AllocError, Global};

pub(crate) const CONFIG: &str = "CONFIG";

pub(crate) const CALLS: &str = "TRACE|NAME=SCRIPT";

pub(crate) const TRACE: &str = "TRACE";

pub(crate) const SERVICE: &str = "NAME";

pub(crate) const LOGS: &str = "LOG|NAME=LOG";

pub(crate) const FIRST: &str = "first";

pub(crate) const WHOLE: &str = "whole";

pub(crate) const TIME_OUTS: &str = "time-outs";

pub(crate) const OWN_IDS: &str = "own-ids";

pub(crate) const ORDER: &str = "order";

pub(crate) const SECONDS: &str = "seconds";

pub(crate) const MEMORY: &str = "memory";

pub(crate) const SCRIPTS: &str = "NAME=SCRIPT";

pub(crate) const STATES: &str = "states";

pub(crate) const CLOCK: &str = "clock";

pub(crate) const WHEN: &str = "when";

pub(crate) const NEVER: &str = "never";

pub(crate) const WHY: &str = "why";

pub(crate) const WITNESS: &str = "witness";

pub(crate) const JSON: &str = "json";

/// The command of the whole program.
pub(crate) fn program<'a>(alloc: Global) -> Result<Command<'a>, AllocError> {
    Ok(
        Command::new(alloc, "dekarino")
            .about("Explains configurations, traces, recorded logs and scripts of ARINC 653 ports")
            .after_help(help::PROGRAM)
            .version(crate::VERSION)
            .subcommand_required(true)
            .arg_required_else_help(true)
            .subcommand(table(alloc)?)?
            .subcommand(explain(alloc)?)?
            .subcommand(draw(alloc)?)?
            .subcommand(judge(alloc)?)?
            .subcommand(orders(alloc)?)?
            .subcommand(rows(alloc)?)?,
    )
}

/// An option without a value.
fn flag<'a>(alloc: Global, name: &'a str, help: &'a str) -> Arg<'a> {
    Arg::new(alloc, name)
        .long(name)
        .action(ArgAction::SetTrue)
        .help(help)
}

/// An option with a value.
fn option<'a>(alloc: Global, name: &'a str, value: &'a str, help: &'a str) -> Arg<'a> {
    Arg::new(alloc, name)
        .long(name)
        .value_name(value)
        .help(help)
}

/// An option with a question, which may be given several times.
fn question<'a>(alloc: Global, name: &'a str, help: &'a str) -> Arg<'a> {
    option(alloc, name, "QUESTION", help).action(ArgAction::Append)
}

/// An argument of one file or more.
fn files<'a>(alloc: Global, name: &'a str, help: &'a str) -> Arg<'a> {
    Arg::new(alloc, name)
        .required(true)
        .num_args(1..)
        .help(help)
}

fn json<'a>(alloc: Global) -> Arg<'a> {
    flag(alloc, JSON, help::JSON)
}

fn config<'a>(alloc: Global) -> Arg<'a> {
    Arg::new(alloc, CONFIG)
        .required(true)
        .help("The file of a configuration")
}

/// The command with this name, which its usage has; `dekarino` is the whole program.
pub(crate) fn alone<'a>(alloc: Global, name: &str) -> Result<Command<'a>, AllocError> {
    match name {
        "explain" => explain(alloc)?.bin_name("dekarino explain"),
        "draw" => draw(alloc)?.bin_name("dekarino draw"),
        "judge" => judge(alloc)?.bin_name("dekarino judge"),
        "orders" => orders(alloc)?.bin_name("dekarino orders"),
        _ => program(alloc),
    }
}

fn table<'a>(alloc: Global) -> Result<Command<'a>, AllocError> {
    Command::new(alloc, "table")
        .about("Prints the ports of a configuration")
        .after_help(help::TABLE)
        .arg(config(alloc))?
        .arg(json(alloc))
}

fn explain<'a>(alloc: Global) -> Result<Command<'a>, AllocError> {
    let calls = "The file of a trace, or the file of a script for each partition that has one";
    Command::new(alloc, "explain")
        .about("Prints each call of a trace or a run with its reply, and why")
        .after_help(help::EXPLAIN)
        .arg(config(alloc))?
        .arg(files(alloc, CALLS, calls))?
        .arg(json(alloc))
}

fn draw<'a>(alloc: Global) -> Result<Command<'a>, AllocError> {
    Command::new(alloc, "draw")
        .about("Draws a configuration, or the calls of a trace")
        .after_help(help::DRAW)
        .arg(config(alloc))?
        .arg(Arg::new(alloc, TRACE).help("The file of a trace"))?
        .arg(flag(alloc, JSON, help::ARROWS))
}

fn judge<'a>(alloc: Global) -> Result<Command<'a>, AllocError> {
    let logs = "The file of a log, or the file of a log for each partition that has one";
    Command::new(alloc, "judge")
        .about("Prints where the replies of recorded logs differ from the standard")
        .after_help(help::JUDGE)
        .arg(config(alloc))?
        .arg(files(alloc, LOGS, logs))?
        .arg(flag(alloc, FIRST, help::FIRST))?
        .arg(flag(alloc, WHOLE, help::WHOLE))?
        .arg(flag(alloc, TIME_OUTS, help::TIME_OUTS))?
        .arg(flag(alloc, OWN_IDS, help::OWN_IDS))?
        .arg(option(alloc, ORDER, "FILE", help::ORDER))?
        .arg(option(alloc, SECONDS, "N", help::SECONDS))?
        .arg(option(alloc, MEMORY, "MIB", help::DEAD_ENDS))?
        .arg(json(alloc))
}

fn orders<'a>(alloc: Global) -> Result<Command<'a>, AllocError> {
    let scripts = "The file of a script for each partition that has one";
    Command::new(alloc, "orders")
        .about("Prints every reply that scripts can get, over every order of their calls")
        .after_help(help::ORDERS)
        .arg(config(alloc))?
        .arg(files(alloc, SCRIPTS, scripts))?
        .arg(option(alloc, SECONDS, "N", help::SECONDS))?
        .arg(option(alloc, MEMORY, "MIB", help::MEMORY))?
        .arg(option(alloc, STATES, "N", help::STATES))?
        .arg(flag(alloc, CLOCK, help::CLOCK))?
        .arg(question(alloc, WHEN, help::WHEN))?
        .arg(question(alloc, NEVER, help::NEVER))?
        .arg(question(alloc, WHY, help::WHY))?
        .arg(option(alloc, WITNESS, "FOLDER", help::WITNESS))?
        .arg(json(alloc))
}

fn rows<'a>(alloc: Global) -> Result<Command<'a>, AllocError> {
    Command::new(alloc, "rows")
        .about("Prints the reply table")
        .after_help(help::ROWS)
        .arg(Arg::new(alloc, SERVICE).help("A service"))?
        .arg(json(alloc))
}
