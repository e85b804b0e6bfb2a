//! What the tests share: boards that answer the calls of traces, and comparisons.
ghost use Rattle.std.specs.Prelude.{◌≡◌, ◌<◌};
ghost use Rattle.apex_observers.specs.Channels.{books_of};

use crate::tests::texts::BASE;
use apex_board::{Board, Entry, Request, Stopped, run_list};
use apex_config::ReadConfig;
use apex_module::Config;
use apex_ports::{CallRef, ReplyRef};
use apex_texts::{push_entry, read_trace};
use apex_types::{Message, OutOfMemory, Reply};
use std::alloc::{AllocError, AllocGlobal, Allocator, Global};
use std::process::Abort;
use std::sync::Wait;
use std::test::Fail;

/// Fails unless `is_so` holds; the number identifies the case.
pub(crate) fn holds(rt: &impl Abort, is_so: bool, case: u64) {
    assert!(rt; is_so, "case {case}");
}

/// The message of these bytes.
pub(crate) fn message(bytes: &[u8]) -> Message {
    match Message::from_bytes(bytes) {
        Ok(message) => message,
        Err(_) => Message::empty(),
    }
}

/// The base configuration.
pub(crate) fn config_of<R: AllocGlobal>(rt: &R) -> Result<Config, Fail> {
    Ok(Config::read(rt.alloc(), BASE.as_bytes())?)
}

/// The requests of a trace for the base configuration.
pub(crate) fn requests_of<R: AllocGlobal>(rt: &R, trace: &str) -> Result<Vec<Request>, Fail> {
    let config = config_of(rt)?;
    Ok(read_trace(rt.alloc(), &config, trace.as_bytes())?)
}

/// Makes a call on the board.
pub(crate) fn ask<A: Allocator, R: Abort + Wait>(
    rt: &R,
    board: &mut Board<A>,
    request: &Request,
) -> Result<Reply, OutOfMemory>
    ensures { books_of board.new.published ≡ books_of board.old.published }
{
    assert!(rt; request.partition < board.config().partitions());
    board.call(rt, request.partition, request.at, &request.call)
}

/// Answers the list, whose partitions the board has.
pub(crate) fn run<A: Allocator, R: Abort + Wait>(
    rt: &R,
    board: &mut Board<A>,
    requests: &[Request],
) -> Result<(), Stopped>
    ensures { books_of board.new.published ≡ books_of board.old.published }
{
    let partitions = board.config().partitions();
    assert!(rt;
        requests
            .iter()
            .all(|request| request.partition < partitions)
    );
    run_list(rt, board, requests)
}

/// The lines of a log.
pub(crate) fn lines_of(
    alloc: Global,
    config: &Config,
    log: &[Entry],
) -> Result<String, AllocError> {
    let mut text = String::new(alloc);
    let mut number = 0u64;
    for entry in log {
        number = number.saturating_add(1);
        if entry.partition < config.partitions() {
            let name = config.partition_name(entry.partition).text();
            let (call, reply) = (CallRef::of(&entry.call), ReplyRef::of(&entry.reply));
            push_entry(&mut text, number, name, entry.at, call, reply)?;
        }
    }
    Ok(text)
}

/// Makes the calls of the trace on the board.
pub(crate) fn makes<R: AllocGlobal + Abort + Wait, A: Allocator>(
    rt: &R,
    board: &mut Board<A>,
    trace: &str,
) -> Result<(), Fail>
    ensures { books_of board.new.published ≡ books_of board.old.published }
{
    let requests = requests_of(rt, trace)?;
    Ok(run(rt, board, &requests)?)
}

// These entries have these lines.
fn are_lines<R: AllocGlobal + Abort, A: Allocator>(
    rt: &R,
    board: &Board<A>,
    entries: &[Entry],
    wanted: &str,
) -> Result<(), AllocError> {
    let lines = lines_of(rt.alloc(), board.config(), entries)?;
    holds(rt, lines.as_str() == wanted, 4);
    Ok(())
}

/// The board answers the calls of the trace with these lines.
pub(crate) fn answers<R: AllocGlobal + Abort + Wait, A: Allocator>(
    rt: &R,
    board: &mut Board<A>,
    trace: &str,
    wanted: &str,
) -> Result<(), Fail> {
    let before = board.log().len();
    makes(rt, board, trace)?;
    let entries = board.log().get(before..).unwrap_or(&[]);
    Ok(are_lines(rt, board, entries, wanted)?)
}
