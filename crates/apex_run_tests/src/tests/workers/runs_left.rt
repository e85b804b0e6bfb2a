//! What the tests share: runs of scripts, and what a run leaves.
use crate::tests::texts::{LEFT_BY_THREE, THREE};
use apex_board::{Board, Entry};
use apex_config::ReadConfig;
use apex_module::Config;
use apex_ports::ReplyRef;
use apex_texts::{push_reply, push_totals, read_script};
use apex_types::{Call, Message, Moment, OutOfMemory, Reply};
use apex_workers::{Finished, Gate, Replies, RunFault, Script, run_scripts};
use std::alloc::{AllocError, AllocGlobal, Allocator, Global};
use std::process::Abort;
use std::sync::Wait;
use std::test::Fail;
use std::thread::Threads;

pub(crate) const FMS: usize = 0;

pub(crate) const DSP: usize = 1;

pub(crate) const AIR: usize = 2;

/// Fails unless `is_so` holds; the number identifies the case.
pub(crate) fn holds(rt: &impl Abort, is_so: bool, case: usize) {
    assert!(rt; is_so, "case {case}");
}

/// The script of this number of mode changes, at the moments from 1 on.
pub(crate) fn mode_changes(alloc: Global, calls: u32) -> Result<Script, AllocError> {
    let mut script = Vec::with_capacity(alloc, calls as usize)?;
    for mode in 0..calls {
        script.push((Moment(u64::from(mode) + 1), Call::SetMode { mode }))?;
    }
    Ok(Script { calls: script })
}

/// The message of these bytes.
pub(crate) fn message(bytes: &[u8]) -> Message {
    match Message::from_bytes(bytes) {
        Ok(message) => message,
        Err(_) => Message::empty(),
    }
}

pub(crate) fn config_of<R: AllocGlobal>(rt: &R, text: &str) -> Result<Config, Fail> {
    Ok(Config::read(rt.alloc(), text.as_bytes())?)
}

/// The scripts of these texts.
pub(crate) fn scripts_of(alloc: Global, texts: &[&str]) -> Result<Vec<Script>, Fail> {
    let mut scripts = Vec::new(alloc);
    for text in texts {
        scripts.push(read_script(alloc, text.as_bytes())?)?;
    }
    Ok(scripts)
}

/// Makes a call of the partition on the board.
pub(crate) fn ask<R: Wait + Abort>(
    rt: &R,
    board: &mut Board,
    partition: usize,
    at: Moment,
    call: &Call,
) -> Result<Reply, OutOfMemory> {
    assert!(rt; partition < board.config().partitions());
    board.call(rt, partition, at, call)
}

/// Runs the scripts, which are as many as the partitions.
pub(crate) fn run<R: Threads + Wait + Sync + Abort, A: Allocator + Copy + Send + Sync, G: Gate>(
    rt: &R,
    alloc: A,
    config: &Config,
    scripts: &[Script],
    gate: &G,
) -> Result<Finished<A>, RunFault> {
    assert!(rt; scripts.len() == config.partitions());
    run_scripts(rt, alloc, config, scripts, gate)
}

/// Closes the board of a run.
pub(crate) fn end<R: Wait, A: Allocator>(rt: &R, finished: Finished<A>) {
    let Finished {
        board,
        replies: _,
        observers: _,
    } = finished;
    board.close(rt);
}

/// What a run leaves: the replies to each worker, a line each, and the last lines of its report.
#[derive(Clone, Copy)]
pub(crate) struct Left<'a> {
    pub(crate) replies: &'a [&'a str],
    pub(crate) totals: &'a str,
}

/// A run of these scripts leaves this.
pub(crate) fn run_leaves<R: Threads + Wait + Sync + Abort + AllocGlobal, G: Gate>(
    rt: &R,
    config: &str,
    scripts: &[&str],
    gate: &G,
    left: Left,
) -> Result<(), Fail> {
    let config = config_of(rt, config)?;
    let scripts = scripts_of(rt.alloc(), scripts)?;
    let finished = run(rt, rt.alloc(), &config, &scripts, gate)?;
    let checked = is_left(rt, &config, &scripts, &finished, left);
    end(rt, finished);
    checked
}

/// A run of the three scripts on the base configuration left what it should.
pub(crate) fn is_left_by_three<R: Abort + AllocGlobal + Wait, A: Allocator>(
    rt: &R,
    config: &Config,
    finished: &Finished<A>,
) -> Result<(), Fail> {
    let scripts = scripts_of(rt.alloc(), THREE)?;
    is_left(rt, config, &scripts, finished, LEFT_BY_THREE)
}

// The finished run left this, and a new board answers the calls of its log in the same way.
fn is_left<R: Abort + AllocGlobal + Wait, A: Allocator>(
    rt: &R,
    config: &Config,
    scripts: &[Script],
    finished: &Finished<A>,
    left: Left,
) -> Result<(), Fail> {
    holds(rt, finished.board.config() == config, 0);
    replies_are(rt, &finished.replies, left.replies)?;
    is_collected(rt, scripts, finished)?;
    let totals = totals_of(rt, config, finished.board.log())?;
    holds(rt, totals.as_str() == left.totals, 1);
    Ok(())
}

/// A line for each reply.
pub(crate) fn lines_of(alloc: Global, replies: &[Reply]) -> Result<String, AllocError> {
    let mut text = String::new(alloc);
    for reply in replies {
        push_reply(&mut text, ReplyRef::of(reply))?;
        text.push_str("\n")?;
    }
    Ok(text)
}

// These are the lines of the replies to each worker.
fn replies_are<R: Abort + AllocGlobal, A: Allocator>(
    rt: &R,
    replies: &[Replies<A>],
    wanted: &[&str],
) -> Result<(), AllocError> {
    holds(rt, replies.len() == wanted.len(), 2);
    for (replies, wanted) in replies.iter().zip(wanted) {
        let lines = lines_of(rt.alloc(), replies.list())?;
        holds(rt, lines.as_str() == *wanted, 3);
    }
    Ok(())
}

/// The log has the calls of each script, each once and in order, and each worker has the replies to its calls.
pub(crate) fn is_collected<R: Abort + AllocGlobal, A: Allocator>(
    rt: &R,
    scripts: &[Script],
    finished: &Finished<A>,
) -> Result<(), Fail> {
    for (p, script) in scripts.iter().enumerate() {
        let Some(replies) = finished.replies.get(p) else {
            panic!(rt; "partition {p} has no replies");
        };
        are_entries(rt, finished.board.log(), p, script, replies.list());
    }
    Ok(())
}

// The entries of the partition in the log are these calls with these replies.
fn are_entries(rt: &impl Abort, log: &[Entry], p: usize, script: &Script, replies: &[Reply]) {
    let mut n = 0usize;
    for entry in log {
        if entry.partition == p {
            let is_next = match script.calls.get(n) {
                Some((at, call)) => *at == entry.at && *call == entry.call,
                None => false,
            };
            holds(rt, is_next, n);
            holds(rt, replies.get(n) == Some(&entry.reply), n);
            n = n.saturating_add(1);
        }
    }
    holds(rt, n == script.calls.len() && n == replies.len(), p);
}

// The last lines of the report of a new board that answers the calls of the log, one after the other. It has the same
// log.
fn totals_of<R: AllocGlobal + Abort + Wait>(
    rt: &R,
    config: &Config,
    log: &[Entry],
) -> Result<String, Fail> {
    let mut board = Board::new(rt, rt.alloc(), config.copy()?)?;
    let mut text = String::new(rt.alloc());
    let answered = repeat(rt, &mut board, log);
    holds(rt, board.log().len() == log.len(), 4);
    holds(rt, board.log() == log, 5);
    let written = push_totals(&mut text, board.ports());
    board.close(rt);
    answered?;
    written?;
    Ok(text)
}

fn repeat<R: Abort + Wait>(rt: &R, board: &mut Board, log: &[Entry]) -> Result<(), OutOfMemory> {
    for entry in log {
        ask(rt, board, entry.partition, entry.at, &entry.call)?;
    }
    Ok(())
}
