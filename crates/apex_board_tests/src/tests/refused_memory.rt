//! Refused memory, call by call: a refusal changes nothing that a reader shows, and never happens to a call within the
//! room.
use crate::tests::boards::{answers, ask, config_of, holds, makes, requests_of, run};
use crate::tests::same::{shows_same_after, shows_same_as};
use crate::tests::texts::{FULL_QUEUE, NAV, ONE_SAMPLE};
use apex_board::{Board, Request};
use refusing::Switch;
use std::alloc::{AllocGlobal, Allocator};
use std::process::Abort;
use std::sync::Wait;
use std::test::Fail;

/// More allocations than any call of these examples makes.
pub(crate) const ALLOCATION_LIMIT: u64 = 40;

/// FMS creates its port and sends a message, and DSP creates its port.
const THREE_CALLS: &str = "5 FMS create-queuing NAV_OUT 4 2 0 0
5 FMS send 1 01
5 DSP create-queuing NAV_IN 4 2 1 0
";

const THREE_CALLS_LOG: &str = "1 5 FMS create-queuing NO_ERROR id 1
2 5 FMS send NO_ERROR
3 5 DSP create-queuing NO_ERROR id 1
";

fn serves_within_room<R: AllocGlobal + Abort + Wait, A: Allocator, B: Allocator>(
    rt: &R,
    switch: &Switch<B>,
    board: &mut Board<A>,
) -> Result<(), Fail> {
    board.reserve(3)?;
    holds(rt, board.room() >= 3, 0);
    switch.refuse_all();
    answers(rt, board, THREE_CALLS, THREE_CALLS_LOG)?;
    shows_same_as(rt, board, THREE_CALLS)?;
    holds(rt, switch.requests() == 0, 1);
    accepted_one(rt, board);
    Ok(())
}

// NAV has one accepted message, which waits.
fn accepted_one<A: Allocator>(rt: &impl Abort, board: &Board<A>) {
    assert!(rt; NAV < board.config().channels());
    holds(rt, board.accepted(NAV).len() == 1, 3);
    holds(rt, board.taken(NAV).len() == 0, 4);
    holds(rt, board.waiting_count(NAV) == 1, 5);
}

#[test]
fn room_serves_without_memory(rt: HostRuntime) -> Result<(), Fail> {
    let switch = Switch::new(rt.alloc());
    let mut board = Board::new(&rt, &switch, config_of(&rt)?)?;
    let served = serves_within_room(&rt, &switch, &mut board);
    board.close(&rt);
    served
}

// Whether a board is made if one allocation is refused after `granted` others.
fn is_made<R: AllocGlobal + Abort + Wait>(rt: &R, granted: u64) -> Result<bool, Fail> {
    let config = config_of(rt)?;
    let switch = Switch::new(rt.alloc());
    switch.refuse_after(granted, 1);
    let Ok(board) = Board::new(rt, &switch, config) else {
        holds(rt, switch.refused() == 1, granted);
        return Ok(false);
    };
    holds(rt, switch.refused() == 0, granted);
    let same = shows_same_after(rt, &board, &[]);
    board.close(rt);
    same?;
    Ok(true)
}

#[test]
fn new_board_refused_in_turn(rt: HostRuntime) -> Result<(), Fail> {
    for granted in 0..ALLOCATION_LIMIT {
        if is_made(&rt, granted)? {
            holds(&rt, granted > 0, granted);
            return Ok(());
        }
    }
    panic!(rt; "the sweep does not end");
}

// Calls `reserve` with one allocation refused after `granted` others. Returns whether it was refused.
fn reserves<R: AllocGlobal + Abort + Wait, A: Allocator, B: Allocator>(
    rt: &R,
    switch: &Switch<B>,
    board: &mut Board<A>,
    granted: u64,
) -> Result<bool, Fail> {
    makes(rt, board, FULL_QUEUE)?;
    let room = board.room();
    switch.refuse_after(granted, 1);
    let is_refused = board.reserve(100).is_err();
    holds(rt, is_refused == (switch.refused() > 0), granted);
    holds(rt, board.room() >= room, granted);
    shows_same_as(rt, board, FULL_QUEUE)?;
    board.reserve(100)?;
    holds(rt, board.room() >= 100, granted);
    Ok(is_refused)
}

fn reserve_refused_after<R: AllocGlobal + Abort + Wait>(
    rt: &R,
    granted: u64,
) -> Result<bool, Fail> {
    let switch = Switch::new(rt.alloc());
    let mut board = Board::new(rt, &switch, config_of(rt)?)?;
    let refused = reserves(rt, &switch, &mut board, granted);
    board.close(rt);
    refused
}

#[test]
fn reserve_refused_in_turn(rt: HostRuntime) -> Result<(), Fail> {
    for granted in 0..ALLOCATION_LIMIT {
        if !reserve_refused_after(&rt, granted)? {
            holds(&rt, granted > 0, granted);
            return Ok(());
        }
    }
    panic!(rt; "the sweep does not end");
}

// Makes the last request after those before it, with one allocation refused after `granted` others. Returns whether the
// request was refused.
fn answers_last<R: AllocGlobal + Abort + Wait, A: Allocator, B: Allocator>(
    rt: &R,
    switch: &Switch<B>,
    board: &mut Board<A>,
    granted: u64,
    requests: &[Request],
) -> Result<bool, Fail> {
    let Some((last, before)) = requests.split_last() else {
        return Ok(false);
    };
    run(rt, board, before)?;
    let is_refused = refuses(rt, switch, board, granted, last);
    if is_refused {
        shows_same_after(rt, board, before)?;
        ask(rt, board, last)?;
    }
    shows_same_after(rt, board, requests)?;
    Ok(is_refused)
}

// Whether the board refuses the request if one allocation is refused after `granted` others.
fn refuses<A: Allocator, B: Allocator, R: Abort + Wait>(
    rt: &R,
    switch: &Switch<B>,
    board: &mut Board<A>,
    granted: u64,
    request: &Request,
) -> bool {
    let room = board.room();
    switch.refuse_after(granted, 1);
    let is_refused = ask(rt, board, request).is_err();
    holds(rt, is_refused == (switch.refused() > 0), granted);
    holds(rt, !is_refused || board.room() >= room, granted);
    switch.allow_all();
    is_refused
}

fn call_refused_after<R: AllocGlobal + Abort + Wait>(
    rt: &R,
    granted: u64,
    requests: &[Request],
) -> Result<bool, Fail> {
    let switch = Switch::new(rt.alloc());
    let mut board = Board::new(rt, &switch, config_of(rt)?)?;
    let refused = answers_last(rt, &switch, &mut board, granted, requests);
    board.close(rt);
    refused
}

// Makes the last request after those before it, with each of its allocations refused in turn. Returns whether there was
// one.
fn call_refused_in_turn<R: AllocGlobal + Abort + Wait>(
    rt: &R,
    requests: &[Request],
) -> Result<bool, Fail> {
    for granted in 0..ALLOCATION_LIMIT {
        if !call_refused_after(rt, granted, requests)? {
            return Ok(granted > 0);
        }
    }
    panic!(rt; "the sweep does not end");
}

// Makes each call of the trace after those before it, with each of its allocations refused in turn.
fn calls_refused_in_turn<R: AllocGlobal + Abort + Wait>(rt: &R, trace: &str) -> Result<(), Fail> {
    let requests = requests_of(rt, trace)?;
    let mut is_met = false;
    for done in 0..requests.len() {
        is_met |= call_refused_in_turn(rt, &requests[..done + 1])?;
    }
    holds(rt, is_met, 0);
    Ok(())
}

#[test]
fn calls_of_a_full_queue_refused_in_turn(rt: HostRuntime) -> Result<(), Fail> {
    calls_refused_in_turn(&rt, FULL_QUEUE)
}

#[test]
fn calls_of_a_sample_refused_in_turn(rt: HostRuntime) -> Result<(), Fail> {
    calls_refused_in_turn(&rt, ONE_SAMPLE)
}
