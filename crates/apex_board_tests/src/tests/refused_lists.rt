//! Refused memory for lists of requests: exactly those before the stop are answered.
use crate::tests::boards::{answers, config_of, holds, requests_of, run};
use crate::tests::refused_memory::ALLOCATION_LIMIT;
use crate::tests::same::shows_same_after;
use crate::tests::texts::{FULL_QUEUE, FULL_QUEUE_LOG};
use apex_board::{Board, Request, Stopped};
use refusing::Switch;
use std::alloc::{AllocGlobal, Allocator};
use std::process::Abort;
use std::sync::Wait;
use std::test::Fail;

// The board answers the requests before the stop until memory runs out, and no others; with memory again it answers the
// rest. Returns how many it answered, and how many allocations were refused.
fn answers_list<R: AllocGlobal + Abort + Wait, A: Allocator, B: Allocator>(
    rt: &R,
    switch: &Switch<B>,
    board: &mut Board<A>,
    requests: &[Request],
) -> Result<(usize, u64), Fail> {
    let done = match run(rt, board, requests) {
        Ok(()) => requests.len(),
        Err(stopped) => stopped.done,
    };
    let refused = switch.refused();
    switch.allow_all();
    goes_on(rt, board, requests, done)?;
    Ok((done, refused))
}

// The board has answered exactly the first `done` requests, and answers the rest.
fn goes_on<R: AllocGlobal + Abort + Wait, A: Allocator>(
    rt: &R,
    board: &mut Board<A>,
    requests: &[Request],
    done: usize,
) -> Result<(), Fail> {
    assert!(rt; done <= requests.len());
    holds(rt, board.log().len() == done, 0);
    shows_same_after(rt, board, &requests[..done])?;
    run(rt, board, &requests[done..])?;
    shows_same_after(rt, board, requests)
}

// A new board answers the list, with `refuse` allocations refused after `granted` others.
fn list_refused_after<R: AllocGlobal + Abort + Wait>(
    rt: &R,
    granted: u64,
    refuse: u64,
    requests: &[Request],
) -> Result<(usize, u64), Fail> {
    let switch = Switch::new(rt.alloc());
    let mut board = Board::new(rt, &switch, config_of(rt)?)?;
    switch.refuse_after(granted, refuse);
    let answered = answers_list(rt, &switch, &mut board, requests);
    board.close(rt);
    answered
}

// The list on a new board, with `refuse` allocations refused after each number of granted ones. It stops if all later
// allocations fail; after a single refusal it may complete.
fn list_refused_in_turn<R: AllocGlobal + Abort + Wait>(rt: &R, refuse: u64) -> Result<(), Fail> {
    let requests = requests_of(rt, FULL_QUEUE)?;
    for granted in 0..ALLOCATION_LIMIT {
        let (done, refused) = list_refused_after(rt, granted, refuse, &requests)?;
        if refused == 0 {
            holds(rt, granted > 0 && done == requests.len(), granted);
            return Ok(());
        }
        holds(rt, refuse == 1 || done < requests.len(), granted);
    }
    panic!(rt; "the sweep does not end");
}

#[test]
fn list_with_one_refusal(rt: HostRuntime) -> Result<(), Fail> {
    list_refused_in_turn(&rt, 1)
}

#[test]
fn list_without_memory(rt: HostRuntime) -> Result<(), Fail> {
    list_refused_in_turn(&rt, u64::MAX)
}

/// Two calls after those of a full queue.
const MORE: &str = "12 FMS send 1 04
13 DSP receive 1
";

const MORE_LOG: &str = "1 12 FMS send NO_ERROR
2 13 DSP receive NO_ERROR message 04
";

fn leaves_room<R: AllocGlobal + Abort + Wait, A: Allocator, B: Allocator>(
    rt: &R,
    switch: &Switch<B>,
    board: &mut Board<A>,
) -> Result<(), Fail> {
    board.reserve(13)?;
    switch.refuse_all();
    answers(rt, board, FULL_QUEUE, FULL_QUEUE_LOG)?;
    holds(rt, board.room() >= 2, 0);
    answers(rt, board, MORE, MORE_LOG)
}

#[test]
fn list_leaves_the_room_beyond_it(rt: HostRuntime) -> Result<(), Fail> {
    let switch = Switch::new(rt.alloc());
    let mut board = Board::new(&rt, &switch, config_of(&rt)?)?;
    let left = leaves_room(&rt, &switch, &mut board);
    board.close(&rt);
    left
}

fn stops_beyond_room<R: AllocGlobal + Abort + Wait, A: Allocator, B: Allocator>(
    rt: &R,
    switch: &Switch<B>,
    board: &mut Board<A>,
) -> Result<(), Fail> {
    let requests = requests_of(rt, FULL_QUEUE)?;
    board.reserve(5)?;
    switch.refuse_all();
    let (done, _refused) = answers_list(rt, switch, board, &requests)?;
    holds(rt, done >= 5 && done < requests.len(), 0);
    Ok(())
}

#[test]
fn list_stops_beyond_its_room(rt: HostRuntime) -> Result<(), Fail> {
    let switch = Switch::new(rt.alloc());
    let mut board = Board::new(&rt, &switch, config_of(&rt)?)?;
    let stopped = stops_beyond_room(&rt, &switch, &mut board);
    board.close(&rt);
    stopped
}

#[test]
fn a_stopped_list_has_the_words_of_refused_memory(rt: HostRuntime) -> Result<(), Fail> {
    let printed = format!(in rt.alloc(); "{}", Stopped { done: 3 })?;
    holds(&rt, printed.as_str() == "out of memory", 0);
    Ok(())
}
