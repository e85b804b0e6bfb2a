//! Boards, lists and ports of modules at the limits, with histories of more than 200,000 calls that use every channel.
use crate::tests::boards::{ask, holds, run};
use crate::tests::module::{Module, config_of};
use crate::tests::records::{are_gone, are_logged, are_shown, are_whole};
use crate::tests::rounds::{CHANNELS, PLACES, ROUNDS, Row, SENDING, USING};
use apex_board::{Board, Request};
use apex_observers::Observer;
use apex_ports::Ports;
use apex_types::OutOfMemory;
use refusing::Switch;
use std::alloc::{AllocError, AllocGlobal, Allocator};
use std::process::Abort;
use std::sync::Wait;
use std::test::Fail;

// The board answers the calls of a round.
pub(crate) fn answers<A: Allocator, R: Abort + Wait>(
    rt: &R,
    board: &mut Board<A>,
    module: Module,
    round: u32,
) -> Result<(), OutOfMemory> {
    for place in 0..PLACES {
        if let Some(row) = module.row(round, place) {
            let reply = ask(rt, board, &row.request)?;
            holds(rt, reply == row.reply, u64::from(round));
        }
    }
    Ok(())
}

// The whole history. The observers read in each round that uses every channel, or only in the last of these.
fn serves<A: Allocator, R: Abort + Wait>(
    rt: &R,
    board: &mut Board<A>,
    observers: &mut [Observer<A>],
    module: Module,
    reads_all: bool,
) -> Result<(), OutOfMemory> {
    answers(rt, board, module, 0)?;
    for round in 1..USING + 1 {
        answers(rt, board, module, round)?;
        if reads_all || round == USING {
            are_shown(rt, observers, module, round);
        }
    }
    answers(rt, board, module, USING + 1)
}

// The history on a new board with observers.
fn board_serves<R: AllocGlobal + Abort + Wait>(
    rt: &R,
    module: Module,
    reads_all: bool,
    calls: usize,
) -> Result<(), Fail> {
    let config = config_of(rt, module)?;
    let (mut board, mut observers) = Board::with_observers(rt, rt.alloc(), config)?;
    let served = serves(rt, &mut board, &mut observers, module, reads_all);
    are_whole(rt, &board, module);
    holds(rt, board.log().len() == calls, 0);
    board.close(rt);
    are_gone(rt, &mut observers);
    Ok(served?)
}

#[test]
fn queuing_channels(rt: HostRuntime) -> Result<(), Fail> {
    let module = Module { queuing: 64, at: 0 };
    board_serves(&rt, module, true, 200_672)
}

#[test]
fn sampling_channels(rt: HostRuntime) -> Result<(), Fail> {
    let module = Module { queuing: 0, at: 0 };
    board_serves(&rt, module, false, 224_928)
}

#[test]
fn channels_of_both_kinds(rt: HostRuntime) -> Result<(), Fail> {
    let module = Module {
        queuing: 32,
        at: u64::MAX,
    };
    board_serves(&rt, module, true, 214_592)
}

// Makes a call on the board while every tenth request for memory is refused, and repeats it if it was refused. Returns
// whether it was.
fn answers_in_the_end<A: Allocator, B: Allocator, R: Abort + Wait>(
    rt: &R,
    switch: &Switch<B>,
    board: &mut Board<A>,
    row: &Row,
) -> Result<bool, OutOfMemory> {
    let made = board.log().len();
    let answered = ask(rt, board, &row.request);
    if switch.refused() == 0 {
        holds(rt, answered? == row.reply, 0);
        return Ok(false);
    }
    switch.refuse_after(9, 1);
    if let Ok(reply) = answered {
        holds(rt, reply == row.reply, 1);
        return Ok(false);
    }
    holds(rt, board.log().len() == made, 2);
    let reply = ask(rt, board, &row.request)?;
    holds(rt, reply == row.reply, 3);
    Ok(true)
}

// The whole history, with every tenth request for memory refused. Returns the number of refused calls.
fn serves_refused<A: Allocator, B: Allocator, R: Abort + Wait>(
    rt: &R,
    switch: &Switch<B>,
    board: &mut Board<A>,
    module: Module,
) -> Result<u32, OutOfMemory> {
    let mut refused = 0u32;
    switch.refuse_after(9, 1);
    for round in 0..ROUNDS {
        for place in 0..PLACES {
            if let Some(row) = module.row(round, place) {
                let is_refused = answers_in_the_end(rt, switch, board, &row)?;
                refused = refused.saturating_add(u32::from(is_refused));
            }
        }
    }
    Ok(refused)
}

#[test]
fn every_tenth_request_refused(rt: HostRuntime) -> Result<(), Fail> {
    let module = Module { queuing: 32, at: 0 };
    let switch = Switch::new(rt.alloc());
    let mut board = Board::new(&rt, &switch, config_of(&rt, module)?)?;
    let refused = serves_refused(&rt, &switch, &mut board, module);
    are_whole(&rt, &board, module);
    board.close(&rt);
    holds(&rt, refused? > 20, 0);
    Ok(())
}

// The module's whole history as a list.
fn requests_of<R: AllocGlobal>(rt: &R, module: Module) -> Result<Vec<Request>, AllocError> {
    let mut requests = Vec::new(rt.alloc());
    for round in 0..ROUNDS {
        for place in 0..PLACES {
            if let Some(row) = module.row(round, place) {
                requests.push(row.request)?;
            }
        }
    }
    Ok(requests)
}

// The board has answered the list.
fn has_answered<A: Allocator>(rt: &impl Abort, board: &Board<A>, module: Module, calls: usize) {
    holds(rt, board.log().len() == calls, 0);
    are_logged(rt, board.log(), module);
    are_whole(rt, board, module);
}

#[test]
fn list_without_room(rt: HostRuntime) -> Result<(), Fail> {
    let module = Module {
        queuing: 32,
        at: u64::MAX,
    };
    let requests = requests_of(&rt, module)?;
    let mut board = Board::new(&rt, rt.alloc(), config_of(&rt, module)?)?;
    let answered = run(&rt, &mut board, &requests);
    has_answered(&rt, &board, module, 214_592);
    board.close(&rt);
    Ok(answered?)
}

fn answers_within_room<A: Allocator, B: Allocator, R: Abort + Wait>(
    rt: &R,
    switch: &Switch<B>,
    board: &mut Board<A>,
    requests: &[Request],
) -> Result<(), Fail> {
    board.reserve(requests.len())?;
    holds(rt, board.room() >= requests.len(), 0);
    switch.refuse_all();
    run(rt, board, requests)?;
    holds(rt, switch.requests() == 0, 1);
    Ok(())
}

#[test]
fn list_within_room(rt: HostRuntime) -> Result<(), Fail> {
    let module = Module { queuing: 2, at: 0 };
    let requests = requests_of(&rt, module)?;
    let switch = Switch::new(rt.alloc());
    let mut board = Board::new(&rt, &switch, config_of(&rt, module)?)?;
    let answered = answers_within_room(&rt, &switch, &mut board, &requests);
    has_answered(&rt, &board, module, 224_282);
    board.close(&rt);
    answered
}

// The ports answer the whole history. Returns the number of their calls.
fn ports_answer<A: Allocator>(rt: &impl Abort, ports: &mut Ports<A>, module: Module) -> u64 {
    let mut calls = 0u64;
    for round in 0..ROUNDS {
        for place in 0..PLACES {
            if let Some(row) = module.row(round, place) {
                let p = row.request.partition;
                assert!(rt; p < ports.config().partitions());
                let reply = ports.call(p, row.request.at, &row.request.call);
                holds(rt, reply == row.reply, u64::from(round));
                calls = calls.saturating_add(1);
            }
        }
    }
    calls
}

// The number of calls that all partitions made.
fn calls_in_all<A: Allocator>(ports: &Ports<A>) -> u64 {
    let mut calls = 0u64;
    for p in 0..ports.config().partitions() {
        calls = calls.saturating_add(ports.calls(p));
    }
    calls
}

// A queuing channel's counts of accepted, received and cleared messages; all are 0 for a sampling channel.
fn counts_of(module: Module, channel: u32) -> [u64; 3] {
    let sent = u64::from(SENDING);
    if !module.is_queuing(channel) {
        [0, 0, 0]
    } else if channel % 2 == 0 {
        [sent, sent, 0]
    } else {
        [sent, 701, 512]
    }
}

fn counts_are_shown<A: Allocator>(rt: &impl Abort, ports: &Ports<A>, module: Module) {
    for channel in 0..CHANNELS {
        let c = channel as usize;
        assert!(rt; c < ports.config().channels());
        let counts = [
            ports.accepted_count(c),
            ports.received_count(c),
            ports.cleared_count(c),
        ];
        holds(rt, counts == counts_of(module, channel), u64::from(channel));
        holds(rt, ports.waiting_count(c) == 0, u64::from(channel));
        let has_sample = ports.last_sample(c).is_some();
        holds(
            rt,
            has_sample != module.is_queuing(channel),
            u64::from(channel),
        );
    }
}

fn ports_serve<R: AllocGlobal + Abort>(rt: &R, module: Module, calls: u64) -> Result<(), Fail> {
    let switch = Switch::new(rt.alloc());
    let mut ports = Ports::new(&switch, config_of(rt, module)?)?;
    switch.refuse_all();
    holds(rt, ports_answer(rt, &mut ports, module) == calls, 0);
    holds(rt, switch.requests() == 0, 1);
    holds(rt, calls_in_all(&ports) == calls, 2);
    counts_are_shown(rt, &ports, module);
    Ok(())
}

#[test]
fn ports_of_queuing_channels(rt: HostRuntime) -> Result<(), Fail> {
    let module = Module {
        queuing: 64,
        at: u64::MAX,
    };
    ports_serve(&rt, module, 200_672)
}

#[test]
fn ports_of_sampling_channels(rt: HostRuntime) -> Result<(), Fail> {
    let module = Module {
        queuing: 0,
        at: u64::MAX,
    };
    ports_serve(&rt, module, 224_928)
}

#[test]
fn ports_of_both_kinds(rt: HostRuntime) -> Result<(), Fail> {
    let module = Module { queuing: 32, at: 0 };
    ports_serve(&rt, module, 214_592)
}
