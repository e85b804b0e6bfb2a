//! A cleared channel.
use crate::tests::boards::{answers, config_of, holds};
use crate::tests::texts::NAV;
use apex_board::Board;
use refusing::Switch;
use std::alloc::{AllocGlobal, Allocator};
use std::process::Abort;
use std::sync::Wait;
use std::test::Fail;

// The messages taken from NAV are these, each of one byte and marked if it was cleared, and none waits.
fn has_taken<A: Allocator>(rt: &impl Abort, board: &Board<A>, wanted: &[(u8, bool)]) {
    assert!(rt; NAV < board.config().channels());
    holds(rt, board.waiting_count(NAV) == 0, 0);
    let taken = board.taken(NAV);
    holds(rt, taken.len() == wanted.len(), 1);
    for (one, (byte, cleared)) in taken.iter().zip(wanted) {
        holds(rt, one.message.bytes() == [*byte].as_slice(), 2);
        holds(rt, one.cleared == *cleared, 3);
    }
}

const OPENING: &str = "1 FMS create-queuing NAV_OUT 4 2 0 0
2 DSP create-queuing NAV_IN 4 2 1 0
3 FMS mode 3
4 DSP mode 3
";

const OPENING_LOG: &str = "1 1 FMS create-queuing NO_ERROR id 1
2 2 DSP create-queuing NO_ERROR id 1
3 3 FMS mode NO_ERROR
4 4 DSP mode NO_ERROR
";

fn takes_whatever_waits<R: AllocGlobal + Abort + Wait>(
    rt: &R,
    board: &mut Board,
) -> Result<(), Fail> {
    answers(rt, board, OPENING, OPENING_LOG)?;
    answers(
        rt,
        board,
        "5 FMS send 1 01
6 FMS send 1 02
7 DSP receive 1
8 FMS send 1 03
9 DSP clear 1
10 FMS send 1 04
11 DSP receive 1
",
        "1 5 FMS send NO_ERROR
2 6 FMS send NO_ERROR
3 7 DSP receive NO_ERROR message 01
4 8 FMS send NO_ERROR
5 9 DSP clear NO_ERROR
6 10 FMS send NO_ERROR
7 11 DSP receive NO_ERROR message 04
",
    )?;
    has_taken(rt, board, &[(1, false), (2, true), (3, true), (4, false)]);
    Ok(())
}

#[test]
fn clear_takes_whatever_waits(rt: HostRuntime) -> Result<(), Fail> {
    let mut board = Board::new(&rt, rt.alloc(), config_of(&rt)?)?;
    let taken = takes_whatever_waits(&rt, &mut board);
    board.close(&rt);
    taken
}

// Nothing waits, so nothing counts as taken or cleared, before the first message and after it.
fn takes_nothing<R: AllocGlobal + Abort + Wait>(rt: &R, board: &mut Board) -> Result<(), Fail> {
    answers(rt, board, OPENING, OPENING_LOG)?;
    answers(rt, board, "5 DSP clear 1\n", "1 5 DSP clear NO_ERROR\n")?;
    has_taken(rt, board, &[]);
    answers(
        rt,
        board,
        "6 FMS send 1 01\n7 DSP receive 1\n8 DSP clear 1\n",
        "1 6 FMS send NO_ERROR\n2 7 DSP receive NO_ERROR message 01\n3 8 DSP clear NO_ERROR\n",
    )?;
    has_taken(rt, board, &[(1, false)]);
    assert!(rt; NAV < board.config().channels());
    holds(rt, board.ports().cleared_count(NAV) == 0, 5);
    Ok(())
}

#[test]
fn clear_of_an_empty_queue(rt: HostRuntime) -> Result<(), Fail> {
    let mut board = Board::new(&rt, rt.alloc(), config_of(&rt)?)?;
    let taken = takes_nothing(&rt, &mut board);
    board.close(&rt);
    taken
}

fn clears_without_memory<R: AllocGlobal + Abort + Wait, A: Allocator, B: Allocator>(
    rt: &R,
    switch: &Switch<B>,
    board: &mut Board<A>,
) -> Result<(), Fail> {
    answers(rt, board, OPENING, OPENING_LOG)?;
    answers(
        rt,
        board,
        "5 FMS send 1 01\n6 FMS send 1 02\n",
        "1 5 FMS send NO_ERROR\n2 6 FMS send NO_ERROR\n",
    )?;
    board.reserve(1)?;
    switch.refuse_all();
    answers(rt, board, "7 DSP clear 1\n", "1 7 DSP clear NO_ERROR\n")?;
    has_taken(rt, board, &[(1, true), (2, true)]);
    Ok(())
}

#[test]
fn clear_takes_room_for_its_entry_alone(rt: HostRuntime) -> Result<(), Fail> {
    let switch = Switch::new(rt.alloc());
    let mut board = Board::new(&rt, &switch, config_of(&rt)?)?;
    let cleared = clears_without_memory(&rt, &switch, &mut board);
    board.close(&rt);
    cleared
}
