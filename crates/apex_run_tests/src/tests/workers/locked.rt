//! The board behind a lock.
use crate::tests::texts::REDUCED;
use crate::tests::workers::runs_left::{DSP, FMS, ask, config_of, holds};
use apex_board::Board;
use apex_types::{Call, Moment, Name, OutOfMemory, Reply};
use apex_workers::{AskFault, LockedBoard, SharedBoard};
use std::process::Abort;
use std::sync::{MutexGuard, Wait};
use std::test::Fail;

const GO_NORMAL: Call = Call::SetMode { mode: 3 };

// Lends the board, which makes a call. Returns the number of entries that it had before.
fn entries_when_lent<R: Wait + Abort>(rt: &R, shared: &LockedBoard) -> Result<usize, OutOfMemory> {
    let mut board = shared.lock(rt);
    let entries = board.log().len();
    let answered = ask(rt, &mut board, DSP, Moment(1), &GO_NORMAL);
    MutexGuard::unlock(board);
    answered?;
    Ok(entries)
}

// The board is asked and lent, in turns.
fn is_asked_and_lent<R: Wait + Abort>(
    rt: &R,
    shared: &LockedBoard,
    create: &Call,
) -> Result<(), Fail> {
    let asked = shared.ask(rt, FMS, Moment(1), create);
    holds(rt, asked == Ok(Reply::Id(1)), 0);
    for entries in [1, 3, 5] {
        holds(rt, entries_when_lent(rt, shared)? == entries, entries);
        let asked = shared.ask(rt, 2, Moment(2), create);
        holds(rt, asked == Err(AskFault::NoPartition), entries);
        shared.ask(rt, DSP, Moment(2), &GO_NORMAL)?;
    }
    Ok(())
}

// The lock is free again after each call, and its holder has exclusive use of the board. A call of no partition changes
// nothing.
#[test]
fn the_lock_lends_the_board(rt: HostRuntime) -> Result<(), Fail> {
    let create = Call::CreateQueuing {
        name: Name::read("NAV_OUT")?,
        size: 4,
        depth: 2,
        direction: 0,
        discipline: 0,
    };
    let config = config_of(&rt, REDUCED)?;
    let shared = LockedBoard::new(Board::new(&rt, rt.alloc(), config)?);
    let lent = is_asked_and_lent(&rt, &shared, &create);
    let board = shared.into_board();
    holds(&rt, board.log().len() == 7, 7);
    board.close(&rt);
    lent
}
