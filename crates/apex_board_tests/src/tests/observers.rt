//! What observers of a board show.
ghost use Rattle.std.specs.Prelude.{◌≡◌, map};
ghost use Rattle.apex_observers.specs.Channels.{AreObservers, books_of};

use crate::tests::boards::{ask, config_of, holds, makes, message};
use crate::tests::texts::AIR;
use apex_board::{Board, Request};
use apex_observers::{Observer, ObserverFault, Sampled};
use apex_types::Validity::{Invalid, Valid};
use apex_types::{Call, Moment, Validity};
use refusing::Switch;
use std::alloc::{AllocGlobal, Allocator};
use std::process::Abort;
use std::sync::Wait;
use std::test::Fail;

/// More allocations than a board with its observers makes.
const ALLOCATION_LIMIT: u64 = 60;

/// The source of SPD is created.
const CREATION: &str = "1 AIR create-sampling SPD_OUT 4 0 50\n";

fn writing(at: u64, bytes: &[u8]) -> Request {
    Request {
        partition: AIR,
        at: Moment(at),
        call: Call::WriteSampling {
            id: 1,
            message: message(bytes),
        },
    }
}

// There is one observer, and it shows this at the moment, with a refresh period of 50.
fn shows<A: Allocator, R: Abort>(rt: &R, observers: &mut [Observer<A>], now: u64, wanted: &Sampled)
    ensures { map (λ known. known.channel) observers.new
        ≡ map (λ known. known.channel) observers.old }
{
    assert!(rt; observers.len() == 1);
    let shown = observers[0].read(Moment(now), 50);
    holds(rt, shown == *wanted, now);
}

// There is one observer. At the moment and with the refresh period of `read`, it shows these bytes, written at `at`.
fn shows_write<A: Allocator, R: Abort>(
    rt: &R,
    observers: &mut [Observer<A>],
    read: (u64, u64),
    bytes: &[u8],
    at: u64,
    validity: Validity,
)
    ensures { map (λ known. known.channel) observers.new
        ≡ map (λ known. known.channel) observers.old }
{
    assert!(rt; observers.len() == 1);
    let (now, refresh) = read;
    let shown = observers[0].read(Moment(now), refresh);
    let wanted = Sampled::Sample {
        message: message(bytes),
        at: Moment(at),
        validity,
    };
    holds(rt, shown == wanted, now);
}

// Writes the message, and gives the observers the receipt.
fn write_and_tell<A: Allocator, R: Abort + Wait>(
    rt: &R,
    board: &mut Board<A>,
    observers: &mut [Observer<A>],
    at: u64,
    bytes: &[u8],
) -> Result<(), Fail>
    requires { AreObservers board.old.published observers.old }
    ensures { AreObservers board.new.published observers.new }
{
    let answered = ask(rt, board, &writing(at, bytes));
    board.tell(observers);
    answered?;
    Ok(())
}

// Observers learn each write, and show it from then on.
fn shows_each_write<A: Allocator, R: Abort + Wait>(
    rt: &R,
    board: &mut Board<A>,
    observers: &mut [Observer<A>],
) -> Result<(), Fail>
    requires { AreObservers board.old.published observers.old }
{
    write_and_tell(rt, board, observers, 7, &[1])?;
    shows_write(rt, observers, (7, 0), &[1], 7, Valid);
    shows_write(rt, observers, (8, 0), &[1], 7, Invalid);
    write_and_tell(rt, board, observers, 9, &[2])?;
    shows_write(rt, observers, (9, 50), &[2], 9, Valid);
    write_and_tell(rt, board, observers, u64::MAX, &[3])?;
    let last = (u64::MAX, u64::MAX);
    shows_write(rt, observers, last, &[3], u64::MAX, Valid);
    Ok(())
}

// The source is created, and each write is shown.
fn shows_all<R: AllocGlobal + Abort + Wait>(
    rt: &R,
    board: &mut Board,
    observers: &mut [Observer],
) -> Result<(), Fail>
    requires { AreObservers board.old.published observers.old }
{
    makes(rt, board, CREATION)?;
    shows_each_write(rt, board, observers)
}

#[test]
fn observer_learns_receipts_in_turn(rt: HostRuntime) -> Result<(), Fail> {
    let (mut board, mut observers) = Board::with_observers(&rt, rt.alloc(), config_of(&rt)?)?;
    let shown = shows_all(&rt, &mut board, &mut observers);
    board.close(&rt);
    shows(&rt, &mut observers, 9, &Sampled::Gone);
    shown
}

/// Calls that publish nothing: refused writes, and calls of other services.
const OTHER_CALLS: &str = "1 FMS create-queuing NAV_OUT 4 2 0 0
2 DSP create-queuing NAV_IN 4 2 1 0
10 AIR write 1 -
11 AIR write 1 0102030405
12 AIR write 2 01
13 AIR read 1
14 FMS send 1 01
15 DSP receive 1
";

// The calls are made before a write, and after it.
fn shows_what_it_showed<R: AllocGlobal + Abort + Wait>(
    rt: &R,
    board: &mut Board,
    observers: &mut [Observer],
) -> Result<(), Fail> {
    makes(rt, board, CREATION)?;
    makes(rt, board, OTHER_CALLS)?;
    shows(rt, observers, 20, &Sampled::Empty);
    ask(rt, board, &writing(100, &[0, 255]))?;
    makes(rt, board, OTHER_CALLS)?;
    shows_write(rt, observers, (150, 50), &[0, 255], 100, Valid);
    Ok(())
}

#[test]
fn calls_that_publish_nothing(rt: HostRuntime) -> Result<(), Fail> {
    let (mut board, mut observers) = Board::with_observers(&rt, rt.alloc(), config_of(&rt)?)?;
    let shown = shows_what_it_showed(&rt, &mut board, &mut observers);
    board.close(&rt);
    shown
}

fn hundred_writes<A: Allocator, B: Allocator, R: AllocGlobal + Abort + Wait>(
    rt: &R,
    switch: &Switch<B>,
    board: &mut Board<A>,
    observers: &mut [Observer<A>],
) -> Result<(), Fail> {
    board.reserve(101)?;
    switch.refuse_all();
    makes(rt, board, CREATION)?;
    for at in 0..100u64 {
        ask(rt, board, &writing(at, &[0, 255]))?;
        shows_write(rt, observers, (at, 50), &[0, 255], at, Valid);
    }
    holds(rt, switch.requests() == 0, 0);
    Ok(())
}

#[test]
fn hundred_writes_within_room(rt: HostRuntime) -> Result<(), Fail> {
    let switch = Switch::new(rt.alloc());
    let (mut board, mut observers) = Board::with_observers(&rt, &switch, config_of(&rt)?)?;
    let written = hundred_writes(&rt, &switch, &mut board, &mut observers);
    board.close(&rt);
    written
}

// The source is created again and again, until the log has no spare room.
fn fill_log<A: Allocator, R: AllocGlobal + Abort + Wait>(
    rt: &R,
    board: &mut Board<A>,
) -> Result<(), Fail>
    ensures { books_of board.new.published ≡ books_of board.old.published }
{
    for _ in 0..board.log_room() {
        makes(rt, board, CREATION)?;
    }
    Ok(())
}

// Memory runs out for a write: afterwards the observers still show the write before it, if there was one. With memory
// the write is repeated.
fn refused_write<A: Allocator, B: Allocator, R: Abort + Wait>(
    rt: &R,
    switch: &Switch<B>,
    board: &mut Board<A>,
    observers: &mut [Observer<A>],
    at: u64,
    before: Option<u64>,
) -> Result<(), Fail>
    requires { AreObservers board.old.published observers.old }
    ensures { AreObservers board.new.published observers.new }
{
    switch.refuse_all();
    let is_refused = ask(rt, board, &writing(at, &[0, 255])).is_err();
    board.tell(observers);
    match before {
        Some(moment) => shows_write(rt, observers, (at, 50), &[0, 255], moment, Valid),
        None => shows(rt, observers, at, &Sampled::Empty),
    }
    holds(rt, is_refused && switch.requests() == 1, at);
    switch.allow_all();
    write_and_tell(rt, board, observers, at, &[0, 255])?;
    shows_write(rt, observers, (at, 50), &[0, 255], at, Valid);
    Ok(())
}

fn refused_writes<A: Allocator, B: Allocator, R: AllocGlobal + Abort + Wait>(
    rt: &R,
    switch: &Switch<B>,
    board: &mut Board<A>,
    observers: &mut [Observer<A>],
) -> Result<(), Fail>
    requires { AreObservers board.old.published observers.old }
{
    makes(rt, board, CREATION)?;
    fill_log(rt, board)?;
    refused_write(rt, switch, board, observers, 100, None)?;
    fill_log(rt, board)?;
    refused_write(rt, switch, board, observers, 101, Some(100))
}

#[test]
fn refused_write_is_not_shown(rt: HostRuntime) -> Result<(), Fail> {
    let switch = Switch::new(rt.alloc());
    let (mut board, mut observers) = Board::with_observers(&rt, &switch, config_of(&rt)?)?;
    let shown = refused_writes(&rt, &switch, &mut board, &mut observers);
    board.close(&rt);
    shown
}

// Whether a board with observers is made if one allocation is refused after `granted` others. A board that is made
// shows that nothing was written, and closes without allocating.
fn is_made<R: AllocGlobal + Abort + Wait>(rt: &R, granted: u64) -> Result<bool, Fail> {
    let config = config_of(rt)?;
    let switch = Switch::new(rt.alloc());
    switch.refuse_after(granted, 1);
    match Board::with_observers(rt, &switch, config) {
        Ok((board, mut observers)) => {
            holds(rt, switch.refused() == 0, granted);
            shows(rt, &mut observers, 1, &Sampled::Empty);
            switch.refuse_all();
            board.close(rt);
            holds(rt, switch.requests() == 0, granted);
            Ok(true)
        }
        Err(fault) => {
            holds(rt, fault == ObserverFault::OutOfMemory, granted);
            holds(rt, switch.refused() == 1, granted);
            Ok(false)
        }
    }
}

#[test]
fn board_with_observers_refused_in_turn(rt: HostRuntime) -> Result<(), Fail> {
    for granted in 0..ALLOCATION_LIMIT {
        if is_made(&rt, granted)? {
            holds(&rt, granted > 0, granted);
            return Ok(());
        }
    }
    panic!(rt; "the sweep does not end");
}
