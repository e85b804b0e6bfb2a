//! Observers beside a lock, in a thread of their own, and of a finished run.
use crate::tests::texts::{BASE, TWO_SAMPLING};
use crate::tests::workers::runs_left::{AIR, ask, config_of, holds, message, run, scripts_of};
use apex_board::Board;
use apex_observers::{Observer, Sampled};
use apex_types::Validity::{Invalid, Valid};
use apex_types::{Call, Direction, Moment, Name, NameFault, OutOfMemory, Reply, Validity};
use apex_workers::{Finished, LockedBoard, OpenGate, SharedBoard};
use std::alloc::AllocGlobal;
use std::process::Abort;
use std::sync::atomic::{AtomicBool, Ordering};
use std::sync::{MutexGuard, Wait};
use std::test::Fail;
use std::thread;
use std::thread::Threads;

/// The maximum number of turns that a thread waits for another.
const TURNS: u64 = 10_000_000;

fn sample(bytes: &[u8], at: u64, validity: Validity) -> Sampled {
    Sampled::Sample {
        message: message(bytes),
        at: Moment(at),
        validity,
    }
}

fn writing(bytes: &[u8]) -> Call {
    Call::WriteSampling {
        id: 1,
        message: message(bytes),
    }
}

// AIR creates the source of SPD.
fn creation() -> Result<Call, NameFault> {
    Ok(Call::CreateSampling {
        name: Name::read("SPD_OUT")?,
        size: 4,
        direction: 0,
        refresh: 50,
    })
}

// A board on the base configuration, and the observer of its one sampling channel.
fn observed_board<R: AllocGlobal + Wait + Abort>(rt: &R) -> Result<(Board, Observer), Fail> {
    let config = config_of(rt, BASE)?;
    let (board, mut observers) = Board::with_observers(rt, rt.alloc(), config)?;
    let Some(observer) = observers.pop() else {
        panic!(rt; "the channel has an observer");
    };
    Ok((board, observer))
}

fn shows_before_and_after<R: Wait + Abort>(
    rt: &R,
    board: &mut Board,
    observer: &mut Observer,
    create: &Call,
) -> Result<(), OutOfMemory> {
    ask(rt, board, AIR, Moment(1), create)?;
    holds(rt, observer.read(Moment(5), 50) == Sampled::Empty, 0);
    ask(rt, board, AIR, Moment(100), &writing(&[0, 255]))?;
    let valid = sample(&[0, 255], 100, Valid);
    holds(rt, observer.read(Moment(150), 50) == valid, 1);
    let invalid = sample(&[0, 255], 100, Invalid);
    holds(rt, observer.read(Moment(151), 50) == invalid, 2);
    Ok(())
}

#[test]
fn an_observer_reads_while_the_lock_is_held(rt: HostRuntime) -> Result<(), Fail> {
    let create = creation()?;
    let (board, mut observer) = observed_board(&rt)?;
    let shared = LockedBoard::new(board);
    let mut lent = shared.lock(&rt);
    let shown = shows_before_and_after(&rt, &mut lent, &mut observer, &create);
    MutexGuard::unlock(lent);
    let answered = shared.ask(&rt, AIR, Moment(5), &Call::SamplingStatus { id: 1 });
    shared.into_board().close(&rt);
    let status = Reply::SamplingStatus {
        refresh: 50,
        size: 4,
        direction: Direction::Source,
        last: Invalid,
    };
    holds(&rt, answered == Ok(status), 3);
    Ok(shown?)
}

// Reads until the sample shows, in at most `TURNS` turns. Until then it shows the same as before.
fn waits_for(observer: &mut Observer, before: &Sampled, wanted: &Sampled) -> bool {
    for _ in 0..TURNS {
        let shown = observer.read(Moment(2), 50);
        if &shown != before {
            return &shown == wanted;
        }
        thread::yield_now();
    }
    false
}

fn sees_both(mut observer: Observer, first: &Sampled, second: &Sampled, seen: &AtomicBool) -> bool {
    let one = waits_for(&mut observer, &Sampled::Empty, first);
    seen.store(true, Ordering::SeqCst);
    one && waits_for(&mut observer, first, second)
}

// Waits until the flag is raised, in at most `TURNS` turns.
fn waits_until(seen: &AtomicBool) {
    for _ in 0..TURNS {
        if seen.load(Ordering::SeqCst) {
            break;
        }
        thread::yield_now();
    }
}

fn writes_both<R: Wait + Abort>(
    rt: &R,
    board: &mut Board,
    create: &Call,
    seen: &AtomicBool,
) -> Result<(), OutOfMemory> {
    ask(rt, board, AIR, Moment(1), create)?;
    ask(rt, board, AIR, Moment(1), &writing(&[1]))?;
    waits_until(seen);
    ask(rt, board, AIR, Moment(2), &writing(&[2]))?;
    Ok(())
}

fn watches<R: Threads + Wait + Abort + Sync>(
    rt: &R,
    board: &mut Board,
    observer: Observer,
    create: &Call,
) -> bool {
    let samples = (sample(&[1], 1, Valid), sample(&[2], 2, Valid));
    let flag = AtomicBool::new(false);
    let (first, second, seen) = (&samples.0, &samples.1, &flag);
    thread::scope(thread::scope_env(), rt, |scope| {
        let reading = scope.spawn(move || sees_both(observer, first, second, seen));
        let written = writes_both(rt, board, create, seen).is_ok();
        match reading {
            Ok(reading) => reading.join(rt) && written,
            Err(_refused) => false,
        }
    })
}

#[test]
fn an_observer_without_a_receipt_sees_both_writes(rt: HostRuntime) -> Result<(), Fail> {
    let create = creation()?;
    let (mut board, observer) = observed_board(&rt)?;
    let shown = watches(&rt, &mut board, observer, &create);
    board.close(&rt);
    holds(&rt, shown, 0);
    Ok(())
}

// What both observers show at moment 55, with a refresh period of 50.
fn both_show(rt: &impl Abort, observers: &mut [Observer], first: &Sampled, second: &Sampled) {
    assert!(rt; observers.len() == 2);
    holds(rt, observers[0].read(Moment(55), 50) == *first, 1);
    holds(rt, observers[1].read(Moment(55), 50) == *second, 2);
}

// The observers of a run show this, and show `Gone` after it ends.
fn run_shows<R: Threads + Wait + Sync + Abort + AllocGlobal>(
    rt: &R,
    script: &str,
    first: &Sampled,
    second: &Sampled,
) -> Result<(), Fail> {
    let config = config_of(rt, TWO_SAMPLING)?;
    let scripts = scripts_of(rt.alloc(), &[script, ""])?;
    let Finished {
        board,
        replies: _,
        mut observers,
    } = run(rt, rt.alloc(), &config, &scripts, &OpenGate)?;
    both_show(rt, &mut observers, first, second);
    board.close(rt);
    both_show(rt, &mut observers, &Sampled::Gone, &Sampled::Gone);
    Ok(())
}

#[test]
fn observers_show_the_last_samples_until_the_board_is_closed(rt: HostRuntime) -> Result<(), Fail> {
    let script = "1 create-sampling SPD_OUT 4 0 50
2 create-sampling ALT_OUT 4 0 50
3 write 1 01
4 write 1 02
5 write 3 03
";
    run_shows(
        &rt,
        script,
        &sample(&[2], 4, Invalid),
        &sample(&[3], 5, Valid),
    )
}

// One channel was never created, and what is written to the other is refused.
#[test]
fn observers_of_a_run_that_publishes_nothing(rt: HostRuntime) -> Result<(), Fail> {
    let script = "1 create-sampling SPD_OUT 4 0 50\n2 write 1 -\n3 write 3 03\n";
    run_shows(&rt, script, &Sampled::Empty, &Sampled::Empty)
}
