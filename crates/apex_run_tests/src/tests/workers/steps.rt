//! The order of a worker's steps: for each call in turn it passes its gate, asks the board, and reports to the gate.
use super::gates::look_for;
use super::runs_left::{holds, mode_changes};
use apex_types::{Call, Moment, Reply, ReturnCode};
use apex_workers::{AskFault, Gate, Held, OpenGate, PackedScript, SharedBoard, run_over};
use std::alloc::{AllocError, Global};
use std::sync::Wait;
use std::sync::atomic::{AtomicBool, AtomicU64, Ordering};
use std::test::Fail;

const WORKERS: usize = 8;

/// The number of calls of each worker.
const CALLS: u32 = 200;

/// A gate and a board in one, which counts the steps of each worker and notes whether one was out of turn.
#[derive(Drop)]
struct Steps {
    taken: Vec<AtomicU64>,
    out_of_turn: AtomicBool,
}

impl Steps {
    fn new(alloc: Global) -> Result<Steps, AllocError> {
        let mut taken = Vec::with_capacity(alloc, WORKERS)?;
        for _ in 0..WORKERS {
            taken.push(AtomicU64::new(0))?;
        }
        Ok(Steps {
            taken,
            out_of_turn: AtomicBool::new(false),
        })
    }

    // The worker takes the step that follows this many others.
    fn step(&self, partition: usize, before: u64) {
        let is_next = match self.taken.get(partition) {
            Some(taken) => taken.fetch_add(1, Ordering::SeqCst) == before,
            None => false,
        };
        if !is_next {
            self.out_of_turn.store(true, Ordering::SeqCst);
        }
    }
}

// The number of steps that a worker takes before it passes its gate for the `n`-th call, counted from 1.
fn steps_before(n: u64) -> u64 {
    n.wrapping_sub(1).wrapping_mul(3)
}

impl Gate for Steps {
    ghost may_refuse = { λ _ partition n. ⊥ };

    fn pass(&self, partition: usize, n: usize) -> Result<(), Held> {
        self.step(partition, steps_before(n as u64));
        Ok(())
    }

    fn answered(&self, partition: usize, n: usize) {
        self.step(partition, steps_before(n as u64).wrapping_add(2));
    }
}

impl SharedBoard for Steps {
    // The moment of a call is its number.
    fn ask<R: Wait>(
        &self,
        _rt: &R,
        partition: usize,
        at: Moment,
        _call: &Call,
    ) -> Result<Reply, AskFault> {
        let Moment(n) = at;
        self.step(partition, steps_before(n).wrapping_add(1));
        Ok(Reply::Code(ReturnCode::NoError))
    }
}

fn scripts_of(alloc: Global, workers: usize, calls: u32) -> Result<Vec<PackedScript>, AllocError> {
    let mut scripts = Vec::with_capacity(alloc, workers)?;
    for _ in 0..workers {
        scripts.push(PackedScript::pack(alloc, &mode_changes(alloc, calls)?)?)?;
    }
    Ok(scripts)
}

#[test]
fn pass_call_answered_of_each_call(rt: HostRuntime) -> Result<(), Fail> {
    let scripts = scripts_of(rt.alloc(), WORKERS, CALLS)?;
    let steps = Steps::new(rt.alloc())?;
    run_over(&rt, rt.alloc(), &steps, &steps, &scripts)?;
    holds(&rt, !steps.out_of_turn.load(Ordering::SeqCst), 0);
    for taken in &steps.taken {
        let all = taken.load(Ordering::SeqCst);
        holds(&rt, all == 3 * u64::from(CALLS), 1);
    }
    Ok(())
}

/// A board in which each of two workers waits in its first call until the other is in its own.
#[derive(Drop)]
struct Meeting {
    came: [AtomicBool; 2],
}

impl SharedBoard for Meeting {
    fn ask<R: Wait>(
        &self,
        _rt: &R,
        partition: usize,
        _at: Moment,
        _call: &Call,
    ) -> Result<Reply, AskFault> {
        if partition >= 2 {
            return Err(AskFault::NoPartition);
        }
        self.came[partition].store(true, Ordering::SeqCst);
        match look_for(&self.came[1 - partition]) {
            Ok(()) => Ok(Reply::Code(ReturnCode::NoError)),
            Err(Held) => Err(AskFault::OutOfMemory),
        }
    }
}

// So both are between their gate and its report at the same time.
#[test]
fn two_workers_ask_at_the_same_time(rt: HostRuntime) -> Result<(), Fail> {
    let scripts = scripts_of(rt.alloc(), 2, 1)?;
    let meeting = Meeting {
        came: [AtomicBool::new(false), AtomicBool::new(false)],
    };
    let replies = run_over(&rt, rt.alloc(), &meeting, &OpenGate, &scripts)?;
    holds(&rt, replies.len() == 2, 0);
    Ok(())
}
