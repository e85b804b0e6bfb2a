//! Workers over a board in memory that refuses calls.
use super::runs_left::{holds, mode_changes};
use apex_types::{Call, Moment, Reply, ReturnCode};
use apex_workers::{AskFault, OpenGate, RunFault, SharedBoard, pack_all, run_over};
use std::alloc::{AllocError, Global};
use std::process::Abort;
use std::sync::Wait;
use std::sync::atomic::{AtomicU64, Ordering};
use std::test::Fail;
use std::thread::Threads;

/// A board that answers NO_ERROR, except that it refuses the second call of each partition that has a refusal.
#[derive(Drop)]
struct Fake {
    asked: [AtomicU64; 2],
    refusals: [Option<AskFault>; 2],
}

impl Fake {
    fn new(refusals: [Option<AskFault>; 2]) -> Fake {
        Fake {
            asked: [AtomicU64::new(0), AtomicU64::new(0)],
            refusals,
        }
    }

    fn asked(&self) -> [u64; 2] {
        [
            self.asked[0].load(Ordering::SeqCst),
            self.asked[1].load(Ordering::SeqCst),
        ]
    }
}

impl SharedBoard for Fake {
    fn ask<R: Wait>(
        &self,
        _rt: &R,
        partition: usize,
        _at: Moment,
        _call: &Call,
    ) -> Result<Reply, AskFault> {
        if partition >= 2 {
            return Err(AskFault::NoPartition);
        }
        let before = self.asked[partition].fetch_add(1, Ordering::SeqCst);
        match self.refusals[partition] {
            Some(refusal) if before == 1 => Err(refusal),
            _ => Ok(Reply::Code(ReturnCode::NoError)),
        }
    }
}

// The fault of two workers with four calls each over the board.
fn fault_over<R: Threads + Wait + Sync + Abort>(
    rt: &R,
    alloc: Global,
    fake: &Fake,
) -> Result<Option<RunFault>, AllocError> {
    let script = mode_changes(alloc, 4)?;
    let scripts = pack_all(alloc, &[script, mode_changes(alloc, 4)?])?;
    Ok(run_over(rt, alloc, fake, &OpenGate, &scripts).err())
}

const NO_MEMORY: Option<AskFault> = Some(AskFault::OutOfMemory);

const FOREIGN: Option<AskFault> = Some(AskFault::NoPartition);

/// The refusals of two workers' second calls, the number of requests that each worker then makes, and the resulting
/// fault.
const CASES: [([Option<AskFault>; 2], [u64; 2], Option<RunFault>); 6] = [
    ([None, None], [4, 4], None),
    ([NO_MEMORY, None], [2, 4], Some(RunFault::OutOfMemory)),
    ([None, NO_MEMORY], [4, 2], Some(RunFault::OutOfMemory)),
    ([None, FOREIGN], [4, 2], Some(RunFault::ResultsDiffer)),
    ([FOREIGN, NO_MEMORY], [2, 2], Some(RunFault::ResultsDiffer)),
    ([NO_MEMORY, FOREIGN], [2, 2], Some(RunFault::OutOfMemory)),
];

#[test]
fn a_worker_stops_and_the_other_ends_its_script(rt: HostRuntime) -> Result<(), Fail> {
    let mut number = 0usize;
    let cases = CASES;
    for (refusals, asked, fault) in &cases {
        let fake = Fake::new(*refusals);
        let ended = fault_over(&rt, rt.alloc(), &fake)?;
        holds(&rt, ended == *fault, number);
        holds(&rt, fake.asked() == *asked, number);
        number = number.saturating_add(1);
    }
    Ok(())
}
