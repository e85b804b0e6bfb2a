//! Each worker has a thread of its own, besides the caller's.
ghost use Rattle.std.specs.Prelude.{◌≡◌};

use super::gates::{Together, look_for, raise};
use super::runs_left::{config_of, end, holds, mode_changes, run};
use crate::tests::texts::without_ports;
use apex_workers::{Gate, Held, Script};
use std::alloc::{AllocError, Global};
use std::fs;
use std::rt::Runtime;
use std::sync::atomic::{AtomicBool, AtomicU64, Ordering};
use std::test::Fail;

const WORKERS: usize = 8;

/// All workers reach their first calls, and stay there until the first of them has counted the process's threads.
#[derive(Drop)]
struct Counts<'a, R> {
    rt: &'a R,
    together: Together,
    threads: AtomicU64,
    counted: AtomicBool,
}

impl<R: Runtime + Sync> Gate for Counts<'_, R> {
    ghost may_refuse = { λ _ partition n. n ≡ 1 };

    fn pass(&self, partition: usize, n: usize) -> Result<(), Held> {
        if n != 1 {
            return Ok(());
        }
        self.together.pass(partition, n)?;
        if partition == 0 {
            let threads = count_threads(self.rt).unwrap_or(0);
            self.threads.store(threads, Ordering::SeqCst);
            raise(Some(&self.counted));
        }
        look_for(&self.counted)
    }

    fn answered(&self, _partition: usize, _n: usize) {}
}

// As Linux reports it.
fn count_threads<R: Runtime>(rt: &R) -> Option<u64> {
    let status = fs::read(rt, "/proc/self/status").ok()?;
    let text = str::from_utf8(status.as_slice()).ok()?;
    let (_, after) = text.split_once("Threads:\t")?;
    let (count, _) = after.split_once('\n')?;
    count.parse().ok()
}

fn scripts(alloc: Global) -> Result<Vec<Script>, AllocError> {
    let mut scripts = Vec::new(alloc);
    for _ in 0..WORKERS {
        scripts.push(mode_changes(alloc, 1)?)?;
    }
    Ok(scripts)
}

#[test]
fn eight_workers_and_their_caller_are_nine_threads(rt: HostRuntime) -> Result<(), Fail> {
    let text = without_ports(rt.alloc(), WORKERS)?;
    let config = config_of(&rt, text.as_str())?;
    let scripts = scripts(rt.alloc())?;
    let gate = Counts {
        rt: &rt,
        together: Together::new(rt.alloc(), WORKERS)?,
        threads: AtomicU64::new(0),
        counted: AtomicBool::new(false),
    };
    let finished = run(&rt, rt.alloc(), &config, &scripts, &gate)?;
    end(&rt, finished);
    holds(&rt, gate.threads.load(Ordering::SeqCst) == 9, 0);
    Ok(())
}
