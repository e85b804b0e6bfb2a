//! Gates that make workers wait for each other, and gates that refuse.
ghost use Rattle.std.specs.Prelude.{◌≡◌, ◌≤◌, ◌⊎◌};

use apex_workers::{Gate, Held};
use std::alloc::{AllocError, Global};
use std::sync::atomic::{AtomicBool, Ordering};
use std::thread;

/// The number of times that a gate looks for a flag before it gives up.
const TURNS: u32 = 10_000_000;

/// Looks for the flag, and yields to other threads each turn.
pub(crate) fn look_for(flag: &AtomicBool) -> Result<(), Held> {
    for _ in 0..TURNS {
        if flag.load(Ordering::SeqCst) {
            return Ok(());
        }
        thread::yield_now();
    }
    Err(Held)
}

pub(crate) fn raise(flag: Option<&AtomicBool>) {
    if let Some(flag) = flag {
        flag.store(true, Ordering::SeqCst);
    }
}

/// The flags of two partitions: each raises its own before and after its first call, and looks for the other's before
/// its first call and before its second.
#[derive(Drop)]
pub(crate) struct TwoFlags {
    came: [AtomicBool; 2],
    answered: [AtomicBool; 2],
}

impl TwoFlags {
    pub(crate) fn new() -> TwoFlags {
        TwoFlags {
            came: [AtomicBool::new(false), AtomicBool::new(false)],
            answered: [AtomicBool::new(false), AtomicBool::new(false)],
        }
    }
}

impl Gate for TwoFlags {
    ghost may_refuse = { λ _ partition n. n ≤ 2 };

    fn pass(&self, partition: usize, n: usize) -> Result<(), Held> {
        let other = if partition == 0 { 1 } else { 0 };
        match n {
            1 => {
                raise(self.came.get(partition));
                look_for(&self.came[other])
            }
            2 => look_for(&self.answered[other]),
            _ => Ok(()),
        }
    }

    fn answered(&self, partition: usize, n: usize) {
        if n == 1 {
            raise(self.answered.get(partition));
        }
    }
}

/// One call waits until another call was answered.
#[derive(Drop)]
pub(crate) struct After {
    waits: (usize, usize),
    first: (usize, usize),
    answered: AtomicBool,
}

impl After {
    /// The call `waits` comes after the call `first`; each is a partition and the number of a call.
    pub(crate) fn new(waits: (usize, usize), first: (usize, usize)) -> After {
        After {
            waits,
            first,
            answered: AtomicBool::new(false),
        }
    }
}

impl Gate for After {
    ghost may_refuse = { λ gate partition n. gate.waits ≡ (partition, n) };

    fn pass(&self, partition: usize, n: usize) -> Result<(), Held> {
        if self.waits == (partition, n) {
            look_for(&self.answered)
        } else {
            Ok(())
        }
    }

    fn answered(&self, partition: usize, n: usize) {
        if self.first == (partition, n) {
            raise(Some(&self.answered));
        }
    }
}

/// The flags of all partitions: each raises its own before its first call, and looks for all of them.
#[derive(Drop)]
pub(crate) struct Together {
    came: Vec<AtomicBool>,
}

impl Together {
    pub(crate) fn new(alloc: Global, partitions: usize) -> Result<Together, AllocError> {
        let mut came = Vec::with_capacity(alloc, partitions)?;
        for _ in 0..partitions {
            came.push(AtomicBool::new(false))?;
        }
        Ok(Together { came })
    }
}

impl Gate for Together {
    ghost may_refuse = { λ _ partition n. n ≡ 1 };

    fn pass(&self, partition: usize, n: usize) -> Result<(), Held> {
        if n != 1 {
            return Ok(());
        }
        raise(self.came.get(partition));
        for flag in &self.came {
            look_for(flag)?;
        }
        Ok(())
    }

    fn answered(&self, _partition: usize, _n: usize) {}
}

/// Refuses two calls, each a partition and the number of a call.
#[derive(Drop)]
pub(crate) struct Refuses {
    pub(crate) one: (usize, usize),
    pub(crate) other: (usize, usize),
}

impl Gate for Refuses {
    ghost may_refuse = { λ gate partition n. (gate.one ≡ (partition, n))
        ⊎ (gate.other ≡ (partition, n)) };

    fn pass(&self, partition: usize, n: usize) -> Result<(), Held> {
        if self.one == (partition, n) || self.other == (partition, n) {
            Err(Held)
        } else {
            Ok(())
        }
    }

    fn answered(&self, _partition: usize, _n: usize) {}
}
