//! Gates, which a worker passes before each of its calls.
ghost use Rattle.std.specs.Prelude.{ℕ, OnErr};

use thiserror::Error;

/// A gate refused a call.
#[derive(Clone, Copy, Debug, PartialEq, Eq, Error)]
#[error("held")]
pub struct Held;

/// A gate that a worker passes before each call. Calls are counted from 1.
pub trait Gate: Sync {
    /// The partitions and calls at which the gate may refuse.
    ghost may_refuse: { Self → ℕ → ℕ → Type 0 };

    /// Lets the worker of a partition make its `n`-th call, or refuses it. The worker calls this before it takes the
    /// lock.
    fn pass(&self, partition: usize, n: usize) -> Result<(), Held>
        ensures { OnErr result (may_refuse self.now partition n) };

    /// Notes that the board was asked for a partition's `n`-th call. The worker calls this after it released the lock.
    fn answered(&self, partition: usize, n: usize);
}

/// The gate that lets every call through.
#[derive(Clone, Copy, Debug)]
pub struct OpenGate;

impl Gate for OpenGate {
    ghost may_refuse = { λ _ partition n. ⊥ };

    fn pass(&self, _partition: usize, _n: usize) -> Result<(), Held> {
        Ok(())
    }

    fn answered(&self, _partition: usize, _n: usize) {}
}
