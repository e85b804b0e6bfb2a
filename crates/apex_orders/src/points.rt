//! The known points: the ports at those from which the search has yet to continue.
ghost use Rattle.std.specs.Prelude.{◌≡◌, ◌+◌, ◌-◌, ◌<◌, ◌≤◌, ◌↔◌, ◌++◌, [], ◌∷◌, length, IfOk, OnOk, IsTrue, slice_get, Some};
ghost use Rattle.apex_orders.specs.Known.{ArePoints, IsSameLevel};
ghost use Rattle.apex_orders.specs.Orders.{Scripts};

use apex_module::Config;
use apex_ports::{Ports, SavedPorts};
use apex_types::OutOfMemory;
use std::alloc::Global;
use std::collections::VecDeque;
use std::mem;

/// What is kept of the points, which are found by levels: those after the same number of calls are a level.
#[derive(Drop)]
pub(crate) struct Points {
    /// The index of the first point of the next level.
    pub(crate) next: usize,
    /// The number of calls before each point of the present level.
    pub(crate) calls: usize,
    /// The index of the first point whose ports are saved.
    pub(crate) first: usize,
    pub(crate) saved: VecDeque<SavedPorts>,
    /// About how many bytes the saved ports take.
    pub(crate) bytes: usize,
}

impl Points {
    /// Only the point before the first call.
    pub(crate) fn new(alloc: Global, config: &Config) -> Result<Points, OutOfMemory>
        ensures first { IfOk result (λ points. points.first ≡ 0) }
        ensures next { IfOk result (λ points. points.next ≡ 1) }
        ensures calls { IfOk result (λ points. points.calls ≡ 0) }
        ensures points { IfOk result (λ points. (scripts : Scripts) →
            ArePoints config.now scripts ([] ∷ []) points) }
    {
        let ports = Ports::new(alloc, config.copy()?)?;
        let mut saved = VecDeque::new(alloc);
        saved.push_back(ports.save(alloc)?)?;
        Ok(Points {
            next: 1,
            calls: 0,
            first: 0,
            saved,
            bytes: 0,
        })
    }

    /// Takes the first saved ports.
    pub(crate) fn take(&mut self, count: usize) -> Result<VecDeque<SavedPorts>, OutOfMemory>
        requires count { count ≤ length self.old.saved.items }
        requires room { self.old.first + count ≤ usize.MAX }
        ensures taken { IfOk result
            (λ taken. self.old.saved.items ≡ taken.items ++ self.new.saved.items) }
        ensures count { IfOk result (λ taken. length taken.items ≡ count) }
        ensures first { OnOk result (self.new.first ≡ self.old.first + count) }
        ensures next { OnOk result (self.new.next ≡ self.old.next) }
        ensures calls { OnOk result (self.new.calls ≡ self.old.calls) }
    {
        let bytes = self.bytes.saturating_mul(count) / self.saved.len().max(1);
        let rest = self.saved.split_off(count)?;
        let taken = mem::replace(&mut self.saved, rest);
        self.bytes = self.bytes.saturating_sub(bytes);
        self.first += count;
        Ok(taken)
    }

    /// Adds a point.
    pub(crate) fn push(&mut self, saved: SavedPorts) -> Result<(), OutOfMemory>
        ensures level { IsSameLevel self.old self.new }
        ensures saved { OnOk result
            (self.new.saved.items ≡ self.old.saved.items ++ saved ∷ []) }
    {
        self.bytes = self.bytes.saturating_add(saved.bytes());
        self.saved.push_back(saved)?;
        Ok(())
    }

    /// The ports saved for the point at the index.
    pub(crate) fn saved_at(&self, index: usize) -> &SavedPorts
        requires past { self.now.first ≤ index }
        requires within { index < self.now.first + length self.now.saved.items }
        ensures { slice_get self.now.saved.items (index - self.now.first) ≡ Some result.now }
    {
        self.saved.get(index - self.first).unwrap()
    }
}
