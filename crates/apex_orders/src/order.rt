//! Orders of calls.
ghost use Rattle.std.specs.Prelude.{◌≡◌, ◌++◌, ◌∷◌, [], ◌<◌, reverse, IfOk, OnOk};

use std::alloc::{AllocError, Global};
use std::marker::Model;

/// The partitions that make the calls, first to last. A contract sees the list of their numbers.
#[derive(Debug, Drop)]
pub struct Order {
    partitions: Vec<usize>,
}

impl Model for Order {
    ghost use Rattle.std.specs.Prelude.{ℕ, List};

    ghost Value = { List ℕ };

    ghost view = { λ order. order.partitions.items };
}

impl Order {
    /// The order in which these partitions make the calls.
    pub fn new(partitions: Vec<usize>) -> Order
        ensures { result ≡ partitions.items }
    {
        Order { partitions }
    }

    /// The numbers of the partitions.
    pub fn partitions(&self) -> &[usize]
        ensures { result.now ≡ self.now }
    {
        self.partitions.as_slice()
    }
}

/// An order with one byte for each call. A contract sees the list of the partitions' numbers.
#[derive(Drop)]
pub(crate) struct PackedOrder {
    partitions: Vec<u8>,
}

impl Model for PackedOrder {
    ghost use Rattle.std.specs.Prelude.{ℕ, List};

    ghost Value = { List ℕ };

    ghost view = { λ order. order.partitions.items };
}

impl PackedOrder {
    /// The order without calls.
    pub(crate) fn new(alloc: Global) -> PackedOrder
        ensures { result ≡ [] }
    {
        PackedOrder {
            partitions: Vec::new(alloc),
        }
    }

    /// The numbers of the partitions.
    pub(crate) fn partitions(&self) -> &[u8]
        ensures { result.now ≡ self.now }
    {
        self.partitions.as_slice()
    }

    /// Removes all calls.
    pub(crate) fn clear(&mut self)
        ensures { self.new ≡ [] }
    {
        self.partitions.clear();
    }

    /// Adds a call at the end.
    pub(crate) fn push(&mut self, p: u8) -> Result<(), AllocError>
        ensures { OnOk result (self.new ≡ self.old ++ p ∷ []) }
    {
        self.partitions.push(p)?;
        Ok(())
    }

    /// Puts the calls into the opposite order.
    pub(crate) fn reverse(&mut self)
        ensures { self.new ≡ reverse self.old }
    {
        self.partitions.as_mut_slice().reverse();
    }

    /// The order followed by one more call.
    pub(crate) fn followed_by(&self, alloc: Global, p: usize) -> Result<PackedOrder, AllocError>
        requires { p < 256 }
        ensures { IfOk result (λ order. order ≡ self.now ++ p ∷ []) }
    {
        let mut partitions = Vec::with_capacity(alloc, self.partitions.len() + 1)?;
        partitions.extend_from_slice(self.partitions.as_slice())?;
        partitions.push(p as u8)?;
        Ok(PackedOrder { partitions })
    }

    /// The order with `usize` numbers.
    pub(crate) fn unpacked(&self, alloc: Global) -> Result<Order, AllocError>
        ensures { IfOk result (λ order. order ≡ self.now) }
    {
        let mut partitions = Vec::with_capacity(alloc, self.partitions.len())?;
        for p in self.partitions.as_slice() {
            partitions.push(*p as usize)?;
        }
        Ok(Order::new(partitions))
    }
}
