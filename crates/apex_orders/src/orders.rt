//! The orders that a search has found.
ghost use Rattle.std.specs.Prelude.{◌≡◌, ◌<◌, ◌++◌, ◌∷◌, [], map, length, OnOk, IfOk};
ghost use Rattle.apex_orders.specs.Orders.{order_at};

use crate::order::PackedOrder;
use apex_types::OutOfMemory;
use std::alloc::Global;
use std::marker::Model;

/// An order's last call, and the order up to that call.
#[derive(Clone, Copy)]
struct LastCall {
    /// The index of the order that this one continues.
    before: u32,
    partition: u8,
}

/// Orders: first the one without calls, then orders that continue earlier ones by a call. A contract sees a list.
#[derive(Drop)]
pub(crate) struct Orders {
    last_calls: Vec<LastCall>,
}

impl Model for Orders {
    ghost use Rattle.std.specs.Prelude.{ℕ, List};
    ghost use Rattle.apex_orders.specs.Growth.{orders_of, ContinueEarlier};

    ghost Value = { List (List ℕ) };

    ghost view = { λ orders. orders_of orders.last_calls.items };

    ghost invariant = { λ orders. ContinueEarlier orders.last_calls.items };
}

impl Orders {
    /// Only the order without calls.
    pub(crate) fn new(alloc: Global) -> Orders
        ensures { result ≡ [] ∷ [] }
    {
        Orders {
            last_calls: Vec::new(alloc),
        }
    }

    /// The number of orders.
    pub(crate) fn len(&self) -> usize
        ensures { result ≡ length self.now }
    {
        self.last_calls.len() + 1
    }

    /// Adds the order at an index, followed by one more call. There is room for 2^32 orders to continue.
    pub(crate) fn push(&mut self, before: usize, p: usize) -> Result<(), OutOfMemory>
        requires within { before < length self.old }
        requires partition { p < 256 }
        ensures { OnOk result
            (self.new ≡ self.old ++ (order_at self.old before ++ p ∷ []) ∷ []) }
    {
        if before > u32::MAX as usize {
            return Err(OutOfMemory);
        }
        self.last_calls.push(LastCall {
            before: before as u32,
            partition: p as u8,
        })?;
        Ok(())
    }

    /// Writes the order at the index.
    pub(crate) fn read(&self, index: usize, order: &mut PackedOrder) -> Result<(), OutOfMemory>
        requires { index < length self.now }
        ensures { OnOk result (order.new ≡ order_at self.now index) }
    {
        order.clear();
        let mut at = index;
        while at > 0 {
            let last = self.last_calls[at - 1];
            order.push(last.partition)?;
            at = last.before as usize;
        }
        order.reverse();
        Ok(())
    }

    /// The number of calls of each order.
    pub(crate) fn lengths(&self, alloc: Global) -> Result<Vec<usize>, OutOfMemory>
        ensures { IfOk result (λ lengths. lengths.items ≡ map length self.now) }
    {
        let mut lengths = Vec::with_capacity(alloc, self.len())?;
        lengths.push(0)?;
        for k in 0..self.last_calls.len() {
            let last = self.last_calls[k];
            let longer = lengths[last.before as usize] + 1;
            lengths.push(longer)?;
        }
        Ok(lengths)
    }

    /// The order at the index.
    pub(crate) fn order(&self, alloc: Global, index: usize) -> Result<PackedOrder, OutOfMemory>
        requires { index < length self.now }
        ensures { IfOk result (λ order. order ≡ order_at self.now index) }
    {
        let mut order = PackedOrder::new(alloc);
        self.read(index, &mut order)?;
        Ok(order)
    }
}
