//! Two orders that differ only in which of two neighbouring calls comes first.
ghost use Rattle.std.specs.Prelude.{◌≡◌, ◌++◌, ◌∷◌, IfOk};
ghost use Rattle.apex_groups.specs.Deciding.{given_order, other_order};

use apex_orders::Order;
use std::alloc::{AllocError, Global};

/// Two orders of calls. Both begin with the same calls, then make two calls, each in another order, and end with the same
/// calls.
#[derive(Debug, Drop)]
pub struct TwoOrders {
    /// The partitions that make the calls before the two.
    pub before: Vec<usize>,
    /// The partition whose call comes before the other in the first order, and after it in the second.
    pub first: usize,
    /// The partition of the other call.
    pub second: usize,
    /// The partitions that make the calls after the two.
    pub after: Vec<usize>,
}

impl TwoOrders {
    /// The order in which the first call comes before the second.
    pub fn given_order(&self, alloc: Global) -> Result<Order, AllocError>
        ensures { IfOk result (λ order. order ≡ given_order self.now) }
    {
        joined(
            alloc,
            self.before.as_slice(),
            self.first,
            self.second,
            self.after.as_slice(),
        )
    }

    /// The order in which it comes after the second.
    pub fn other_order(&self, alloc: Global) -> Result<Order, AllocError>
        ensures { IfOk result (λ order. order ≡ other_order self.now) }
    {
        joined(
            alloc,
            self.before.as_slice(),
            self.second,
            self.first,
            self.after.as_slice(),
        )
    }
}

/// Calls, then two calls, then calls.
fn joined(
    alloc: Global,
    before: &[usize],
    first: usize,
    second: usize,
    after: &[usize],
) -> Result<Order, AllocError>
    ensures { IfOk result (λ order. order ≡ before.now ++ first ∷ second ∷ after.now) }
{
    let mut partitions = Vec::new(alloc);
    partitions.extend_from_slice(before)?;
    partitions.push(first)?;
    partitions.push(second)?;
    partitions.extend_from_slice(after)?;
    Ok(Order::new(partitions))
}
