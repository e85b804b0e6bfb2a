//! The laws of calls that commute.
ghost use Rattle.apex_orders.specs.Commuting.{AlwaysCommutes};
ghost use Rattle.apex_orders.specs.Enough.{EnoughGoesFirst, TryingEnoughIsEnough};

/// If neither of two calls of different partitions can change a channel that the other names, they may be swapped:
/// every call keeps its reply, and both orders lead to the same point. There is nothing to run.
pub fn calls_apart_commute()
    ensures { AlwaysCommutes }
{}

/// After each beginning, it is enough to try some partitions whose next calls are refused early or apart from all calls
/// that the other partitions have yet to make. There is nothing to run.
pub fn trying_enough_is_enough()
    ensures step { EnoughGoesFirst }
    ensures search { TryingEnoughIsEnough }
{}
