//! The law of the clock.
ghost use Rattle.apex_orders.specs.Clock.{ClockedNeverFalls};

/// If moments never fall within a script, they never fall in an order by the clock. There is nothing to run.
pub fn clocked_never_falls()
    ensures { ClockedNeverFalls }
{}
