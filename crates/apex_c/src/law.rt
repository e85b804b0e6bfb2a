//! What a refused call leaves.
ghost use Rattle.apex_c.specs.Law.{RefusedLeavesSeen};

/// The law of refused calls: after a call that isn't made or is refused, every partition sees what it saw before. So
/// the row of a refused call may be asked for after the call as well as before. There is nothing to run.
pub fn refused_leaves_seen()
    ensures { RefusedLeavesSeen }
{}
