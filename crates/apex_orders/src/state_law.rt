//! The law of states.
ghost use Rattle.apex_orders.specs.StateLaw.{AlwaysGoesOnAlike};

/// The law of states: after two histories with one state every further call gets the same reply, and what can follow
/// one can follow the other and leads both to one state again. It concerns only the reply table. There is nothing to
/// run.
#[tactic(auto, using(crate::proofs::GoingOn::always_goes_on_alike))]
pub fn states_go_on_alike()
    ensures { AlwaysGoesOnAlike }
{}
