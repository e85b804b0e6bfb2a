//! What the reply table keeps true, whatever is called.
ghost use Rattle.apex_ports.specs.Interference.{AlwaysFreeFromInterference};
ghost use Rattle.apex_ports.specs.Rules.{AlwaysConserved};
ghost use Rattle.apex_ports.specs.WithoutClears.{AlwaysReceivedOrCleared, WithoutClears};

/// The law of every lawful history: on each channel the messages received or cleared, followed by those that wait, are
/// the accepted messages, in order, and at most the depth wait. It concerns only the reply table. There is nothing to
/// run.
pub fn conserved()
    ensures { AlwaysConserved }
{}

/// The law of freedom from interference: partitions that share no channel with the others get the replies that they
/// would get if the others made no call. It concerns only the reply table. There is nothing to run.
pub fn free_from_interference()
    ensures { AlwaysFreeFromInterference }
{}

/// The law of every history: the messages that were taken out of a channel and not cleared are the received ones, in
/// order. There is nothing to run.
pub fn received_or_cleared()
    ensures { AlwaysReceivedOrCleared }
{}

/// The law of histories without CLEAR_QUEUING_PORT: exactly the received messages are taken, none is cleared, and the
/// accepted messages without the received ones wait. So every definition gives what it would give without that service.
/// There is nothing to run.
pub fn without_clears()
    ensures { WithoutClears }
{}
