//! What the departures of a log say, whatever the log.
ghost use Rattle.apex_judge.specs.DepartureLaws.{ShowsWhatIsSeen, NoDepartureIsLawful, FirstDeparture};

/// The law of lawful logs: what such a log shows to a partition is what the partition sees. There is nothing to run.
#[tactic(auto, using(crate::proofs::JudgedLogs::shows_what_is_seen))]
pub fn shows_what_is_seen()
    ensures { ShowsWhatIsSeen }
{}

/// The law of logs without departures: a log of the configuration's partitions is lawful if and only if it has none.
/// There is nothing to run.
#[tactic(auto, using(crate::proofs::JudgedLogs::no_departure_is_lawful))]
pub fn no_departure_is_lawful()
    ensures { NoDepartureIsLawful }
{}

/// The law of the first departure: it is the first reply that isn't the reply table's, and the entries before it are
/// lawful. There is nothing to run.
#[tactic(auto, using(crate::proofs::JudgedLogs::first_departure))]
pub fn first_departure()
    ensures { FirstDeparture }
{}
