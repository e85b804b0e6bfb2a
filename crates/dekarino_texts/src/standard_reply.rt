//! The standard's reply at a departure, as far as a log shows it, and how a logged identifier conflicts with earlier ones.
use crate::departures::LogPlace;
use apex_judge::{Expected, KnownIds};
use apex_logs::MaxWait;
use apex_ports::{Refusal, Row};
use apex_types::Reply;

/// What the standard has instead of a logged reply.
#[derive(Clone, Copy, Debug, PartialEq, Eq)]
pub enum StandardReply {
    /// The expected reply.
    Reply,
    /// No reply yet: the call would still wait.
    Waits,
    /// NO_ERROR with this identifier of the system.
    Id(u32),
    /// NO_ERROR with an identifier of the system that isn't known.
    AnyId,
}

impl StandardReply {
    /// What the standard has at a place.
    pub fn of(place: LogPlace, expected: &Expected) -> StandardReply {
        match (expected.row, place.known) {
            (Row::Refused(Refusal::QueueFull | Refusal::QueueEmpty), _) => match place.wait {
                MaxWait::Infinite => StandardReply::Waits,
                MaxWait::Zero | MaxWait::Finite => StandardReply::Reply,
            },
            (Row::Created { .. } | Row::Identified { .. }, Some(known)) => match known.own {
                Some(id) => StandardReply::Id(id),
                None => StandardReply::AnyId,
            },
            _ => StandardReply::Reply,
        }
    }
}

/// How an identifier conflicts with what a log showed before.
#[derive(Clone, Copy, Debug, PartialEq, Eq)]
pub enum Conflict {
    /// The port has this identifier.
    HasAnother { id: u32 },
    /// The identifier is that of the port with this one of ours.
    IsOf { id: u32, port: u32 },
}

/// How the identifier of a logged reply conflicts with what the log showed before, if the standard has an identifier and
/// they conflict.
pub fn conflict_of(place: LogPlace, logged: &Reply, row: Row) -> Option<Conflict> {
    if !matches!(row, Row::Created { .. } | Row::Identified { .. }) {
        return None;
    }
    let (Some(KnownIds { own, holder }), Reply::Id(id)) = (place.known, logged) else {
        return None;
    };
    match (own, holder) {
        (Some(own), _) if own != *id => Some(Conflict::HasAnother { id: own }),
        (None, Some(port)) => Some(Conflict::IsOf { id: *id, port }),
        _ => None,
    }
}
