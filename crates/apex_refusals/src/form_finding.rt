//! What is wrong with the form at a place of a configuration.

use crate::finding::{Finding, Found, Wanted};
use crate::places::{key_numbered, value_of};
use apex_config::document::{is_queuing, is_sampling};
use apex_config::key::Key;
use apex_config::place::{Part, Place, Spot};
use apex_config::value::value_at;
use toml::Value;

/// What a key must have, by the form.
fn wanted_at<'a>(part: Part, key: Key) -> Wanted<'a> {
    match key {
        Key::Partition | Key::Port => Wanted::Tables,
        Key::Channel => match part {
            Part::Document => Wanted::Tables,
            _ => Wanted::Text,
        },
        Key::Name => Wanted::Text,
        Key::Kind => Wanted::Kind,
        Key::Direction => Wanted::Direction,
        Key::Size | Key::Depth | Key::Refresh => Wanted::WholeNumber,
    }
}

/// The words for the keys that a part takes.
fn known_keys(part: Part, value: &Value) -> &'static str {
    match part {
        Part::Document => "`partition` and `channel`",
        Part::Partition { .. } => "`name` and `port`",
        Part::Port { .. } if is_queuing(value) => {
            "`name`, `kind`, `direction` and `channel`, as the port is queuing"
        }
        Part::Port { .. } if is_sampling(value) => {
            "`name`, `kind`, `direction`, `channel` and `refresh`"
        }
        Part::Port { .. } => {
            "`name`, `kind`, `direction`, `channel` and, of a sampling port, `refresh`"
        }
        Part::Channel { .. } if is_queuing(value) => "`name`, `kind`, `size` and `depth`",
        Part::Channel { .. } if is_sampling(value) => {
            "`name`, `kind` and `size`, as the channel is sampling"
        }
        Part::Channel { .. } => "`name`, `kind`, `size` and, of a queuing channel, `depth`",
    }
}

/// A missing key, or what is there instead.
fn finding_at_key<'a>(value: &'a Value, part: Part, key: Key) -> Finding<'a> {
    let wanted = wanted_at(part, key);
    match value_at(value, key) {
        Some(found) => Finding::Wrong {
            key,
            found: Found::of(found),
            wanted,
        },
        None => Finding::Missing { key, wanted },
    }
}

/// What is wrong with the form at a place.
pub fn form_finding<'a>(document: &'a Value, place: Place) -> Option<Finding<'a>> {
    let value = value_of(document, place.part)?;
    match place.spot {
        Spot::Whole => Some(Finding::NoTable(Found::of(value))),
        Spot::At { key } => Some(finding_at_key(value, place.part, key)),
        Spot::Unknown { number } => Some(Finding::UnknownKey {
            key: key_numbered(value, number)?,
            keys: known_keys(place.part, value),
            part: place.part,
            table: value,
        }),
    }
}
