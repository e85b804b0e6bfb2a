//! What is wrong at a place of a configuration whose form is right.

use crate::finding::{Finding, Found, Wanted};
use crate::places::value_of;
use apex_config::channel_index::ChannelIndex;
use apex_config::config_text::{ChannelText, ConfigText, PartitionText, PortText};
use apex_config::ends::{Ends, may_have_several};
use apex_config::key::Key;
use apex_config::place::{Part, Place, Spot};
use apex_config::value::{items_at, number_in, text_in};
use apex_module::{
    CHANNEL_LIMIT, ConfigFault, DEPTH_LIMIT, PARTITION_LIMIT, PORT_LIMIT, REFRESH_LIMIT, SIZE_LIMIT,
};
use apex_types::Direction;
use toml::Value;

/// What is wrong with the text at a key.
fn text_finding<'a>(value: &'a Value, key: Key, wanted: Wanted<'a>) -> Finding<'a> {
    Finding::Wrong {
        key,
        found: Found::Text(text_in(value, key)),
        wanted,
    }
}

/// The greatest number that a key allows.
fn greatest(key: Key) -> u64 {
    match key {
        Key::Size => SIZE_LIMIT as u64,
        Key::Depth => DEPTH_LIMIT as u64,
        _ => REFRESH_LIMIT,
    }
}

/// What is wrong with the number at a key.
fn number_finding<'a>(value: &Value, spot: Spot) -> Option<Finding<'a>> {
    match spot {
        Spot::At { key } => Some(Finding::Wrong {
            key,
            found: Found::Number(number_in(value, key)),
            wanted: Wanted::UpTo(greatest(key)),
        }),
        _ => None,
    }
}

/// The partition of an index.
fn partition_at<'t, 'a>(config: &'t ConfigText<'a>, index: usize) -> Option<&'t PartitionText<'a>> {
    config.partitions.get(index)
}

/// The index of the first entry with a name, in the list of the part.
fn first_of_name(config: &ConfigText, part: Part, name: &str) -> Option<usize> {
    match part {
        Part::Document => None,
        Part::Partition { .. } => config
            .partitions
            .iter()
            .position(|entry| entry.name == name),
        Part::Port { partition, .. } => {
            let partition = partition_at(config, partition)?;
            partition.ports.iter().position(|entry| entry.name == name)
        }
        Part::Channel { .. } => config.channels.iter().position(|entry| entry.name == name),
    }
}

/// What is wrong with a name that occurred before.
fn repeated_finding<'a>(config: &ConfigText<'a>, part: Part, name: &'a str) -> Option<Finding<'a>> {
    let first = first_of_name(config, part, name)?.saturating_add(1);
    Some(Finding::NameTwice { name, first })
}

fn kind_word(is_queuing: bool) -> &'static str {
    if is_queuing { "queuing" } else { "sampling" }
}

/// The kinds of a port and of its channel.
fn kind_finding<'a>(channels: &ChannelIndex<'_, 'a>, port: &PortText<'a>) -> Option<Finding<'a>> {
    let is_queuing = port.refresh.is_none();
    let channel = channels.channel_of(port)?;
    Some(Finding::Wrong {
        key: Key::Kind,
        found: Found::Text(kind_word(is_queuing)),
        wanted: Wanted::KindOf {
            word: kind_word(!is_queuing),
            channel: channel.name,
        },
    })
}

/// The number of things at a key, and its limits.
fn counted<'a>(key: Key, count: usize) -> Finding<'a> {
    let (things, least, most) = match key {
        Key::Partition => ("partitions", 1, PARTITION_LIMIT),
        Key::Channel => ("channels", 0, CHANNEL_LIMIT),
        _ => ("ports", 0, PORT_LIMIT),
    };
    Finding::Count {
        things,
        count,
        least,
        most,
    }
}

/// What the count at a key finds.
fn count_finding<'a>(value: &Value, spot: Spot) -> Option<Finding<'a>> {
    match spot {
        Spot::At { key } => Some(counted(key, items_at(value, key).len())),
        _ => None,
    }
}

/// A channel without an end of a direction.
fn no_end_finding<'a>(direction: Direction, channel: &ChannelText) -> Finding<'a> {
    let wanted = if may_have_several(direction, channel) {
        "one or more"
    } else {
        "exactly one"
    };
    Finding::NoEnd { direction, wanted }
}

/// A refused text whose form is right, with what the words for its faults need.
#[derive(Drop)]
pub struct ReadText<'t, 'a> {
    pub config: &'t ConfigText<'a>,
    pub channels: &'t ChannelIndex<'t, 'a>,
    pub ends: &'t Ends<'t, 'a>,
    /// The direction of the ends.
    pub direction: Direction,
}

impl<'t, 'a> ReadText<'t, 'a> {
    /// The port of a part.
    fn port(&self, part: Part) -> Option<&'t PortText<'a>> {
        match part {
            Part::Port { partition, port } => {
                let partition = partition_at(self.config, partition)?;
                partition.ports.get(port)
            }
            _ => None,
        }
    }

    /// What is wrong with the kind of a port.
    fn kind_finding(&self, part: Part) -> Option<Finding<'a>> {
        kind_finding(self.channels, self.port(part)?)
    }

    /// What is wrong with a port that is one of several ends.
    fn one_of_ends_finding(&self, port: &PortText<'a>) -> Option<Finding<'a>> {
        let count = self.ends.count_at(port)?;
        let channel = self.channels.channel_of(port)?;
        Some(Finding::OneOfEnds {
            direction: self.direction,
            channel: channel.name,
            count,
        })
    }

    /// What is wrong with the ends of a channel, or with a port that is one of them.
    fn end_finding(&self, part: Part) -> Option<Finding<'a>> {
        match part {
            Part::Channel { channel } => {
                let config = self.config;
                let channel = config.channels.get(channel)?;
                Some(no_end_finding(self.direction, channel))
            }
            _ => self.one_of_ends_finding(self.port(part)?),
        }
    }
}

/// What is wrong at a place of a text whose form is right.
pub fn value_finding<'a>(
    document: &'a Value,
    read: &ReadText<'_, 'a>,
    fault: ConfigFault,
    place: Place,
) -> Option<Finding<'a>> {
    let value = value_of(document, place.part)?;
    match fault {
        ConfigFault::BadName => Some(text_finding(value, Key::Name, Wanted::Name)),
        ConfigFault::NameTwice => {
            repeated_finding(read.config, place.part, text_in(value, Key::Name))
        }
        ConfigFault::OutOfRange => number_finding(value, place.spot),
        ConfigFault::UnknownChannel => {
            Some(text_finding(value, Key::Channel, Wanted::ChannelName))
        }
        ConfigFault::KindDiffers => read.kind_finding(place.part),
        ConfigFault::Sources | ConfigFault::Destinations => read.end_finding(place.part),
        ConfigFault::Counts => count_finding(value, place.spot),
        _ => None,
    }
}
