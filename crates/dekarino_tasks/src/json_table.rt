//! The table of a configuration's ports as JSON lines.
ghost use Rattle.std.specs.Prelude.{◌<◌, length, IfSome};

use apex_module::{ChannelKind, Config, Port, PortKind};
use dekarino_search::push_object;
use dekarino_texts::{PortPlace, TableRow, direction_word, kind_word};
use serde::Serialize;
use std::alloc::{AllocError, Global};

/// A partition.
#[derive(Drop, Serialize)]
struct PartitionLine<'a> {
    partition: &'a str,
    ports: usize,
}

/// A port. Sizes are in bytes, a refresh period in nanoseconds.
#[derive(Drop, Serialize)]
struct PortLine<'a> {
    partition: &'a str,
    id: u32,
    port: &'a str,
    kind: &'static str,
    direction: &'static str,
    channel: &'a str,
    size: u32,
    depth: Option<u32>,
    refresh: Option<u64>,
    partners: Vec<Partner<'a>>,
}

/// A port at the other end of a port's channel.
#[derive(Drop, Serialize)]
struct Partner<'a> {
    partition: &'a str,
    port: &'a str,
}

/// An object for each row of the table.
pub(crate) fn table_objects(
    alloc: Global,
    config: &Config,
    rows: &[TableRow],
) -> Result<String, AllocError> {
    let mut text = String::new(alloc);
    for row in rows {
        match row {
            TableRow::Partition { partition } => push_partition(&mut text, config, *partition)?,
            TableRow::Port { place, partners } => {
                push_port(&mut text, config, *place, partners.as_slice())?;
            }
        }
    }
    Ok(text)
}

fn push_partition(text: &mut String, config: &Config, p: usize) -> Result<(), AllocError> {
    if p >= config.partitions() {
        return Ok(());
    }
    let object = PartitionLine {
        partition: config.partition_name(p).text(),
        ports: config.ports(p),
    };
    push_object(*text.allocator(), text, &object)
}

fn push_port(
    text: &mut String,
    config: &Config,
    place: PortPlace,
    partners: &[PortPlace],
) -> Result<(), AllocError> {
    let alloc = *text.allocator();
    let Some((partition, port)) = port_at(config, place) else {
        return Ok(());
    };
    let channel = config.channel(port.channel);
    let object = PortLine {
        partition,
        id: place.id,
        port: port.name.text(),
        kind: kind_word(port.kind),
        direction: direction_word(port.direction),
        channel: channel.name.text(),
        size: channel.size,
        depth: depth_of(channel.kind),
        refresh: refresh_of(port.kind),
        partners: partners_at(alloc, config, partners)?,
    };
    push_object(alloc, text, &object)
}

/// The name of the partition and the port at a place.
pub(crate) fn port_at(config: &Config, place: PortPlace) -> Option<(&str, &Port)>
    ensures { IfSome result (λ found. found.1.now.channel < length config.now.channels) }
{
    if place.partition >= config.partitions() {
        return None;
    }
    let port = config.port(place.partition, place.id)?;
    Some((config.partition_name(place.partition).text(), port))
}

fn partners_at<'a>(
    alloc: Global,
    config: &'a Config,
    places: &[PortPlace],
) -> Result<Vec<Partner<'a>>, AllocError> {
    let mut partners = Vec::new(alloc);
    for place in places {
        if let Some((partition, port)) = port_at(config, *place) {
            partners.push(Partner {
                partition,
                port: port.name.text(),
            })?;
        }
    }
    Ok(partners)
}

fn depth_of(kind: ChannelKind) -> Option<u32> {
    match kind {
        ChannelKind::Queuing { depth } => Some(depth),
        ChannelKind::Sampling => None,
    }
}

fn refresh_of(kind: PortKind) -> Option<u64> {
    match kind {
        PortKind::Queuing => None,
        PortKind::Sampling { refresh } => Some(refresh),
    }
}
