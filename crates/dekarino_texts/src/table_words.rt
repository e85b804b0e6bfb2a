//! The table of a configuration's ports as a text.
use crate::table::{PortPlace, TableRow};
use apex_module::{ChannelKind, Config, PortKind};
use apex_types::Direction;
use std::alloc::{AllocError, Global};
use std::fmt;

/// A line for each row of the table.
pub fn table_text(alloc: Global, config: &Config, rows: &[TableRow]) -> Result<String, AllocError> {
    let mut text = String::new(alloc);
    for row in rows {
        match row {
            TableRow::Partition { partition } => {
                let name = partition_name(config, *partition);
                writeln!(text, "partition {name}")?;
            }
            TableRow::Port { place, partners } => {
                push_port(&mut text, config, *place, partners.as_slice())?;
            }
        }
    }
    Ok(text)
}

/// Writes `  ID NAME KIND DIRECTION CHANNEL size SIZE`, the depth or the refresh period, and the partners.
fn push_port(
    text: &mut String,
    config: &Config,
    place: PortPlace,
    partners: &[PortPlace],
) -> Result<(), AllocError> {
    let Some(port) = config.port(place.partition, place.id) else {
        return Ok(());
    };
    let channel = config.channel(port.channel);
    let (kind, direction) = (kind_word(port.kind), direction_word(port.direction));
    write!(
        text,
        "  {} {} {kind} {direction} {} size {}",
        place.id,
        port.name.text(),
        channel.name.text(),
        channel.size
    )?;
    if let ChannelKind::Queuing { depth } = channel.kind {
        write!(text, " depth {depth}")?;
    }
    if let PortKind::Sampling { refresh } = port.kind {
        write!(text, " refresh {refresh}")?;
    }
    text.push_str(match port.direction {
        Direction::Source => " to",
        Direction::Destination => " from",
    })?;
    for partner in partners {
        let place = *partner;
        write!(text, " {}", PortName { config, place })?;
    }
    text.push('\n')
}

/// A port as `PARTITION.PORT`.
#[derive(Clone, Copy)]
pub(crate) struct PortName<'a> {
    pub(crate) config: &'a Config,
    pub(crate) place: PortPlace,
}

impl fmt::Display for PortName<'_> {
    fn fmt<W: fmt::Write>(&self, f: &mut fmt::Formatter<W>) -> fmt::Result {
        let PortPlace { partition, id } = self.place;
        let Some(port) = self.config.port(partition, id) else {
            return Ok(());
        };
        let partition = partition_name(self.config, partition);
        write!(f, "{partition}.{}", port.name.text())
    }
}

/// The name of a partition; empty if there is none with the number.
pub fn partition_name(config: &Config, p: usize) -> &str {
    if p < config.partitions() {
        config.partition_name(p).text()
    } else {
        ""
    }
}

/// The word of a configuration for a kind of ports.
pub fn kind_word(kind: PortKind) -> &'static str {
    match kind {
        PortKind::Queuing => "queuing",
        PortKind::Sampling { .. } => "sampling",
    }
}

/// The word of a configuration for a direction.
pub fn direction_word(direction: Direction) -> &'static str {
    match direction {
        Direction::Source => "source",
        Direction::Destination => "destination",
    }
}
