//! Which calls keep a way for the other calls of their channel. Only how soon an order is found depends on it.
use crate::answer::OwnLog;
use crate::log_reader::port_of;
use crate::points::Pair;
use crate::uses::End;
use apex_judge::Judge;
use apex_module::{ChannelKind, Config};
use apex_ports::Entry;
use apex_types::Direction;
use std::alloc::{AllocError, Global};

/// The number of points that are kept.
const POINTS: usize = 1 << 20;

/// For each channel, its source with each destination.
#[derive(Drop)]
pub(crate) struct ChannelWays {
    pairs: Vec<Vec<Pair>>,
}

impl ChannelWays {
    /// Nothing is known.
    pub(crate) fn unknown(alloc: Global) -> ChannelWays {
        ChannelWays {
            pairs: Vec::new(alloc),
        }
    }

    /// The ways of these logs.
    pub(crate) fn new(
        alloc: Global,
        config: &Config,
        logs: &[OwnLog],
    ) -> Result<ChannelWays, AllocError> {
        let sources = ports_by_channel(alloc, config, Direction::Source)?;
        let destinations = ports_by_channel(alloc, config, Direction::Destination)?;
        let mut pairs = Vec::new(alloc);
        let mut room = POINTS;
        for (source, others) in sources.iter().zip(destinations.iter()) {
            let own = pairs_of(
                alloc,
                config,
                logs,
                source.as_slice(),
                others.as_slice(),
                &mut room,
            )?;
            pairs.push(own)?;
        }
        Ok(ChannelWays { pairs })
    }

    /// Whether anything is known.
    pub(crate) fn are_known(&self) -> bool {
        !self.pairs.is_empty()
    }

    /// Whether the calls that use the channel can all be made; `None` if that isn't known.
    pub(crate) fn has_way(&self, channel: usize) -> Option<bool> {
        let pairs = self.pairs.get(channel)?;
        if pairs.is_empty() {
            return None;
        }
        Some(pairs.iter().all(|pair| pair.has_way()))
    }

    /// Whether the other calls of the channel can still be made after the partition's next one; `None` if that isn't known.
    pub(crate) fn keep_way(
        &self,
        judge: &Judge,
        logs: &[OwnLog],
        made: &[usize],
        p: usize,
        entry: &Entry,
    ) -> Option<bool> {
        if !self.are_known() {
            return None;
        }
        let id = port_of(&entry.call)?;
        let port = judge.config().port(p, id)?;
        let pairs = self.pairs.get(port.channel)?;
        if pairs.is_empty() || port.channel >= judge.config().channels() {
            return None;
        }
        let waiting = judge.waiting_count(port.channel);
        for pair in pairs.as_slice() {
            if !pair.keeps_way(logs, made, waiting, p, id) {
                return Some(false);
            }
        }
        Some(true)
    }
}

/// A port, by its partition and its identifier.
#[derive(Clone, Copy)]
struct PortPlace {
    partition: usize,
    id: u32,
}

/// For each channel, its ports of this direction.
fn ports_by_channel(
    alloc: Global,
    config: &Config,
    way: Direction,
) -> Result<Vec<Vec<PortPlace>>, AllocError> {
    let mut ports: Vec<Vec<PortPlace>> = Vec::new(alloc);
    for _ in 0..config.channels() {
        ports.push(Vec::new(alloc))?;
    }
    for partition in 0..config.partitions() {
        for index in 0..config.ports(partition) {
            let id = index as u32 + 1;
            if let Some(port) = config.port(partition, id) {
                if port.direction == way {
                    add_port(
                        ports.as_mut_slice(),
                        port.channel,
                        PortPlace { partition, id },
                    )?;
                }
            }
        }
    }
    Ok(ports)
}

fn add_port(
    ports: &mut [Vec<PortPlace>],
    channel: usize,
    place: PortPlace,
) -> Result<(), AllocError> {
    if let Some(places) = ports.get_mut(channel) {
        places.push(place)?;
    }
    Ok(())
}

/// The pairs of a channel's ends for which there is room.
fn pairs_of(
    alloc: Global,
    config: &Config,
    logs: &[OwnLog],
    sources: &[PortPlace],
    destinations: &[PortPlace],
    room: &mut usize,
) -> Result<Vec<Pair>, AllocError> {
    let mut pairs = Vec::new(alloc);
    for source in sources {
        for destination in destinations {
            if let Some(pair) = pair_of(alloc, config, logs, *source, *destination, room)? {
                pairs.push(pair)?;
            }
        }
    }
    Ok(pairs)
}

/// The source and a destination of a channel, if there is room.
fn pair_of(
    alloc: Global,
    config: &Config,
    logs: &[OwnLog],
    source: PortPlace,
    destination: PortPlace,
    room: &mut usize,
) -> Result<Option<Pair>, AllocError> {
    let depth = depth_at(config, source);
    let Some(source) = end_of(alloc, config, logs, source, depth, *room)? else {
        return Ok(None);
    };
    let Some(destination) = end_of(alloc, config, logs, destination, depth, *room)? else {
        return Ok(None);
    };
    Pair::new(alloc, logs, source, destination, depth, room)
}

/// The depth of the port's channel; `None` for a sampling channel.
fn depth_at(config: &Config, place: PortPlace) -> Option<usize> {
    let port = config.port(place.partition, place.id)?;
    match config.channel(port.channel).kind {
        ChannelKind::Queuing { depth } => Some(depth as usize),
        ChannelKind::Sampling => None,
    }
}

/// The calls at a port, if they are at most `most`.
fn end_of(
    alloc: Global,
    config: &Config,
    logs: &[OwnLog],
    place: PortPlace,
    depth: Option<usize>,
    most: usize,
) -> Result<Option<End>, AllocError> {
    let refresh = match config.port(place.partition, place.id) {
        Some(port) => port.kind.refresh(),
        None => 0,
    };
    End::new(
        alloc,
        logs,
        place.partition,
        place.id,
        refresh,
        depth.unwrap_or(0),
        most,
    )
}
