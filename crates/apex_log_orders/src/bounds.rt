//! How far the two ends of a channel may be when a call is made.
use crate::answer::CallPlace;
use apex_module::Config;
use apex_types::Direction;
use std::alloc::{AllocError, Global};

/// A call that advances an end of a channel: after it, the channel has accepted `count` messages, or `count` are taken.
#[derive(Clone, Copy)]
pub(crate) struct Advance {
    pub(crate) channel: usize,
    pub(crate) end: Direction,
    pub(crate) count: usize,
}

/// A call that may be made only while an end of its channel is no further than this.
#[derive(Clone, Copy)]
pub(crate) struct Bound {
    pub(crate) place: CallPlace,
    most: usize,
}

impl Bound {
    /// Whether the call isn't made yet and could not be made after the other one.
    pub(crate) fn hinders(&self, made: &[usize], advance: Advance) -> bool {
        match made.get(self.place.partition) {
            Some(made) => *made <= self.place.index && self.most < advance.count,
            None => false,
        }
    }
}

/// The bounds on both ends of each channel.
#[derive(Drop)]
pub(crate) struct Bounds {
    on_sources: Vec<Vec<Bound>>,
    on_destinations: Vec<Vec<Bound>>,
}

impl Bounds {
    /// No bounds.
    pub(crate) fn new(alloc: Global, config: &Config) -> Result<Bounds, AllocError> {
        Ok(Bounds {
            on_sources: no_bounds(alloc, config.channels())?,
            on_destinations: no_bounds(alloc, config.channels())?,
        })
    }

    /// The bounds on the end of a channel that a call advances.
    pub(crate) fn on(&self, advance: Advance) -> &[Bound] {
        let all = match advance.end {
            Direction::Source => self.on_sources.as_slice(),
            Direction::Destination => self.on_destinations.as_slice(),
        };
        match all.get(advance.channel) {
            Some(bounds) => bounds.as_slice(),
            None => &[],
        }
    }

    /// Adds a bound: the other end of the channel may have handled at most `most` messages when the call is made.
    pub(crate) fn add(
        &mut self,
        end: Direction,
        channel: usize,
        place: CallPlace,
        most: usize,
    ) -> Result<(), AllocError> {
        let bound = Bound { place, most };
        match end {
            Direction::Source => add_bound(self.on_destinations.as_mut_slice(), channel, bound),
            Direction::Destination => add_bound(self.on_sources.as_mut_slice(), channel, bound),
        }
    }
}

fn add_bound(all: &mut [Vec<Bound>], channel: usize, bound: Bound) -> Result<(), AllocError> {
    if let Some(bounds) = all.get_mut(channel) {
        bounds.push(bound)?;
    }
    Ok(())
}

/// No bounds on `channels` channels.
fn no_bounds(alloc: Global, channels: usize) -> Result<Vec<Vec<Bound>>, AllocError> {
    let mut all = Vec::new(alloc);
    for _ in 0..channels {
        all.push(Vec::new(alloc))?;
    }
    Ok(all)
}
