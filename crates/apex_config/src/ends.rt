//! The passes over the ends of channels: their source ports and their destination ports.
ghost use Rattle.std.specs.Prelude.{◌≡◌, ◌<◌, nat_le, length, IfOk, OnOk};
ghost use Rattle.apex_config.specs.declared.place.Part.TheVariants as part;
ghost use Rattle.apex_config.specs.Places.{Adds, whole, unless};
ghost use Rattle.apex_config.specs.Passes.{may_have_several, is_alone, wrong_ends};
ghost use Rattle.apex_config.specs.Ends.{CountEnds, CountMoreEnds, ends_at};

use crate::channel_index::ChannelIndex;
use crate::config_text::{ChannelText, PartitionText, PortText};
use crate::found::{Added, Finder, Places, add_each, add_unless};
use crate::place::{Part, Spot};
use crate::ports::{PortTest, add_ports_unless};
use apex_types::Direction;
use std::alloc::{AllocError, Global};
use std::marker::Model;

/// Counts the ports of a direction, each at the number of its channel. A count at its maximum stays there.
fn count_ends<'a>(
    counts: &mut [usize],
    channels: &ChannelIndex<'_, 'a>,
    ports: &[PortText<'a>],
    direction: Direction,
)
    ensures { CountMoreEnds direction channels.now ports.now counts.old counts.new }
{
    for port in ports {
        if port.direction == direction {
            let c = channels.number_of(port.channel);
            if c < counts.len() {
                counts[c] = counts[c].saturating_add(1);
            }
        }
    }
}

/// The number of ports of a direction on each channel, or `usize::MAX` if there are more.
fn end_counts<'a>(
    alloc: Global,
    channels: &ChannelIndex<'_, 'a>,
    partitions: &[PartitionText<'a>],
    direction: Direction,
) -> Result<Vec<usize>, AllocError>
    ensures { IfOk result (λ counts.
        CountEnds direction channels.now partitions.now counts.items) }
{
    let mut counts = vec![in alloc; 0; channels.count()]?;
    for partition in partitions {
        let ports = partition.ports.as_slice();
        count_ends(counts.as_mut_slice(), channels, ports, direction);
    }
    Ok(counts)
}

/// The ends of one direction in a text, counted.
#[derive(Drop)]
pub struct Ends<'t, 'a> {
    direction: Direction,
    channels: &'t ChannelIndex<'t, 'a>,
    partitions: &'t [PartitionText<'a>],
    counts: Vec<usize>,
}

impl<'t, 'a> Model for Ends<'t, 'a> {
    ghost use Rattle.apex_config.specs.Ends.{EndsData, CountEnds};

    ghost Value = { EndsData };

    ghost view = { λ ends. record {
      direction = ends.direction;
      config = record { partitions = ends.partitions.now; channels = ends.channels.now };
    } };

    ghost invariant = { λ ends.
        CountEnds ends.direction ends.channels.now ends.partitions.now ends.counts.items };
}

/// Whether a channel may have several ends of a direction.
pub fn may_have_several(direction: Direction, channel: &ChannelText) -> bool
    ensures { result ≡ may_have_several direction (Some channel.now) }
{
    match direction {
        Direction::Source => false,
        Direction::Destination => channel.depth.is_none(),
    }
}

impl<'t, 'a> Ends<'t, 'a> {
    /// Counts the ends of a direction.
    pub fn new(
        alloc: Global,
        channels: &'t ChannelIndex<'t, 'a>,
        partitions: &'t [PartitionText<'a>],
        direction: Direction,
    ) -> Result<Ends<'t, 'a>, AllocError>
        ensures { IfOk result (λ ends. ends ≡ record {
          direction = direction;
          config = record { partitions = partitions.now; channels = channels.now };
        }) }
    {
        let counts = end_counts(alloc, channels, partitions, direction)?;
        Ok(Ends {
            direction,
            channels,
            partitions,
            counts,
        })
    }

    /// The number of ends of a port's channel, or `usize::MAX` if there are more.
    pub fn count_at(&self, port: &PortText<'a>) -> Option<usize>
        ensures { result ≡ ends_at self.now.direction self.now.config port.now }
    {
        match self.channels.channel_of(port) {
            Some(_) => Some(self.counts[self.channels.number_of(port.channel)]),
            None => None,
        }
    }

    /// Whether a port is the only end of its channel, if the channel may have only one.
    pub fn is_alone(&self, port: &PortText<'a>) -> bool
        ensures { result ≡ is_alone self.now.direction self.now.config port.now }
    {
        if port.direction != self.direction {
            return true;
        }
        match self.channels.channel_of(port) {
            Some(channel) if !may_have_several(self.direction, channel) => {
                self.counts[self.channels.number_of(port.channel)] <= 1
            }
            _ => true,
        }
    }
}

#[derive(Drop)]
struct IsAlone<'t, 'a> {
    ends: &'t Ends<'t, 'a>,
}

impl<'t, 'a> PortTest<PortText<'a>> for IsAlone<'t, 'a> {
    ghost passes = { λ test. is_alone test.ends.now.direction test.ends.now.config };

    fn passes(&self, port: &PortText<'a>) -> bool {
        self.ends.is_alone(port)
    }
}

#[derive(Drop)]
struct HasEnd;

impl Finder<usize> for HasEnd {
    ghost find = { λ _ c count. unless (nat_le 1 count) (whole (part.Channel c)) };

    fn add(&self, places: &mut Places, index: usize, entry: &usize) -> Added {
        let part = Part::Channel { channel: index };
        add_unless(places, 1 <= *entry, part.whole())
    }
}

/// Adds the channels without an end of a direction, and then the ports of channels that have too many.
pub fn add_wrong_ends<'a>(
    alloc: Global,
    places: &mut Places,
    channels: &ChannelIndex<'_, 'a>,
    partitions: &[PartitionText<'a>],
    direction: Direction,
) -> Added
    ensures { OnOk result (Adds
        (wrong_ends direction
        (record { partitions = partitions.now; channels = channels.now }))
        places.old.items places.new.items) }
{
    let ends = Ends::new(alloc, channels, partitions, direction)?;
    add_each(places, ends.counts.as_slice(), &HasEnd)?;
    add_ports_unless(places, partitions, Spot::Whole, &IsAlone { ends: &ends })
}
