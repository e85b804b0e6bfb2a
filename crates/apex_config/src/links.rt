//! The passes over the channels that ports name: each exists and is of the port's kind.
ghost use Rattle.std.specs.Prelude.{◌≡◌, is_some, OnOk};
ghost use Rattle.apex_config.specs.Places.{Adds};
ghost use Rattle.apex_config.specs.Passes.{channel_of_port, is_of_kind, at_ports, unknown_channel, other_kind};

use crate::channel_index::ChannelIndex;
use crate::config_text::{PartitionText, PortText};
use crate::found::{Added, Places};
use crate::key::Key;
use crate::place::Spot;
use crate::ports::{PortTest, add_ports_unless};

#[derive(Drop)]
struct NamesChannel<'t, 'a> {
    channels: &'t ChannelIndex<'t, 'a>,
}

impl<'t, 'a> PortTest<PortText<'a>> for NamesChannel<'t, 'a> {
    ghost passes = { λ test port. is_some (channel_of_port test.channels.now port) };

    fn passes(&self, port: &PortText<'a>) -> bool {
        self.channels.channel_of(port).is_some()
    }
}

/// Adds the ports that name no channel.
pub fn add_unknown_channels<'a>(
    places: &mut Places,
    channels: &ChannelIndex<'_, 'a>,
    partitions: &[PartitionText<'a>],
) -> Added
    ensures { OnOk result (Adds
        (at_ports (unknown_channel channels.now) partitions.now)
        places.old.items places.new.items) }
{
    let spot = Spot::At { key: Key::Channel };
    add_ports_unless(places, partitions, spot, &NamesChannel { channels })
}

#[derive(Drop)]
struct IsOfKind<'t, 'a> {
    channels: &'t ChannelIndex<'t, 'a>,
}

impl<'t, 'a> PortTest<PortText<'a>> for IsOfKind<'t, 'a> {
    ghost passes = { λ test port. is_of_kind port (channel_of_port test.channels.now port) };

    fn passes(&self, port: &PortText<'a>) -> bool {
        match self.channels.channel_of(port) {
            Some(channel) if port.refresh.is_none() => channel.depth.is_some(),
            Some(channel) => channel.depth.is_none(),
            None => true,
        }
    }
}

/// Adds the ports of another kind than the channel that they name.
pub fn add_other_kinds<'a>(
    places: &mut Places,
    channels: &ChannelIndex<'_, 'a>,
    partitions: &[PartitionText<'a>],
) -> Added
    ensures { OnOk result (Adds
        (at_ports (other_kind channels.now) partitions.now)
        places.old.items places.new.items) }
{
    let spot = Spot::At { key: Key::Kind };
    add_ports_unless(places, partitions, spot, &IsOfKind { channels })
}
