//! A configuration as its text gives it: the form is right, but names, numbers and links may be wrong.
use apex_types::Direction;
use std::marker::Model;

/// A port. A sampling port has a refresh period, and the channel is given by name.
#[derive(Drop)]
pub struct PortText<'a> {
    pub name: &'a str,
    pub refresh: Option<i64>,
    pub direction: Direction,
    pub channel: &'a str,
}

impl<'a> Model for PortText<'a> {
    ghost use Rattle.apex_config.specs.Text.{PortText};

    ghost Value = { PortText };

    ghost view = { λ port. record {
      name = port.name.now;
      refresh = port.refresh;
      direction = port.direction;
      channel = port.channel.now;
    } };
}

/// A partition and its ports.
#[derive(Drop)]
pub struct PartitionText<'a> {
    pub name: &'a str,
    pub ports: Vec<PortText<'a>>,
}

impl<'a> Model for PartitionText<'a> {
    ghost use Rattle.apex_config.specs.Text.{PartitionText};

    ghost Value = { PartitionText };

    ghost view = { λ partition. record {
      name = partition.name.now;
      ports = partition.ports.items;
    } };
}

/// A channel. A queuing channel has a depth.
#[derive(Drop)]
pub struct ChannelText<'a> {
    pub name: &'a str,
    pub size: i64,
    pub depth: Option<i64>,
}

impl<'a> Model for ChannelText<'a> {
    ghost use Rattle.apex_config.specs.Text.{ChannelText};

    ghost Value = { ChannelText };

    ghost view = { λ channel. record {
      name = channel.name.now;
      size = channel.size;
      depth = channel.depth;
    } };
}

/// The partitions and the channels.
#[derive(Drop)]
pub struct ConfigText<'a> {
    pub partitions: Vec<PartitionText<'a>>,
    pub channels: Vec<ChannelText<'a>>,
}

impl<'a> Model for ConfigText<'a> {
    ghost use Rattle.apex_config.specs.Text.{ConfigText};

    ghost Value = { ConfigText };

    ghost view = { λ config. record {
      partitions = config.partitions.items;
      channels = config.channels.items;
    } };
}
