//! The configuration of a module.
ghost use Rattle.std.specs.Prelude.{◌≡◌, ◌<◌, length, position, Some, IfSome, IfOk, IsTrue, ◌↔◌};
ghost use Rattle.std.specs.Cmp.Lexicographic.{pointwise};
ghost use Rattle.std.specs.Option.{option_copied};
ghost use Rattle.apex_module.specs.Equality.{equal_partitions, equal_channels};
ghost use Rattle.std.specs.Str.{bytes_eq};

use crate::channel::Channel;
use crate::partition::Partition;
use crate::port::Port;
use apex_types::{Name, OutOfMemory};
use std::alloc::{AllocError, Global};
use std::marker::Model;

/// The partitions and channels of a module. A contract sees the plain data of `Configuration`, for which
/// `IsConfiguration` holds.
#[derive(Debug, Drop)]
pub struct Config {
    partitions: Vec<Partition>,
    channels: Vec<Channel>,
}

impl Model for Config {
    ghost use Rattle.apex_module.specs.Configuration.{Configuration, IsConfiguration};

    ghost Value = { Configuration };

    ghost view = { λ config. record {
      partitions = config.partitions.items;
      channels = config.channels.items;
    } };

    ghost invariant = { λ config. IsConfiguration (record {
      partitions = config.partitions.items;
      channels = config.channels.items;
    }) };
}

impl Config {
    ghost use Rattle.apex_module.specs.Configuration.{IsConfiguration, port_of, ports_of, channel_of, channel_named, partition_name_of, partition_named, id_named};

    /// Makes a configuration of these partitions and channels.
    pub fn new(partitions: Vec<Partition>, channels: Vec<Channel>) -> Config
        requires { IsConfiguration
            (record { partitions = partitions.items; channels = channels.items }) }
        ensures { result ≡ record { partitions = partitions.items; channels = channels.items } }
    {
        Config {
            partitions,
            channels,
        }
    }

    /// A copy of the configuration.
    pub fn copy(&self) -> Result<Config, OutOfMemory>
        ensures { IfOk result (λ config. config ≡ self.now) }
    {
        let alloc = *self.partitions.allocator();
        let partitions = copies_of_partitions(alloc, self.partitions.as_slice())?;
        let channels = copies_of_channels(alloc, self.channels.as_slice())?;
        Ok(Config {
            partitions,
            channels,
        })
    }

    /// The number of partitions.
    pub fn partitions(&self) -> usize
        ensures count { result ≡ length self.now.partitions }
        ensures valid { IsConfiguration self.now }
    {
        self.partitions.len()
    }

    /// The number of channels.
    pub fn channels(&self) -> usize
        ensures count { result ≡ length self.now.channels }
        ensures valid { IsConfiguration self.now }
    {
        self.channels.len()
    }

    /// The number of a partition's ports.
    pub fn ports(&self, p: usize) -> usize
        requires { p < length self.now.partitions }
        ensures count { result ≡ length (ports_of self.now p) }
        ensures valid { IsConfiguration self.now }
    {
        self.partitions[p].ports().len()
    }

    /// The partition with this name, if there is one.
    pub fn partition(&self, name: &Name) -> Option<usize>
        ensures found { result ≡ partition_named self.now name.now }
        ensures valid { IsConfiguration self.now }
    {
        self.partition_called(name.text().as_bytes())
    }

    /// The partition whose name is this text, if there is one.
    pub fn partition_called(&self, text: &[u8]) -> Option<usize>
        ensures found { result ≡ partition_named self.now text.now }
        ensures valid { IsConfiguration self.now }
    {
        self.partitions
            .iter()
            .position(|partition| partition.name().text().as_bytes() == text)
    }

    /// The name of a partition.
    pub fn partition_name(&self, p: usize) -> &Name
        requires { p < length self.now.partitions }
        ensures name { partition_name_of self.now p ≡ Some result.now }
        ensures valid { IsConfiguration self.now }
    {
        self.partitions[p].name()
    }

    /// The port of partition `p` with this identifier, which is the port's index in the partition's list, counted from
    /// 1.
    pub fn port(&self, p: usize, id: u32) -> Option<&Port>
        ensures found { option_copied result ≡ port_of self.now p id }
        ensures valid { IsConfiguration self.now }
    {
        let partition = self.partitions.get(p)?;
        if id == 0 {
            return None;
        }
        partition.ports().get(id as usize - 1)
    }

    /// The identifier of the partition's port with this name, if there is one.
    pub fn port_named(&self, p: usize, name: &Name) -> Option<u32>
        requires { p < length self.now.partitions }
        ensures found { result ≡ id_named self.now p name.now }
        ensures valid { IsConfiguration self.now }
    {
        let ports = self.partitions[p].ports();
        match index_of(ports, name) {
            None => None,
            Some(index) => Some(index as u32 + 1),
        }
    }

    /// A channel.
    pub fn channel(&self, c: usize) -> &Channel
        requires { c < length self.now.channels }
        ensures found { channel_of self.now c ≡ Some result.now }
        ensures valid { IsConfiguration self.now }
    {
        &self.channels[c]
    }

    /// The number of the channel with this name, if there is one.
    pub fn channel_named(&self, name: &Name) -> Option<usize>
        ensures found { result ≡ channel_named self.now name.now }
        ensures valid { IsConfiguration self.now }
    {
        self.channels
            .iter()
            .position(|channel| &channel.name == name)
    }
}

fn index_of(ports: &[Port], name: &Name) -> Option<usize>
    ensures found { result ≡ position (λ port. bytes_eq port.name name.now) ports.now }
    ensures within { IfSome result (λ index. index < length ports.now) }
{
    ports.iter().position(|port| &port.name == name)
}

impl PartialEq for Config {
    ghost use Rattle.std.specs.Cmp.{partial_equiv_from_equiv};
    ghost use Rattle.apex_module.specs.Equality.{equal_configurations};
    ghost use Rattle.apex_module.specs.EqualityLaws.{equal_configurations-IsEquivalence};

    ghost eq = { equal_configurations };

    ghost laws = { partial_equiv_from_equiv equal_configurations-IsEquivalence };

    /// Whether the two configurations are equal.
    fn eq(&self, other: &Config) -> bool
        ensures test { result ≡ equal_configurations self.now other.now }
        ensures exact { IsTrue result ↔ (self.now ≡ other.now) }
    {
        same_partitions(self.partitions.as_slice(), other.partitions.as_slice())
            && same_channels(self.channels.as_slice(), other.channels.as_slice())
    }
}

impl Eq for Config {
    ghost use Rattle.apex_module.specs.EqualityLaws.{equal_configurations-IsEquivalence};

    ghost laws = { equal_configurations-IsEquivalence };
}

fn same_partitions(partitions: &[Partition], others: &[Partition]) -> bool
    ensures { result ≡ pointwise equal_partitions partitions.now others.now }
{
    partitions == others
}

fn same_channels(channels: &[Channel], others: &[Channel]) -> bool
    ensures { result ≡ pointwise equal_channels channels.now others.now }
{
    channels == others
}

fn copies_of_partitions(
    alloc: Global,
    partitions: &[Partition],
) -> Result<Vec<Partition>, AllocError>
    ensures { IfOk result (λ made. made.items ≡ partitions.now) }
{
    let mut made = Vec::with_capacity(alloc, partitions.len())?;
    for partition in partitions {
        let copy = partition.copy()?;
        made.push(copy)?;
    }
    Ok(made)
}

fn copies_of_channels(alloc: Global, channels: &[Channel]) -> Result<Vec<Channel>, AllocError>
    ensures { IfOk result (λ made. made.items ≡ channels.now) }
{
    let mut made = Vec::with_capacity(alloc, channels.len())?;
    for channel in channels {
        made.push(channel.copy())?;
    }
    Ok(made)
}
