//! Groups of partitions: two that have ports of one channel are in one group.
ghost use Rattle.std.specs.Prelude.{◌≡◌, ◌≢◌, ◌<◌, ℕ, length, IsTrue};
ghost use Rattle.apex_groups.specs.Groups.{AreApart, HasItsChannels, HasNone, group_of};

use apex_module::Config;
use std::alloc::{AllocError, Global};

/// The number of each partition's group, and of each channel's.
#[derive(Drop)]
pub struct Groups {
    pub of_partitions: Vec<usize>,
    pub of_channels: Vec<usize>,
}

impl Groups {
    /// The smallest groups. Each has the number of its first partition. No clause says so: whoever relies on groups
    /// checks whether they are apart.
    pub fn new(alloc: Global, config: &Config) -> Result<Groups, AllocError> {
        let mut of_partitions = Vec::with_capacity(alloc, config.partitions())?;
        for p in 0..config.partitions() {
            of_partitions.push(p)?;
        }
        let mut of_channels = Vec::new(alloc);
        of_channels.resize(config.channels(), config.partitions())?;
        let mut groups = Groups {
            of_partitions,
            of_channels,
        };
        for _ in 0..config.partitions() {
            groups.spread(config);
        }
        Ok(groups)
    }

    /// Puts the partition and the channel of each port into the lower of their groups.
    fn spread(&mut self, config: &Config) {
        for p in 0..config.partitions() {
            for index in 0..config.ports(p) {
                if let Some(port) = config.port(p, index as u32 + 1) {
                    self.join(p, port.channel);
                }
            }
        }
    }

    /// Puts both into the lower of their groups.
    fn join(&mut self, p: usize, channel: usize) {
        let lower = self.of_partition(p).min(self.of_channel(channel));
        if let Some(group) = self.of_partitions.get_mut(p) {
            *group = lower;
        }
        if let Some(group) = self.of_channels.get_mut(channel) {
            *group = lower;
        }
    }

    /// The group of the partition.
    pub fn of_partition(&self, p: usize) -> usize
        ensures { result ≡ group_of self.now.of_partitions.items p }
    {
        self.of_partitions.get(p).copied().unwrap_or(0)
    }

    /// The group of the channel.
    pub(crate) fn of_channel(&self, channel: usize) -> usize
        ensures { result ≡ group_of self.now.of_channels.items channel }
    {
        self.of_channels.get(channel).copied().unwrap_or(0)
    }

    /// Whether all partitions are in one group.
    pub fn are_one(&self) -> bool {
        let first = self.of_partition(0);
        self.of_partitions.iter().all(|group| *group == first)
    }

    /// Whether a partition is in the group.
    pub fn have(&self, config: &Config, group: usize) -> bool
        ensures none { ¬ IsTrue result
            → HasNone config.now self.now.of_partitions.items group }
        ensures some { IsTrue result
            → ¬ HasNone config.now self.now.of_partitions.items group }
    {
        for p in 0..config.partitions() {
            if self.of_partition(p) == group {
                return true;
            }
        }
        false
    }

    /// Whether no two groups share a channel, and each has the number of a partition.
    pub fn are_apart(&self, config: &Config) -> bool
        ensures { IsTrue result → AreApart config.now self.now.of_partitions.items }
    {
        for p in 0..config.partitions() {
            if self.of_partition(p) >= config.partitions() || !self.has_its_channels(config, p) {
                return false;
            }
        }
        true
    }

    /// Whether the partition's group has the channels of its ports.
    fn has_its_channels(&self, config: &Config, p: usize) -> bool
        requires { p < length config.now.partitions }
        ensures { IsTrue result → HasItsChannels config.now
            self.now.of_partitions.items self.now.of_channels.items p }
    {
        for index in 0..config.ports(p) {
            let Some(port) = config.port(p, index as u32 + 1) else {
                return false;
            };
            if self.of_channel(port.channel) != self.of_partition(p) {
                return false;
            }
        }
        true
    }
}
