//! Parts of scripts: the partitions on which depends what a channel's calls are answered, which are searched by themselves.
ghost use Rattle.std.specs.Prelude.{◌≡◌, ◌<◌, ℕ, length, true, IsTrue};
ghost use Rattle.apex_groups.specs.Prelude.{IsConfiguration};
ghost use Rattle.apex_groups.specs.Groups.{group_of, in_group};
ghost use Rattle.apex_groups.specs.Parts.{AreBelow, HoldsPart, IsHeld, IsPortHeld, IsReader, id_asked, part_of_call, part_of_index, part_of_port};

use crate::groups::Groups;
use apex_module::{Config, Port};
use apex_orders::id_in;
use apex_ports::Script;
use apex_types::{Call, Direction};
use std::alloc::{AllocError, Global};

/// The part of each of a partition's ports, at the place of its identifier.
#[derive(Drop)]
pub(crate) struct OfPorts {
    pub(crate) parts: Vec<usize>,
}

/// The part of each port, of each channel, and of each partition's calls that name no port.
#[derive(Drop)]
pub(crate) struct Parts {
    pub(crate) of_ports: Vec<OfPorts>,
    pub(crate) of_channels: Vec<usize>,
    pub(crate) of_partitions: Vec<usize>,
    /// The channels of the last parts, each of which is a reader's by itself.
    pub(crate) read: Vec<usize>,
    /// A number beyond all parts.
    pub(crate) count: usize,
}

/// The partitions with a port of a channel.
#[derive(Clone, Copy, PartialEq, Eq)]
struct Ends {
    lowest: usize,
    highest: usize,
    ports: usize,
}

impl Ends {
    fn with(self, p: usize) -> Ends {
        Ends {
            lowest: self.lowest.min(p),
            highest: self.highest.max(p),
            ports: self.ports.saturating_add(1),
        }
    }
}

impl Parts {
    /// A channel with two ports is one part with all channels between the same partitions. Of a sampling channel with
    /// several readers, the source is a part, and so is each reader with the source. Calls that name no port are in the part
    /// of their partition's first port, or in one of their own. No clause says so: whoever relies on parts checks them.
    pub(crate) fn new(alloc: Global, config: &Config) -> Result<Parts, AllocError> {
        let ends = ends_of(alloc, config)?;
        let mut of_channels = Vec::with_capacity(alloc, ends.len())?;
        for c in 0..ends.len() {
            of_channels.push(first_alike(ends.as_slice(), c))?;
        }
        let mut parts = Parts {
            of_ports: Vec::new(alloc),
            of_channels,
            of_partitions: Vec::new(alloc),
            read: Vec::new(alloc),
            count: ends.len().saturating_add(config.partitions()),
        };
        for p in 0..config.partitions() {
            parts.add_partition(alloc, config, ends.as_slice(), p)?;
        }
        Ok(parts)
    }

    /// Adds a partition and its ports.
    fn add_partition(
        &mut self,
        alloc: Global,
        config: &Config,
        ends: &[Ends],
        p: usize,
    ) -> Result<(), AllocError>
        requires { p < length config.now.partitions }
    {
        let mut of_ports = Vec::new(alloc);
        of_ports.push(ends.len().saturating_add(p))?;
        for index in 0..config.ports(p) {
            if let Some(port) = config.port(p, index as u32 + 1) {
                let part = self.part_for(ends, port)?;
                of_ports.push(part)?;
            }
        }
        let first = if of_ports.len() > 1 { 1 } else { 0 };
        self.of_partitions
            .push(of_ports.get(first).copied().unwrap_or(0))?;
        self.of_ports.push(OfPorts { parts: of_ports })?;
        Ok(())
    }

    /// The part for a port: one more if it is one of several readers.
    fn part_for(&mut self, ends: &[Ends], port: &Port) -> Result<usize, AllocError> {
        let are_several = match ends.get(port.channel) {
            None => false,
            Some(ends) => ends.ports > 2,
        };
        if !are_several || !is_reader(port) {
            return Ok(self.of_channel(port.channel));
        }
        let part = self.count;
        self.read.push(port.channel)?;
        self.count = part.saturating_add(1);
        Ok(part)
    }

    /// Whether each part has a number below the count.
    pub(crate) fn are_below(&self) -> bool
        ensures { IsTrue result → AreBelow self.now }
    {
        for one in self.of_ports.iter() {
            if !have_less(one.parts.as_slice(), self.count) {
                return false;
            }
        }
        have_less(self.of_channels.as_slice(), self.count)
            && have_less(self.of_partitions.as_slice(), self.count)
    }

    /// The part of the channel.
    fn of_channel(&self, channel: usize) -> usize
        ensures { result ≡ group_of self.now.of_channels.items channel }
    {
        self.of_channels.get(channel).copied().unwrap_or(0)
    }

    /// The part of the partition's calls that name no port.
    fn of_partition(&self, p: usize) -> usize
        ensures { result ≡ group_of self.now.of_partitions.items p }
    {
        self.of_partitions.get(p).copied().unwrap_or(0)
    }

    /// The part of the partition's port with the identifier.
    fn of_port(&self, p: usize, id: u32) -> usize
        ensures { result ≡ part_of_port self.now p id }
    {
        match self.of_ports.get(p) {
            None => 0,
            Some(one) => one.parts.get(id as usize).copied().unwrap_or(0),
        }
    }

    /// The part of the call: that of the port that it names.
    fn of_call(&self, config: &Config, p: usize, call: &Call) -> usize
        ensures { result ≡ part_of_call config.now self.now p call.now }
    {
        let Some(id) = id_asked(call) else {
            return self.of_partition(p);
        };
        match config.port(p, id) {
            None => self.of_partition(p),
            Some(_) => self.of_port(p, id),
        }
    }

    /// The part of the call of a script at an index.
    pub(crate) fn of_index(
        &self,
        config: &Config,
        scripts: &[Script],
        p: usize,
        index: usize,
    ) -> usize
        ensures { result ≡ part_of_index config.now self.now scripts.now p index }
    {
        let Some(script) = scripts.get(p) else {
            return self.of_partition(p);
        };
        match script.calls.get(index) {
            None => self.of_partition(p),
            Some((_, call)) => self.of_call(config, p, call),
        }
    }

    /// The partitions and the channels of the part, as group 1. No clause says so: `hold` checks it.
    pub(crate) fn members(
        &self,
        alloc: Global,
        config: &Config,
        part: usize,
    ) -> Result<Groups, AllocError> {
        let mut of_channels = Vec::with_capacity(alloc, config.channels())?;
        for c in 0..config.channels() {
            of_channels.push((self.of_channel(c) == part || self.reads(part, c)) as usize)?;
        }
        let mut of_partitions = Vec::with_capacity(alloc, config.partitions())?;
        for p in 0..config.partitions() {
            of_partitions.push(self.has(config, part, p) as usize)?;
        }
        Ok(Groups {
            of_partitions,
            of_channels,
        })
    }

    /// Whether the part is one reader's of the channel.
    fn reads(&self, part: usize, channel: usize) -> bool {
        let last = self.count.saturating_sub(self.read.len());
        part >= last && self.read.get(part - last).copied() == Some(channel)
    }

    /// Whether the part is the partition's, one of its ports', or one reader's of a channel that it writes.
    fn has(&self, config: &Config, part: usize, p: usize) -> bool
        requires { p < length config.now.partitions }
    {
        if self.of_partition(p) == part {
            return true;
        }
        for index in 0..config.ports(p) {
            let id = index as u32 + 1;
            if let Some(port) = config.port(p, id) {
                let feeds = !is_reader(port) && self.reads(part, port.channel);
                if feeds || self.of_port(p, id) == part {
                    return true;
                }
            }
        }
        false
    }

    /// Whether the members hold the part: nobody else changes what its calls are answered, or what its channels count.
    pub(crate) fn hold(&self, config: &Config, part: usize, members: &Groups) -> bool
        ensures holds { let inside = in_group members.now.of_partitions.items 1 in
            IsTrue result → HoldsPart config.now self.now part inside
            (in_group members.now.of_channels.items 1) }
        ensures valid { IsConfiguration config.now }
    {
        for p in 0..config.partitions() {
            if !self.is_held(config, part, members, p) {
                return false;
            }
        }
        for c in 0..config.channels() {
            if self.of_channel(c) == part && members.of_channel(c) != 1 {
                return false;
            }
        }
        true
    }

    /// Whether the partition is a member if it has to be one, and its ports are held.
    fn is_held(&self, config: &Config, part: usize, members: &Groups, p: usize) -> bool
        requires { p < length config.now.partitions }
        ensures { let inside = in_group members.now.of_partitions.items 1 in
            IsTrue result → IsHeld config.now self.now part inside
            (in_group members.now.of_channels.items 1) p }
    {
        if !self.is_partition_held(part, members, p) {
            return false;
        }
        for index in 0..config.ports(p) {
            let id = index as u32 + 1;
            let Some(port) = config.port(p, id) else {
                return false;
            };
            if !self.is_port_held(part, members, p, id, port) {
                return false;
            }
        }
        true
    }

    /// Whether the partition is a member if the part is its own.
    fn is_partition_held(&self, part: usize, members: &Groups, p: usize) -> bool
        ensures { IsTrue result → group_of self.now.of_partitions.items p ≡ part
            → in_group members.now.of_partitions.items 1 p ≡ true }
    {
        members.of_partition(p) == 1 || self.of_partition(p) != part
    }

    /// Whether the port's partition and channel are members if they have to be.
    fn is_port_held(&self, part: usize, members: &Groups, p: usize, id: u32, port: &Port) -> bool
        ensures { let inside = in_group members.now.of_partitions.items 1 in
            IsTrue result → IsPortHeld self.now part inside
            (in_group members.now.of_channels.items 1) p id port.now }
    {
        let is_own = members.of_channel(port.channel) == 1;
        let is_of_part = self.of_port(p, id) == part;
        if members.of_partition(p) == 1 {
            is_own || !is_of_part
        } else {
            !is_of_part && (!is_own || is_reader(port))
        }
    }
}

/// Whether the port reads a sampling channel, and so changes nothing on it.
fn is_reader(port: &Port) -> bool
    ensures { IsTrue result → IsReader port.now }
{
    match port.direction {
        Direction::Source => false,
        Direction::Destination => !port.kind.is_queuing(),
    }
}

/// Whether all numbers are less than the count.
fn have_less(numbers: &[usize], count: usize) -> bool
    ensures { IsTrue result → (k : ℕ) → group_of numbers.now k < count }
{
    for number in numbers {
        if *number >= count {
            return false;
        }
    }
    count > 0
}

/// The ends of each channel.
fn ends_of(alloc: Global, config: &Config) -> Result<Vec<Ends>, AllocError> {
    let none = Ends {
        lowest: usize::MAX,
        highest: 0,
        ports: 0,
    };
    let mut ends = vec![in alloc; none; config.channels()]?;
    for p in 0..config.partitions() {
        for index in 0..config.ports(p) {
            if let Some(port) = config.port(p, index as u32 + 1) {
                if let Some(one) = ends.get_mut(port.channel) {
                    *one = one.with(p);
                }
            }
        }
    }
    Ok(ends)
}

/// The first channel whose two ports are the same partitions' as the channel's; the channel itself if it has not two.
fn first_alike(ends: &[Ends], c: usize) -> usize
    requires { c < length ends.now }
{
    for d in 0..c {
        if ends[d] == ends[c] && ends[c].ports == 2 {
            return d;
        }
    }
    c
}

/// The identifier of the port that a call names, so that its reply can depend on the port's channel.
fn id_asked(call: &Call) -> Option<u32>
    ensures { result ≡ id_asked call.now }
{
    match call {
        Call::SamplingStatus { id } => Some(*id),
        _ => id_in(call),
    }
}
