//! Saves the state of ports in one piece of bytes, and restores it.
ghost use Rattle.std.specs.Prelude.{◌≡◌, ◌++◌, ◌↔◌, IfOk, IsTrue, OnOk};
ghost use Rattle.std.specs.List.{flat_map};
ghost use Rattle.apex_ports.specs.Kept.{EachAt};
ghost use Rattle.apex_ports.specs.Packed.{packed_number, packed_partition, packed_channel};
ghost use Rattle.apex_ports.specs.SameSaved.{IsSameSaved};
ghost use Rattle.apex_ports.specs.Saved.{Reads, EachOf, AreCounts, HasAsManyPorts, IsSameTable, HasRoomFor, IsPackable};

use crate::channel::ChannelState;
use crate::ghost_history::GhostHistory;
use crate::packing::put_number;
use crate::partition::PartitionState;
use crate::ports::Ports;
use crate::unpacking::Reader;
use apex_module::Config;
use apex_types::OutOfMemory;
use std::alloc::{AllocError, Allocator, Global};
use std::marker::Model;
use std::snapshot::Snapshot;

/// What the mode of a partition and the number of its calls take, in bytes.
const PARTITION_BYTES: usize = 9;

/// About what saved ports take besides their bytes, in bytes.
const FIXED_BYTES: usize = 64;

/// The saved state of ports: their modes, created ports, messages, samples and counts, without unused room and without
/// the configuration. A contract sees the configuration and the history that the ports had.
#[derive(Drop)]
pub struct SavedPorts<A: Allocator = Global> {
    config: Snapshot<Config>,
    history: GhostHistory,
    bytes: Vec<u8, A>,
}

impl<A: Allocator> Model for SavedPorts<A> {
    ghost use Rattle.apex_ports.specs.PortsView.{PortsView};

    ghost Value = { PortsView };

    ghost use Rattle.apex_ports.specs.Saved.{IsSavedKept};

    ghost view = { λ saved. record { config = saved.config.value; history = saved.history } };

    ghost invariant = { λ saved. IsSavedKept saved.config.value saved.history saved.bytes };
}

impl<A: Allocator + Copy> Ports<A> {
    /// Saves the state of the ports.
    pub fn save(&self, alloc: A) -> Result<SavedPorts<A>, OutOfMemory>
        ensures { IfOk result (λ saved. saved ≡ self.now) }
    {
        self.save_in(Vec::new(alloc))
    }
}

impl<A: Allocator> Ports<A> {
    /// Saves the state of the ports in the memory of what was saved before.
    pub fn save_over(&self, old: SavedPorts<A>) -> Result<SavedPorts<A>, OutOfMemory>
        ensures { IfOk result (λ saved. saved ≡ self.now) }
    {
        self.save_in(old.bytes)
    }

    // Saves the state of the ports in place of these bytes.
    fn save_in(&self, mut bytes: Vec<u8, A>) -> Result<SavedPorts<A>, OutOfMemory>
        ensures { IfOk result (λ saved. saved ≡ self.now) }
    {
        bytes.clear();
        bytes.reserve_exact(self.saved_len())?;
        save_partitions(self.state.partitions.as_slice(), &mut bytes)?;
        save_channels(self.state.channels.as_slice(), &mut bytes)?;
        save_calls(self.calls.as_slice(), &mut bytes)?;
        Ok(SavedPorts {
            config: Snapshot::of(&self.config),
            history: self.state.history.copy(),
            bytes,
        })
    }

    // How many bytes `save_in` writes.
    fn saved_len(&self) -> usize {
        let mut len: usize = 0;
        for partition in &self.state.partitions {
            len = len
                .saturating_add(partition.ports.len())
                .saturating_add(PARTITION_BYTES);
        }
        for channel in &self.state.channels {
            len = len.saturating_add(channel.saved_len());
        }
        len
    }
}

impl<A: Allocator> SavedPorts<A> {
    /// About how many bytes of memory it takes.
    pub fn bytes(&self) -> usize {
        self.bytes.len().saturating_add(FIXED_BYTES)
    }

    /// Whether both were saved from ports of the same modes, ports, messages, samples and counts.
    /// It compares their bytes.
    pub fn is_same(&self, other: &SavedPorts<A>) -> bool
        requires { self.now.config ≡ other.now.config }
        ensures { IsTrue result ↔ IsSameSaved self.now.config self.now.history other.now.history }
    {
        self.bytes.as_slice() == other.bytes.as_slice()
    }
}

impl<A: Allocator> Ports<A> {
    ghost use Rattle.apex_ports.specs.Sound.{IsSound};

    /// Restores the ports to what was saved from ports of the same configuration. It doesn't allocate.
    pub fn restore(&mut self, saved: &SavedPorts<A>)
        requires { saved.now.config ≡ self.old.config }
        ensures restored { self.new ≡ saved.now }
        ensures sound { IsSound self.new.config self.new.history }
    {
        let mut reader = Reader::new(saved.bytes.as_slice());
        restore_partitions(self.state.partitions.as_mut_slice(), &mut reader);
        restore_channels(self.state.channels.as_mut_slice(), &mut reader);
        restore_calls(self.calls.as_mut_slice(), &mut reader);
        self.state.history = saved.history.copy();
    }
}

fn save_partitions<A: Allocator>(
    partitions: &[PartitionState<A>],
    bytes: &mut Vec<u8, A>,
) -> Result<(), AllocError>
    ensures { OnOk result
        (bytes.new.items ≡ bytes.old.items ++ flat_map packed_partition partitions.now) }
{
    for partition in partitions {
        partition.save(bytes)?;
    }
    Ok(())
}

fn save_channels<A: Allocator>(
    channels: &[ChannelState<A>],
    bytes: &mut Vec<u8, A>,
) -> Result<(), AllocError>
    ensures saved { OnOk result
        (bytes.new.items ≡ bytes.old.items ++ flat_map packed_channel channels.now) }
    ensures packable { OnOk result (EachAt (λ _ state. IsPackable state) channels.now) }
{
    for channel in channels {
        channel.save(bytes)?;
    }
    Ok(())
}

// Writes the number of calls of each partition.
fn save_calls<A: Allocator>(calls: &[u64], bytes: &mut Vec<u8, A>) -> Result<(), AllocError>
    ensures { OnOk result
        (bytes.new.items ≡ bytes.old.items ++ flat_map packed_number calls.now) }
{
    for count in calls {
        put_number(bytes, *count)?;
    }
    Ok(())
}

fn restore_partitions<A: Allocator>(partitions: &mut [PartitionState<A>], reader: &mut Reader<'_>)
    ensures { Reads (flat_map packed_partition) (EachOf HasAsManyPorts partitions.old)
        (λ saved. EachOf IsSameTable saved partitions.new) reader.old reader.new }
{
    for partition in partitions.iter_mut() {
        partition.restore(reader);
    }
}

fn restore_channels<A: Allocator>(channels: &mut [ChannelState<A>], reader: &mut Reader<'_>)
    ensures { Reads (flat_map packed_channel) (EachOf HasRoomFor channels.old)
        (λ saved. channels.new ≡ saved) reader.old reader.new }
{
    for channel in channels.iter_mut() {
        channel.restore(reader);
    }
}

fn restore_calls(calls: &mut [u64], reader: &mut Reader<'_>)
    ensures { Reads (flat_map packed_number) (AreCounts calls.old)
        (λ saved. calls.new ≡ saved) reader.old reader.new }
{
    for count in calls.iter_mut() {
        *count = reader.number();
    }
}
