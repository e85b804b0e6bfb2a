//! The passes over names: each is valid, and none occurs twice.
ghost use Rattle.std.specs.Prelude.{◌≡◌, map, OnOk};
ghost use Rattle.apex_config.specs.Places.{Adds};
ghost use Rattle.apex_config.specs.Passes.{is_name, bad_port_name, bad_partition_names, bad_channel_name, bad_names, part_in, repeated, repeated_port_names, repeated_names};

use crate::config_text::{ChannelText, ConfigText, PartitionText, PortText};
use crate::found::{Added, Finder, Places, add_each, add_unless};
use crate::key::Key;
use crate::place::Part;
use apex_types::Name;
use std::alloc::Global;
use std::collections::BTreeSet;

fn is_name(text: &str) -> bool
    ensures { result ≡ is_name text.now }
{
    Name::read(text).is_ok()
}

#[derive(Drop)]
struct PortNames {
    partition: usize,
}

impl<'a> Finder<PortText<'a>> for PortNames {
    ghost find = { λ names. bad_port_name names.partition };

    fn add(&self, places: &mut Places, index: usize, entry: &PortText<'a>) -> Added {
        let part = Part::Port {
            partition: self.partition,
            port: index,
        };
        add_unless(places, is_name(entry.name), part.at(Key::Name))
    }
}

#[derive(Drop)]
struct PartitionNames;

impl<'a> Finder<PartitionText<'a>> for PartitionNames {
    ghost find = { λ _. bad_partition_names };

    fn add(&self, places: &mut Places, index: usize, entry: &PartitionText<'a>) -> Added {
        let part = Part::Partition { partition: index };
        add_unless(places, is_name(entry.name), part.at(Key::Name))?;
        add_each(
            places,
            entry.ports.as_slice(),
            &PortNames { partition: index },
        )
    }
}

#[derive(Drop)]
struct ChannelNames;

impl<'a> Finder<ChannelText<'a>> for ChannelNames {
    ghost find = { λ _. bad_channel_name };

    fn add(&self, places: &mut Places, index: usize, entry: &ChannelText<'a>) -> Added {
        let part = Part::Channel { channel: index };
        add_unless(places, is_name(entry.name), part.at(Key::Name))
    }
}

/// Adds the places whose name is not valid.
#[tactic(auto, unfolding(crate::specs::Passes::bad_names))]
pub fn add_bad_names(places: &mut Places, config: &ConfigText) -> Added
    ensures { OnOk result (Adds (bad_names config.now) places.old.items places.new.items) }
{
    add_each(places, config.partitions.as_slice(), &PartitionNames)?;
    add_each(places, config.channels.as_slice(), &ChannelNames)
}

/// An entry with a name, in a list of its kind.
trait Named {
    ghost use Rattle.std.specs.Prelude.{List, ℕ};

    ghost name_of: { Self → List ℕ };

    fn name(&self) -> &str
        ensures { result.now ≡ name_of self.now };
}

impl Named for PartitionText<'_> {
    ghost name_of = { λ partition. partition.name };

    fn name(&self) -> &str {
        self.name
    }
}

impl Named for PortText<'_> {
    ghost name_of = { λ port. port.name };

    fn name(&self) -> &str {
        self.name
    }
}

impl Named for ChannelText<'_> {
    ghost name_of = { λ channel. channel.name };

    fn name(&self) -> &str {
        self.name
    }
}

/// The list that entries belong to.
#[derive(Clone, Copy)]
enum Entries {
    Partitions,
    PortsOf { partition: usize },
    Channels,
}

impl Entries {
    /// The part for an entry.
    fn part(self, index: usize) -> Part
        ensures { result ≡ part_in self index }
    {
        match self {
            Entries::Partitions => Part::Partition { partition: index },
            Entries::PortsOf { partition } => Part::Port {
                partition,
                port: index,
            },
            Entries::Channels => Part::Channel { channel: index },
        }
    }
}

/// Adds the entries that have the name of an earlier one.
fn add_repeated<T: Named>(alloc: Global, places: &mut Places, list: Entries, entries: &[T]) -> Added
    ensures { OnOk result (Adds
        (repeated (part_in list) (map T.name_of entries.now))
        places.old.items places.new.items) }
{
    let mut seen = BTreeSet::new(alloc);
    for (index, entry) in entries.iter().enumerate() {
        let is_new = seen.insert(entry.name())?;
        add_unless(places, is_new, list.part(index).at(Key::Name))?;
    }
    Ok(())
}

#[derive(Drop)]
struct RepeatedPortNames {
    alloc: Global,
}

impl<'a> Finder<PartitionText<'a>> for RepeatedPortNames {
    ghost find = { λ _. repeated_port_names };

    fn add(&self, places: &mut Places, index: usize, entry: &PartitionText<'a>) -> Added {
        let list = Entries::PortsOf { partition: index };
        add_repeated(self.alloc, places, list, entry.ports.as_slice())
    }
}

/// Adds the places whose name occurred before.
#[tactic(auto, unfolding(crate::specs::Passes::repeated_names))]
pub fn add_repeated_names(alloc: Global, places: &mut Places, config: &ConfigText) -> Added
    ensures { OnOk result (Adds (repeated_names config.now) places.old.items places.new.items) }
{
    add_repeated(
        alloc,
        places,
        Entries::Partitions,
        config.partitions.as_slice(),
    )?;
    add_each(
        places,
        config.partitions.as_slice(),
        &RepeatedPortNames { alloc },
    )?;
    add_repeated(alloc, places, Entries::Channels, config.channels.as_slice())
}
