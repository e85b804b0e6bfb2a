//! The passes over numbers and counts: each is within its limits.
ghost use Rattle.std.specs.Prelude.{◌≡◌, OnOk};
ghost use Rattle.apex_config.specs.Prelude.{REFRESH_LIMIT};
ghost use Rattle.apex_config.specs.Places.{Adds};
ghost use Rattle.apex_config.specs.Passes.{is_from_one_to, is_from_one_to_if_any, bad_channel_numbers, bad_numbers, too_many_ports, bad_counts};

use crate::config_text::{ChannelText, ConfigText, PartitionText, PortText};
use crate::found::{Added, Finder, Places, add_each, add_unless};
use crate::key::Key;
use crate::place::{Part, Spot};
use crate::ports::{PortTest, add_ports_unless};
use apex_module::{
    CHANNEL_LIMIT, DEPTH_LIMIT, PARTITION_LIMIT, PORT_LIMIT, REFRESH_LIMIT, SIZE_LIMIT,
};

fn is_from_one_to(limit: u64, number: i64) -> bool
    ensures { result ≡ is_from_one_to limit number }
{
    1 <= number && number as u64 <= limit
}

fn is_from_one_to_if_any(limit: u64, number: Option<i64>) -> bool
    ensures { result ≡ is_from_one_to_if_any limit number }
{
    match number {
        Some(number) => is_from_one_to(limit, number),
        None => true,
    }
}

#[derive(Drop)]
struct HasRefresh;

impl<'a> PortTest<PortText<'a>> for HasRefresh {
    ghost passes = { λ _ port. is_from_one_to_if_any REFRESH_LIMIT port.refresh };

    fn passes(&self, port: &PortText<'a>) -> bool {
        is_from_one_to_if_any(REFRESH_LIMIT, port.refresh)
    }
}

#[derive(Drop)]
struct ChannelNumbers;

impl<'a> Finder<ChannelText<'a>> for ChannelNumbers {
    ghost find = { λ _. bad_channel_numbers };

    fn add(&self, places: &mut Places, index: usize, entry: &ChannelText<'a>) -> Added {
        let part = Part::Channel { channel: index };
        let has_size = is_from_one_to(SIZE_LIMIT as u64, entry.size);
        add_unless(places, has_size, part.at(Key::Size))?;
        let has_depth = is_from_one_to_if_any(DEPTH_LIMIT as u64, entry.depth);
        add_unless(places, has_depth, part.at(Key::Depth))
    }
}

/// Adds the places whose number is outside its limits.
#[tactic(auto, unfolding(crate::specs::Passes::bad_numbers))]
pub fn add_bad_numbers(places: &mut Places, config: &ConfigText) -> Added
    ensures { OnOk result (Adds (bad_numbers config.now) places.old.items places.new.items) }
{
    let spot = Spot::At { key: Key::Refresh };
    add_ports_unless(places, config.partitions.as_slice(), spot, &HasRefresh)?;
    add_each(places, config.channels.as_slice(), &ChannelNumbers)
}

#[derive(Drop)]
struct PortCounts;

impl<'a> Finder<PartitionText<'a>> for PortCounts {
    ghost find = { λ _. too_many_ports };

    fn add(&self, places: &mut Places, index: usize, entry: &PartitionText<'a>) -> Added {
        let part = Part::Partition { partition: index };
        add_unless(places, entry.ports.len() <= PORT_LIMIT, part.at(Key::Port))
    }
}

/// Adds the places with too few or too many entries.
#[tactic(auto, unfolding(crate::specs::Passes::bad_counts))]
pub fn add_bad_counts(places: &mut Places, config: &ConfigText) -> Added
    ensures { OnOk result (Adds (bad_counts config.now) places.old.items places.new.items) }
{
    let count = config.partitions.len();
    let passes = 1 <= count && count <= PARTITION_LIMIT;
    add_unless(places, passes, Part::Document.at(Key::Partition))?;
    add_each(places, config.partitions.as_slice(), &PortCounts)?;
    let passes = config.channels.len() <= CHANNEL_LIMIT;
    add_unless(places, passes, Part::Document.at(Key::Channel))
}
