//! The passes over the text of a configuration, in their order. Each reads the whole text.
ghost use Rattle.std.specs.Prelude.{◌≡◌, IfOk};
ghost use Rattle.apex_config.specs.Passes.{found_by};
ghost use Rattle.apex_config.specs.Meaning.{first_refusal};

use crate::channel_index::ChannelIndex;
use crate::config_text::ConfigText;
use crate::ends::add_wrong_ends;
use crate::links::{add_other_kinds, add_unknown_channels};
use crate::names::{add_bad_names, add_repeated_names};
use crate::numbers::{add_bad_counts, add_bad_numbers};
use crate::place::Place;
use crate::refusal::Refusal;
use apex_module::ConfigFault;
use apex_types::Direction;
use std::alloc::{AllocError, Global};

/// The passes over the text, by their faults, in their order.
pub const PASSES: [ConfigFault; 8] = [
    ConfigFault::BadName,
    ConfigFault::NameTwice,
    ConfigFault::OutOfRange,
    ConfigFault::UnknownChannel,
    ConfigFault::KindDiffers,
    ConfigFault::Sources,
    ConfigFault::Destinations,
    ConfigFault::Counts,
];

/// The places that the pass of a fault finds.
#[tactic(auto, unfolding(crate::specs::Passes::unknown_channels, crate::specs::Passes::other_kinds))]
fn found_by<'a>(
    alloc: Global,
    fault: ConfigFault,
    config: &ConfigText<'a>,
    channels: &ChannelIndex<'_, 'a>,
) -> Result<Vec<Place>, AllocError>
    requires { channels.now ≡ config.now.channels }
    ensures { IfOk result (λ places. places.items ≡ found_by fault config.now) }
{
    let mut places = Vec::new(alloc);
    let found = &mut places;
    let partitions = config.partitions.as_slice();
    match fault {
        ConfigFault::BadName => add_bad_names(found, config)?,
        ConfigFault::NameTwice => add_repeated_names(alloc, found, config)?,
        ConfigFault::OutOfRange => add_bad_numbers(found, config)?,
        ConfigFault::UnknownChannel => add_unknown_channels(found, channels, partitions)?,
        ConfigFault::KindDiffers => add_other_kinds(found, channels, partitions)?,
        ConfigFault::Sources => {
            add_wrong_ends(alloc, found, channels, partitions, Direction::Source)?
        }
        ConfigFault::Destinations => {
            add_wrong_ends(alloc, found, channels, partitions, Direction::Destination)?
        }
        ConfigFault::Counts => add_bad_counts(found, config)?,
        ConfigFault::NotToml | ConfigFault::Shape | ConfigFault::OutOfMemory => {}
    }
    Ok(places)
}

/// The refusal by the first of these passes that finds places.
pub fn first_refusal<'a>(
    alloc: Global,
    faults: &[ConfigFault],
    config: &ConfigText<'a>,
    channels: &ChannelIndex<'_, 'a>,
) -> Result<Option<Refusal>, AllocError>
    requires { channels.now ≡ config.now.channels }
    ensures { IfOk result (λ refusal. refusal ≡ first_refusal faults.now config.now) }
{
    for fault in faults {
        let places = found_by(alloc, *fault, config, channels)?;
        if !places.is_empty() {
            return Ok(Some(Refusal {
                fault: *fault,
                places,
            }));
        }
    }
    Ok(None)
}
