//! The arrows of a trace's calls.
ghost use Rattle.std.specs.Prelude.{◌≡◌, ◌++◌, [], IfOk, OnOk};
ghost use Rattle.dekarino_drawings.specs.Arrows.{arrow_from, arrows_of, waiting_of};
ghost use Rattle.dekarino_drawings.specs.Following.{AreFollowed};

use crate::arrow::Arrow;
use crate::channel_calls::ChannelCalls;
use crate::channels::{follow, new_channels, origin_of, waiting_of};
use apex_module::Config;
use apex_ports::Entry;
use std::alloc::{AllocError, Global};

/// The arrows of these calls, in the order of the calls that they lead to, and the calls that sent the messages still
/// waiting at the end: channel by channel, oldest first.
pub(crate) fn arrows_and_waiting(
    alloc: Global,
    config: &Config,
    calls: &[Entry],
) -> Result<(Vec<Arrow>, Vec<usize>), AllocError>
    ensures arrows { IfOk result (λ both. both.0.items ≡ arrows_of config.now calls.now) }
    ensures waiting { IfOk result (λ both. both.1.items ≡ waiting_of config.now calls.now) }
{
    let mut channels = new_channels(alloc, config)?;
    let arrows = arrows_of(alloc, config, calls, &mut channels)?;
    let waiting = waiting_of(alloc, channels.as_slice())?;
    Ok((arrows, waiting))
}

/// The arrows of these calls. The calls are added to the channels.
fn arrows_of(
    alloc: Global,
    config: &Config,
    calls: &[Entry],
    channels: &mut Vec<ChannelCalls>,
) -> Result<Vec<Arrow>, AllocError>
    requires { AreFollowed config.now [] channels.old.items }
    ensures arrows { IfOk result (λ arrows. arrows.items ≡ arrows_of config.now calls.now) }
    ensures followed { OnOk result (AreFollowed config.now calls.now channels.new.items) }
{
    let mut arrows = Vec::new(alloc);
    for (index, entry) in calls.iter().enumerate() {
        let from = origin_of(channels.as_slice(), config, entry);
        push_arrow(&mut arrows, from, index)?;
        follow(channels, config, index, entry)?;
    }
    Ok(arrows)
}

/// Adds the arrow to a call from its origin, if it has one.
fn push_arrow(arrows: &mut Vec<Arrow>, from: Option<usize>, to: usize) -> Result<(), AllocError>
    ensures { OnOk result (arrows.new.items ≡ arrows.old.items ++ arrow_from from to) }
{
    if let Some(from) = from {
        arrows.push(Arrow { from, to })?;
    }
    Ok(())
}
