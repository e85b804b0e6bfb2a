//! What calls did to each channel.
ghost use Rattle.std.specs.Prelude.{◌≡◌, ℕ, ◌<◌, ◌-◌, ◌^◌, ◌++◌, ◌∷◌, [], length, IfOk, OnOk};
ghost use Rattle.dekarino_drawings.specs.Prelude.{Configuration, History};
ghost use Rattle.dekarino_drawings.specs.Arrows.{origin_of, waiting_of};
ghost use Rattle.dekarino_drawings.specs.Following.{AreFollowed, channel_changed};

use crate::channel_calls::ChannelCalls;
use apex_module::Config;
use apex_ports::Entry;
use apex_types::{Call, Reply};
use std::alloc::{AllocError, Global};

/// The channels of a configuration, without calls.
pub(crate) fn new_channels(alloc: Global, config: &Config) -> Result<Vec<ChannelCalls>, AllocError>
    ensures { IfOk result (λ channels. AreFollowed config.now [] channels.items) }
{
    let mut channels = Vec::new(alloc);
    for _ in 0..config.channels() {
        channels.push(ChannelCalls::new(alloc))?;
    }
    Ok(channels)
}

/// Adds a call with this index to its channel.
pub(crate) fn follow(
    channels: &mut Vec<ChannelCalls>,
    config: &Config,
    index: usize,
    entry: &Entry,
) -> Result<(), AllocError>
    ensures { (before : History) → length before ≡ index → index < 2 ^ 64 - 1
        → AreFollowed config.now before channels.old.items
        → OnOk result (AreFollowed config.now (before ++ entry.now ∷ []) channels.new.items) }
{
    let Some(c) = channel_changed(config, entry) else {
        return Ok(());
    };
    if c >= channels.len() {
        return Ok(());
    }
    channels[c].follow(config, c, index, entry)
}

/// The channel whose messages a call can change: that of the port that it names.
fn channel_changed(config: &Config, entry: &Entry) -> Option<usize>
    ensures { result ≡ channel_changed config.now entry.now.partition entry.now.call }
{
    let id = match &entry.call {
        Call::SendQueuing { id, .. } => *id,
        Call::ReceiveQueuing { id } => *id,
        Call::ClearQueuing { id } => *id,
        Call::WriteSampling { id, .. } => *id,
        _ => return None,
    };
    Some(config.port(entry.partition, id)?.channel)
}

/// The call whose message this call showed, after the calls added so far.
pub(crate) fn origin_of(channels: &[ChannelCalls], config: &Config, entry: &Entry) -> Option<usize>
    ensures { (before : History) → AreFollowed config.now before channels.now →
        let one = entry.now in
        result ≡ origin_of config.now before one.partition one.call one.reply }
{
    match (&entry.call, &entry.reply) {
        (Call::ReceiveQueuing { id }, Reply::Received(_)) => {
            let port = config.port(entry.partition, *id)?;
            channels.get(port.channel)?.next_send()
        }
        (Call::ReadSampling { id }, Reply::Read { .. }) => {
            let port = config.port(entry.partition, *id)?;
            channels.get(port.channel)?.last_write
        }
        _ => None,
    }
}

/// The calls that sent the messages waiting on all channels.
pub(crate) fn waiting_of(alloc: Global, channels: &[ChannelCalls]) -> Result<Vec<usize>, AllocError>
    ensures { (config : Configuration) (calls : History) → AreFollowed config calls channels.now
        → IfOk result (λ waiting. waiting.items ≡ waiting_of config calls) }
{
    let mut waiting = Vec::new(alloc);
    for channel in channels {
        channel.push_waiting(&mut waiting)?;
    }
    Ok(waiting)
}
