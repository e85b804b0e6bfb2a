//! Makes the configuration of a text in which no pass finds a place.
ghost use Rattle.std.specs.Prelude.{◌≡◌, ◌&&◌, IsTrue, IfOk, None, map};
ghost use Rattle.apex_config.specs.Prelude.{list_all};
ghost use Rattle.apex_config.specs.Meaning.{natural, port_kind_of, channel_kind_of, port_of_text, partition_of_text, channel_of_text, configuration_of, first_refusal};
ghost use Rattle.apex_config.specs.Passes.{is_name, passes};
ghost use Rattle.apex_config.specs.Accepted.{has_names, is_acceptable};

use crate::channel_index::ChannelIndex;
use crate::config_text::{ChannelText, ConfigText, PartitionText, PortText};
use apex_module::{Channel, ChannelKind, Config, Partition, Port, PortKind};
use apex_types::Name;
use std::alloc::{AllocError, Global};

fn accepted_name(text: &str) -> Name
    requires { IsTrue (is_name text.now) }
    ensures { result ≡ text.now }
{
    Name::read(text).unwrap()
}

fn natural(number: i64) -> u64
    ensures { result ≡ natural number }
{
    if number < 0 { 0 } else { number as u64 }
}

fn port_kind(refresh: Option<i64>) -> PortKind
    ensures { result ≡ port_kind_of refresh }
{
    match refresh {
        Some(refresh) => PortKind::Sampling {
            refresh: natural(refresh),
        },
        None => PortKind::Queuing,
    }
}

fn accepted_port<'a>(channels: &ChannelIndex<'_, 'a>, text: &PortText<'a>) -> Port
    requires { IsTrue (is_name text.now.name) }
    ensures { result ≡ port_of_text channels.now text.now }
{
    Port {
        name: accepted_name(text.name),
        kind: port_kind(text.refresh),
        direction: text.direction,
        channel: channels.number_of(text.channel),
    }
}

fn accepted_ports<'a>(
    alloc: Global,
    channels: &ChannelIndex<'_, 'a>,
    texts: &[PortText<'a>],
) -> Result<Vec<Port>, AllocError>
    requires { IsTrue (list_all (λ port. is_name port.name) texts.now) }
    ensures { IfOk result (λ ports. ports.items ≡ map (port_of_text channels.now) texts.now) }
{
    let mut ports = Vec::with_capacity(alloc, texts.len())?;
    for text in texts {
        ports.push(accepted_port(channels, text))?;
    }
    Ok(ports)
}

fn accepted_partition<'a>(
    alloc: Global,
    channels: &ChannelIndex<'_, 'a>,
    text: &PartitionText<'a>,
) -> Result<Partition, AllocError>
    requires { IsTrue (has_names text.now) }
    ensures { IfOk result (λ partition. partition ≡ partition_of_text channels.now text.now) }
{
    let ports = accepted_ports(alloc, channels, text.ports.as_slice())?;
    Ok(Partition::new(accepted_name(text.name), ports))
}

fn accepted_partitions<'a>(
    alloc: Global,
    channels: &ChannelIndex<'_, 'a>,
    texts: &[PartitionText<'a>],
) -> Result<Vec<Partition>, AllocError>
    requires { IsTrue (list_all has_names texts.now) }
    ensures { IfOk result (λ partitions.
        partitions.items ≡ map (partition_of_text channels.now) texts.now) }
{
    let mut partitions = Vec::with_capacity(alloc, texts.len())?;
    for text in texts {
        let partition = accepted_partition(alloc, channels, text)?;
        partitions.push(partition)?;
    }
    Ok(partitions)
}

fn accepted_channel(text: &ChannelText) -> Channel
    requires { IsTrue (is_acceptable text.now) }
    ensures { result ≡ channel_of_text text.now }
{
    let kind = match text.depth {
        Some(depth) => ChannelKind::Queuing {
            depth: natural(depth) as u32,
        },
        None => ChannelKind::Sampling,
    };
    Channel {
        name: accepted_name(text.name),
        size: natural(text.size) as u32,
        kind,
    }
}

fn accepted_channels(alloc: Global, texts: &[ChannelText]) -> Result<Vec<Channel>, AllocError>
    requires { IsTrue (list_all is_acceptable texts.now) }
    ensures { IfOk result (λ channels. channels.items ≡ map channel_of_text texts.now) }
{
    let mut channels = Vec::with_capacity(alloc, texts.len())?;
    for text in texts {
        channels.push(accepted_channel(text))?;
    }
    Ok(channels)
}

/// The configuration of a text in which no pass finds a place.
pub fn accepted_config<'a>(
    alloc: Global,
    config: &ConfigText<'a>,
    channels: &ChannelIndex<'_, 'a>,
) -> Result<Config, AllocError>
    requires index { channels.now ≡ config.now.channels }
    requires accepted { first_refusal passes config.now ≡ None }
    ensures { IfOk result (λ made. made ≡ configuration_of config.now) }
{
    let partitions = accepted_partitions(alloc, channels, config.partitions.as_slice())?;
    let channels = accepted_channels(alloc, config.channels.as_slice())?;
    Ok(Config::new(partitions, channels))
}
