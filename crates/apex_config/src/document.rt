//! Reads the text of a configuration from a document whose form is right.
ghost use Rattle.std.specs.Prelude.{◌≡◌, map, IfOk};
ghost use Rattle.apex_config.specs.Prelude.{view};
ghost use Rattle.apex_config.specs.Text.{is_queuing, is_sampling, is_source, port_text_of, partition_text_of, channel_text_of, config_text_of};

use crate::config_text::{ChannelText, ConfigText, PartitionText, PortText};
use crate::key::Key;
use crate::value::{has_word, items_at, number_in, text_in};
use apex_types::Direction;
use std::alloc::{AllocError, Global};
use toml::Value;

/// Whether the kind of a port or of a channel is queuing.
pub fn is_queuing(value: &Value) -> bool
    ensures { result ≡ is_queuing (view value.now) }
{
    has_word(value, Key::Kind, "queuing")
}

/// Whether the kind of a port or of a channel is sampling.
pub fn is_sampling(value: &Value) -> bool
    ensures { result ≡ is_sampling (view value.now) }
{
    has_word(value, Key::Kind, "sampling")
}

/// Whether the direction of a port is source.
pub fn is_source(value: &Value) -> bool
    ensures { result ≡ is_source (view value.now) }
{
    has_word(value, Key::Direction, "source")
}

fn port_text(value: &Value) -> PortText<'_>
    ensures { result ≡ port_text_of (view value.now) }
{
    PortText {
        name: text_in(value, Key::Name),
        refresh: is_sampling(value).then_some(number_in(value, Key::Refresh)),
        direction: if is_source(value) {
            Direction::Source
        } else {
            Direction::Destination
        },
        channel: text_in(value, Key::Channel),
    }
}

fn port_texts(alloc: Global, values: &[Value]) -> Result<Vec<PortText<'_>>, AllocError>
    ensures { IfOk result (λ ports.
        ports.items ≡ map (λ value. port_text_of (view value)) values.now) }
{
    let mut ports = Vec::with_capacity(alloc, values.len())?;
    for value in values {
        ports.push(port_text(value))?;
    }
    Ok(ports)
}

fn partition_text(alloc: Global, value: &Value) -> Result<PartitionText<'_>, AllocError>
    ensures { IfOk result (λ partition. partition ≡ partition_text_of (view value.now)) }
{
    let ports = port_texts(alloc, items_at(value, Key::Port))?;
    Ok(PartitionText {
        name: text_in(value, Key::Name),
        ports,
    })
}

fn partition_texts(alloc: Global, values: &[Value]) -> Result<Vec<PartitionText<'_>>, AllocError>
    ensures { IfOk result (λ partitions.
        partitions.items ≡ map (λ value. partition_text_of (view value)) values.now) }
{
    let mut partitions = Vec::with_capacity(alloc, values.len())?;
    for value in values {
        let partition = partition_text(alloc, value)?;
        partitions.push(partition)?;
    }
    Ok(partitions)
}

fn channel_text(value: &Value) -> ChannelText<'_>
    ensures { result ≡ channel_text_of (view value.now) }
{
    ChannelText {
        name: text_in(value, Key::Name),
        size: number_in(value, Key::Size),
        depth: is_queuing(value).then_some(number_in(value, Key::Depth)),
    }
}

fn channel_texts(alloc: Global, values: &[Value]) -> Result<Vec<ChannelText<'_>>, AllocError>
    ensures { IfOk result (λ channels.
        channels.items ≡ map (λ value. channel_text_of (view value)) values.now) }
{
    let mut channels = Vec::with_capacity(alloc, values.len())?;
    for value in values {
        channels.push(channel_text(value))?;
    }
    Ok(channels)
}

/// The text of the configuration that a document gives.
pub fn config_text(alloc: Global, document: &Value) -> Result<ConfigText<'_>, AllocError>
    ensures { IfOk result (λ config. config ≡ config_text_of (view document.now)) }
{
    let partitions = partition_texts(alloc, items_at(document, Key::Partition))?;
    let channels = channel_texts(alloc, items_at(document, Key::Channel))?;
    Ok(ConfigText {
        partitions,
        channels,
    })
}
