//! Modules at the limits: 32 partitions, 64 channels, names of 30 characters, messages of 1,024 bytes.
use crate::tests::rounds::{PARTITIONS, channel_at};
use apex_config::ReadConfig;
use apex_module::Config;
use std::alloc::{AllocError, AllocGlobal, Global};
use std::test::Fail;

/// A module at the limits. Its queuing channels come first, and the others are sampling channels. With 32 queuing
/// channels or fewer each partition has 32 ports; with 64 of them it has 4.
#[derive(Clone, Copy)]
pub(crate) struct Module {
    pub(crate) queuing: u32,
    /// The moment of each call but the last reads.
    pub(crate) at: u64,
}

impl Module {
    pub(crate) fn is_queuing(self, channel: u32) -> bool {
        channel < self.queuing
    }

    /// The number of ports of each partition.
    pub(crate) fn ports(self) -> u32 {
        if self.queuing <= 32 { 32 } else { 4 }
    }
}

fn kind_of_port(module: Module, channel: u32) -> &'static str {
    if module.is_queuing(channel) {
        "\"queuing\""
    } else {
        "\"sampling\"\nrefresh = 9223372036854775807"
    }
}

fn kind_of_channel(module: Module, channel: u32) -> &'static str {
    if module.is_queuing(channel) {
        "\"queuing\"\ndepth = 512"
    } else {
        "\"sampling\""
    }
}

fn push_port(
    text: &mut String,
    alloc: Global,
    module: Module,
    partition: u32,
    index: u32,
) -> Result<(), AllocError> {
    let direction = if index < 2 { "source" } else { "destination" };
    let channel = channel_at(partition, index);
    let kind = kind_of_port(module, channel);
    let name = index.saturating_add(10);
    let channel = channel.saturating_add(10);
    let port = format!(in alloc;
        "[[partition.port]]\nname = \"PORT_OF_TWENTY_EIGHT_LETTERS{name}\"\ndirection = \"{direction}\"\nchannel = \"CHANNEL_OF_THIRTY_CHARACTERS{channel}\"\nkind = {kind}\n"
    )?;
    text.push_str(port.as_str())
}

fn push_partition(
    text: &mut String,
    alloc: Global,
    module: Module,
    partition: u32,
) -> Result<(), AllocError> {
    let name = partition.saturating_add(10);
    let header = format!(in alloc;
        "[[partition]]\nname = \"PARTITION_OF_THIRTY_LETTERS_{name}\"\n"
    )?;
    text.push_str(header.as_str())?;
    for index in 0..module.ports() {
        push_port(text, alloc, module, partition, index)?;
    }
    Ok(())
}

fn push_channel(
    text: &mut String,
    alloc: Global,
    module: Module,
    channel: u32,
) -> Result<(), AllocError> {
    let name = channel.saturating_add(10);
    let kind = kind_of_channel(module, channel);
    let channel = format!(in alloc;
        "[[channel]]\nname = \"CHANNEL_OF_THIRTY_CHARACTERS{name}\"\nsize = 1024\nkind = {kind}\n"
    )?;
    text.push_str(channel.as_str())
}

/// The module's configuration.
pub(crate) fn config_of<R: AllocGlobal>(rt: &R, module: Module) -> Result<Config, Fail> {
    let mut text = String::new(rt.alloc());
    for channel in 0..64 {
        push_channel(&mut text, rt.alloc(), module, channel)?;
    }
    for partition in 0..PARTITIONS {
        push_partition(&mut text, rt.alloc(), module, partition)?;
    }
    Ok(Config::read(rt.alloc(), text.as_bytes())?)
}
