//! Finds the channels of a configuration's text by their names.
ghost use Rattle.std.specs.Prelude.{◌≡◌, length, IfOk};
ghost use Rattle.std.specs.Option.{option_copied};
ghost use Rattle.apex_config.specs.Passes.{index_of_channel, channel_of_port};

use crate::config_text::{ChannelText, PortText};
use std::alloc::{AllocError, Global};
use std::collections::BTreeMap;
use std::marker::Model;

/// The channels of a text, with the number of the first channel of each name. A contract sees the channels.
#[derive(Drop)]
pub struct ChannelIndex<'t, 'a> {
    channels: &'t [ChannelText<'a>],
    numbers: BTreeMap<&'a str, usize>,
}

impl<'t, 'a> Model for ChannelIndex<'t, 'a> {
    ghost use Rattle.std.specs.Prelude.{List};
    ghost use Rattle.apex_config.specs.Text.{ChannelText};
    ghost use Rattle.apex_config.specs.Numbers.{AreNumbers};

    ghost Value = { List ChannelText };

    ghost view = { λ index. index.channels.now };

    ghost invariant = { λ index. AreNumbers index.numbers index.channels.now };
}

impl<'t, 'a> ChannelIndex<'t, 'a> {
    /// The index of these channels.
    pub fn new(
        alloc: Global,
        channels: &'t [ChannelText<'a>],
    ) -> Result<ChannelIndex<'t, 'a>, AllocError>
        ensures { IfOk result (λ index. index ≡ channels.now) }
    {
        let mut numbers = BTreeMap::new(alloc);
        for (number, channel) in channels.iter().enumerate() {
            if !numbers.contains_key(&channel.name) {
                numbers.insert(channel.name, number)?;
            }
        }
        Ok(ChannelIndex { channels, numbers })
    }

    /// The number of channels.
    pub fn count(&self) -> usize
        ensures { result ≡ length self.now }
    {
        self.channels.len()
    }

    /// The number of the first channel with this name, or the number of channels if there is none.
    pub fn number_of(&self, name: &'a str) -> usize
        ensures { result ≡ index_of_channel self.now name.now }
    {
        match self.numbers.get(&name) {
            Some(number) => *number,
            None => self.channels.len(),
        }
    }

    /// The channel that a port names.
    pub fn channel_of(&self, port: &PortText<'a>) -> Option<&ChannelText<'a>>
        ensures { option_copied result ≡ channel_of_port self.now port.now }
    {
        self.channels.get(self.number_of(port.channel))
    }
}
